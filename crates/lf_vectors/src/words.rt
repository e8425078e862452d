//! The words of a line.

use anyhow::anyhow;
use std::error::Error as StdError;
use std::num::f32_from_bits_with_nan;
use std::str::{FromStr, SplitWhitespace};

/// The words of a line that were not read yet.
#[derive(Drop)]
pub struct Words<'a> {
    rest: SplitWhitespace<'a>,
}

impl<'a> Words<'a> {
    pub fn of(line: &'a str) -> Self {
        Words {
            rest: line.split_whitespace(),
        }
    }

    pub fn word(&mut self) -> anyhow::Result<&'a str> {
        self.rest.next().ok_or_else(|| anyhow!("a word is missing"))
    }

    /// A number in decimal digits.
    pub fn number<T: FromStr + Drop>(&mut self) -> anyhow::Result<T>
    where
        T::Err: StdError + Drop,
    {
        Ok(self.word()?.parse::<T>()?)
    }

    /// A sample, from the hexadecimal digits of its bits.
    pub fn sample(&mut self) -> anyhow::Result<f32> {
        Ok(f32_from_bits_with_nan(u32::from_str_radix(self.word()?, 16)?))
    }
}
