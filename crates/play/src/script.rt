//! The words of a script's lines.

use grid::Xyb;
use std::alloc::AllocError;
use std::num::f32_from_bits_with_nan;
use std::str::{FromStr, SplitWhitespace};
use thiserror::Error;

/// Why a line asks for nothing that can be done.
#[derive(Clone, Copy, Debug, Error)]
pub enum Mistake<'a> {
    #[error("unknown command '{0}'")]
    Unknown(&'a str),
    #[error("{0} is missing")]
    Missing(&'static str),
    #[error("'{0}' is no {1}")]
    Wrong(&'a str, &'static str),
    #[error("'{0}' is too much")]
    Extra(&'a str),
    #[error("no frame is open")]
    NoFrame,
    #[error("no memory is made for so many cells")]
    TooManyCells,
    #[error("there is no such element")]
    NoElement,
    #[error("memory is at its end")]
    OutOfMemory(#[from(alloc)] AllocError),
}

/// The words of a line that were not read yet.
#[derive(Drop)]
pub struct Words<'a> {
    rest: SplitWhitespace<'a>,
}

impl<'a> Iterator for Words<'a> {
    type Item = &'a str;

    fn next(&mut self) -> Option<&'a str> {
        self.rest.next()
    }
}

impl<'a> Words<'a> {
    /// The words of a line up to `#`, which begins a comment.
    pub fn of(line: &'a str) -> Words<'a> {
        let text = line.split('#').next().unwrap_or("");
        Words {
            rest: text.split_whitespace(),
        }
    }

    /// The next word, which is called `what` where it is missing.
    pub fn word(&mut self, what: &'static str) -> Result<&'a str, Mistake<'a>> {
        self.next().ok_or(Mistake::Missing(what))
    }

    /// The next word as a number, which is called `what` where it is missing or wrong.
    pub fn number<N: FromStr>(&mut self, what: &'static str) -> Result<N, Mistake<'a>>
    where
        N::Err: Drop,
    {
        let word = self.word(what)?;
        word.parse().map_err(|_| Mistake::Wrong(word, what))
    }

    /// The next word as a whole number.
    pub fn whole<N: FromStr>(&mut self) -> Result<N, Mistake<'a>>
    where
        N::Err: Drop,
    {
        self.number("whole number")
    }

    /// The next word as an f32: a decimal number, or its bits in hexadecimal after `0x`.
    pub fn float(&mut self) -> Result<f32, Mistake<'a>> {
        let word = self.word("number")?;
        float_of(word).ok_or(Mistake::Wrong(word, "number"))
    }

    /// An f32 for each channel.
    pub fn floats(&mut self) -> Result<Xyb<f32>, Mistake<'a>> {
        Ok(Xyb {
            x: self.float()?,
            y: self.float()?,
            b: self.float()?,
        })
    }

    /// Nothing stands after what was read.
    pub fn end(&mut self) -> Result<(), Mistake<'a>> {
        match self.next() {
            None => Ok(()),
            Some(word) => Err(Mistake::Extra(word)),
        }
    }
}

/// The f32 that a word stands for.
fn float_of(word: &str) -> Option<f32> {
    match word.strip_prefix("0x") {
        Some(bits) => u32::from_str_radix(bits, 16)
            .ok()
            .map(|bits| f32_from_bits_with_nan(bits)),
        None => word.parse().ok(),
    }
}
