//! Grids as text.

ghost use Rattle.std.specs.Prelude.{◌<◌};

use grid::{Shape, View};
use std::alloc::{AllocError, Global};
use std::fmt;
use std::fmt::Display;
use std::num::{f32_to_bits_with_nan, saturating_f32_to_u8};
use varmap::{Cell, Record};

/// The map: for each cell a dot, its kind, or an arrow towards its lead.
pub fn map_rows(heap: Global, map: View<'_, Cell>) -> Result<String, AllocError> {
    push_rows(String::new(heap), map, "", Symbol)
}

/// The samples as decimal numbers, parted by spaces.
pub fn sample_rows(heap: Global, samples: View<'_, f32>) -> Result<String, AllocError> {
    push_rows(String::new(heap), samples, " ", |sample| sample)
}

/// The samples as bits in hexadecimal, parted by spaces.
pub fn bit_rows(heap: Global, samples: View<'_, f32>) -> Result<String, AllocError> {
    push_rows(String::new(heap), samples, " ", Bits)
}

/// A picture of the samples as a PGM file: `black` and what is below becomes 0, `white` and what is above 255.
pub fn picture(
    heap: Global,
    samples: View<'_, f32>,
    black: f32,
    white: f32,
) -> Result<String, AllocError> {
    let Shape { width, height, .. } = samples.shape;
    let head = format!(in heap; "P2\n{width} {height}\n255\n")?;
    push_rows(head, samples, "\n", |sample| grey(sample, black, white))
}

/// The text, followed by the grid row by row: each row ends its line, and `between` stands between two elements.
fn push_rows<T: Copy, D: Display + Drop, F: Fn(T) -> D>(
    mut text: String,
    grid: View<'_, T>,
    between: &str,
    shown: F,
) -> Result<String, AllocError>
    requires { F.IsAlwaysCallable shown }
{
    let Shape {
        width,
        height,
        stride,
    } = grid.shape;
    if !grid.shape.is_lawful(grid.list.len()) {
        return Ok(text);
    }
    for row in grid.list.chunks(stride).take(height) {
        for (x, element) in row.iter().take(width).enumerate() {
            if x > 0 {
                text.push_str(between)?;
            }
            write!(text, "{}", shown(*element))?;
        }
        text.push('\n')?;
    }
    Ok(text)
}

/// A cell of the map, three columns wide.
#[derive(Clone, Copy)]
struct Symbol(Cell);

impl fmt::Display for Symbol {
    fn fmt<W: fmt::Write>(&self, f: &mut fmt::Formatter<W>) -> fmt::Result {
        match self.0.holds {
            Record::Empty => write!(f, "  ."),
            Record::Lead { kind, .. } => write!(f, "{kind:>3}"),
            Record::Covered { dx: 0, .. } => write!(f, "  ^"),
            Record::Covered { .. } => write!(f, "  <"),
        }
    }
}

/// A sample by its bits, in hexadecimal.
#[derive(Clone, Copy)]
struct Bits(f32);

impl fmt::Display for Bits {
    fn fmt<W: fmt::Write>(&self, f: &mut fmt::Formatter<W>) -> fmt::Result {
        write!(f, "{:08x}", f32_to_bits_with_nan(self.0))
    }
}

/// The grey of a sample, from 0 at `black` to 255 at `white`.
fn grey(sample: f32, black: f32, white: f32) -> u8 {
    saturating_f32_to_u8((sample - black) / (white - black) * 255.0 + 0.5)
}
