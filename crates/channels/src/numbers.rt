//! Whole numbers that become samples.

ghost use Rattle.std.specs.Prelude.{◌≡◌, true};
ghost use Rattle.grid.specs.Index.{Inside};
ghost use Rattle.grid.specs.Plane.{seen, numeral};
ghost use Rattle.channels.specs.Ranges.{in_range, in_range_at, range_checked, AllInRange};

use grid::Raster;
use refusal::{Reason, Refusal};

/// Whole numbers that f32 holds, with every whole number nearer to 0.
#[derive(Clone, Copy)]
pub struct Numbers<'a> {
    pub grid: Raster<'a, i32>,
    pub ghost in_range: { AllInRange (seen grid) },
}

/// Whether f32 holds the number, and every whole number nearer to 0.
fn is_in_range(number: i32) -> bool
    ensures { result ≡ in_range number }
{
    number.unsigned_abs() <= 16_777_216
}

/// Refuses the first number of a channel, row by row, that is out of range.
// the channel is a number, as a host reads it in a refusal
pub fn check_numbers(channel: usize, grid: Raster<'_, i32>) -> Result<(), Refusal>
    ensures { result ≡ range_checked grid.entry.shape.width grid.entry.shape.height channel (seen grid.entry) }
{
    // counted: the refusal names the place
    for y in 0..grid.shape.height {
        for x in 0..grid.shape.width {
            if !is_in_range(grid.get(x, y)) {
                return Err(Refusal::at(Reason::Range, channel, x, y));
            }
        }
    }
    Ok(())
}

impl<'a> Numbers<'a> {
    ghost use Rattle.channels.specs.Checked.{AreNumbers};

    /// The numbers of a channel; they are refused for the first, row by row, that is out of range.
    pub fn checked(channel: usize, grid: Raster<'a, i32>) -> Result<Numbers<'a>, Refusal>
        ensures { AreNumbers channel (seen grid.entry) result }
    {
        check_numbers(channel, grid)?;
        Ok(Numbers { grid })
    }

    /// The number at (x, y).
    pub fn get(self, x: usize, y: usize) -> i32
        requires { Inside self.grid.shape x y }
        ensures value { result ≡ numeral (seen self.entry.grid) x y }
        ensures range { in_range result ≡ true }
    {
        self.grid.get(x, y)
    }
}
