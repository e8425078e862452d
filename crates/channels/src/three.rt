//! The whole numbers of all channels.

ghost use Rattle.grid.specs.Channels.{all_seen};
ghost use Rattle.channels.specs.Checked.{AllAreNumbers};

use crate::numbers::Numbers;
use grid::{Raster, Xyb};
use refusal::Refusal;

/// The numbers of the three channels; they are refused for the first, channel by channel and row by row, that is out of range.
pub fn check_channels<'a>(grids: Xyb<Raster<'a, i32>>) -> Result<Xyb<Numbers<'a>>, Refusal>
    ensures { AllAreNumbers (all_seen grids.entry) result }
{
    Ok(Xyb {
        x: Numbers::checked(0, grids.x)?,
        y: Numbers::checked(1, grids.y)?,
        b: Numbers::checked(2, grids.b)?,
    })
}
