//! What the numbers that say how much of Y is gained are divided by.

ghost use Rattle.std.specs.Prelude.{◌≡◌, true};
ghost use Rattle.channels.specs.Ranges.{colour_ok};

use refusal::{Reason, Refusal, require};

/// A colour factor from 1 to 65,793.
#[derive(Clone, Copy)]
pub struct ColourFactor {
    pub value: u32,
    pub ghost in_range: { colour_ok value ≡ true },
}

impl ColourFactor {
    ghost use Rattle.channels.specs.Checked.{IsColourFactor};

    /// The number as a colour factor; it is refused if it is out of range.
    pub fn checked(value: u32) -> Result<ColourFactor, Refusal>
        ensures { IsColourFactor value result }
    {
        require((1 <= value) & (value <= 65_793), Reason::Range)?;
        Ok(ColourFactor { value })
    }
}
