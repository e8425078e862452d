//! The stages of a frame.

ghost use Rattle.std.specs.Prelude.{◌≡◌};
ghost use Rattle.frame.specs.Stages.{stage_number, is_placing};

/// What has been done to a frame.
#[derive(Clone, Copy, PartialEq, Eq, Debug)]
pub enum Stage {
    Placing = 0,
    LfDequantised = 1,
    LfCorrelated = 2,
    LfSmoothed = 3,
    HfDequantised = 4,
    HfCorrelated = 5,
    Rebuilt = 6,
}

impl Stage {
    /// The number that the host knows the stage by.
    // a method and no `From`: its name says which number
    pub fn number(self) -> u32
        ensures { result ≡ stage_number self }
    {
        self as u32
    }

    /// Whether varblocks may be placed.
    pub fn is_placing(self) -> bool
        ensures { result ≡ is_placing self }
    {
        matches!(self, Stage::Placing)
    }
}
