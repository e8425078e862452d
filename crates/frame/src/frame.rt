//! A frame: its size in cells, and what has been done to it.

ghost use Rattle.std.specs.Prelude.{◌≡◌, ◌≤◌};

use crate::stages::Stage;

/// A frame of w8 × h8 cells.
#[derive(Clone, Copy)]
pub struct Frame {
    pub(crate) w8: usize,
    pub(crate) h8: usize,
    pub(crate) stage: Stage,
    ghost small: { (1 ≤ w8) × (w8 ≤ 128) × (1 ≤ h8) × (h8 ≤ 128) },
}

impl Frame {
    /// How many cells it has across.
    pub fn w8(&self) -> usize
        ensures { result ≡ self.now.w8 }
    {
        self.w8
    }

    /// How many cells it has down.
    pub fn h8(&self) -> usize
        ensures { result ≡ self.now.h8 }
    {
        self.h8
    }

    pub fn stage(&self) -> Stage
        ensures { result ≡ self.now.stage }
    {
        self.stage
    }

    /// The stage becomes `stage`. For the calls that lead to one.
    pub fn lead_to(&mut self, stage: Stage)
        ensures width { self.new.w8 ≡ self.old.w8 }
        ensures height { self.new.h8 ≡ self.old.h8 }
        ensures stage { self.new.stage ≡ stage }
    {
        self.stage = stage;
    }
}
