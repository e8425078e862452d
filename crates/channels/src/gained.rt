//! A channel that gains a multiple of Y.

ghost use Rattle.std.specs.Prelude.{◌+◌};
ghost use Rattle.grid.specs.Index.{Inside};
ghost use Rattle.grid.specs.Plane.{seen};
ghost use Rattle.channels.specs.Correlated.{gained};

use grid::{Brush, Raster};

/// Adds k times Y's sample at the same place, in a rectangle whose first sample is (left, top).
#[derive(Clone, Copy)]
pub struct Gained<'y> {
    pub luma: Raster<'y, f32>,
    pub left: usize,
    pub top: usize,
    pub k: f32,
}

impl<'y> Brush<f32> for Gained<'y> {
    ghost ready = { λ s i j. Inside s.luma.shape (s.left + i) (s.top + j) };

    ghost made = { λ s. gained s.k (seen s.luma) s.left s.top };

    fn stroke(&self, i: usize, j: usize, old: f32) -> f32 {
        old + self.k * self.luma.get(self.left + i, self.top + j)
    }
}
