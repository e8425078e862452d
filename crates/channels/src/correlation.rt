//! How X and B go with Y.

ghost use Rattle.std.specs.Prelude.{◌≡◌, true};
ghost use Rattle.channels.specs.Ranges.{in_range};
ghost use Rattle.channels.specs.Correlated.{bases_ok, gain};

use crate::colour::ColourFactor;

/// How X and B go with Y.
#[derive(Clone, Copy)]
pub struct Correlation {
    pub colour_factor: u32,
    pub base_correlation_x: f32,
    pub base_correlation_b: f32,
}

impl Correlation {
    /// Whether both bases are finite.
    pub fn bases_are_finite(self) -> bool
        ensures { result ≡ bases_ok self }
    {
        self.base_correlation_x.is_finite() & self.base_correlation_b.is_finite()
    }
}

/// How much of Y a channel gains by a number: the base, and the number over the colour factor.
pub fn gain(base: f32, number: i32, colour: ColourFactor) -> f32
    requires { in_range number ≡ true }
    ensures { result ≡ gain base colour.value number }
{
    base + number as f32 / colour.value as f32
}
