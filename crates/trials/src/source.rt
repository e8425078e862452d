//! Made-up numbers.

ghost use Rattle.std.specs.Prelude.{◌≡◌, ◌+◌, ◌/◌, ◌%◌, ◌^◌, ◌<◌, ◌≤◌, from_bits};
ghost use Rattle.std.specs.Float.{binary32};
ghost use Rattle.trials.specs.Numbers.{following, pattern};

use std::num::f32_from_bits_with_nan;

/// A linear congruential generator.
#[derive(Drop)]
pub struct Source {
    pub state: u32,
}

impl Source {
    /// The state that follows, which stays.
    fn step(&mut self) -> u32
        ensures value { result ≡ following self.old.state }
        ensures kept { self.new.state ≡ result }
    {
        self.state = self
            .state
            .wrapping_mul(1_664_525)
            .wrapping_add(1_013_904_223);
        self.state
    }

    /// A number below n.
    pub fn draw(&mut self, n: u32) -> u32
        requires { 1 ≤ n }
        ensures below { result < n }
        ensures value { result ≡ following self.old.state / 256 % n }
    {
        (self.step() >> 8) % n
    }

    /// A float of any sign and fraction, with one of 41 exponents from `least` on.
    #[tactic(auto, using(crate::proofs::Pattern::pattern_from_states))]
    pub fn float(&mut self, least: u32) -> f32
        ensures value { let a = following self.old.state in let b = following a in least ≤ 215 → result ≡ from_bits binary32 (pattern (a / 2 ^ 31) (a / 256 % 41 + least) (b / 2 ^ 9)) }
        ensures kept { self.new.state ≡ following (following self.old.state) }
    {
        let a = self.step();
        let b = self.step();
        let exponent = ((a >> 8) % 41).wrapping_add(least);
        f32_from_bits_with_nan((a & 0x8000_0000) | (exponent << 23) | (b >> 9))
    }
}
