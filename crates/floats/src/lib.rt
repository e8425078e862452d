//! Laws on f32, for crates above: zeros, sameness up to a zero's sign, exact doubling and halving, whole numbers.

#![tactic(auto)]

ghost use Rattle.std.specs.Prelude.{◌≡◌};
ghost use Rattle.floats.specs.Arith.{plus, over, four};
ghost use Rattle.floats.specs.Same.{Same, Number, Room};

/// The sum of four numbers, from left to right.
fn sum_of_four(a: f32, b: f32, c: f32, d: f32) -> f32
    ensures { result ≡ plus (plus (plus a b) c) d }
{
    a + b + c + d
}

/// The mean of four numbers, summed from left to right. Of one number four times it is that number,
/// though the sum of three may be rounded.
pub fn mean_of_four(a: f32, b: f32, c: f32, d: f32) -> f32
    ensures value { result ≡ over (plus (plus (plus a b) c) d) four }
    ensures flat { Number a → Room 4 a → Same b a → Same c a → Same d a → Same result a }
{
    sum_of_four(a, b, c, d) / 4.0
}
