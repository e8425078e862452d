//! The transform of one list.

ghost use Rattle.std.specs.Prelude.{◌≡◌, ℕ, ◌+◌, ◌^◌, ◌<◌, ◌≤◌, length, Decides};
ghost use Rattle.floats.specs.Arith.{plus, minus, times, over, two};
ghost use Rattle.dct.specs.Sides.{Sided};
ghost use Rattle.dct.specs.Transform.{forward4 as forward4_of, inverse4 as inverse4_of, dct4_of, dct_of, idct, evens, odd_sum as odd_sum_of, odd_sums as odds, joined, means, slope as slope_of, slopes, interleaved, gathered};

use crate::dct_common::{DctDirection, SEC_HALF_4, SEC_HALF_8, SQRT_2, sec_half};

fn forward4(a: f32, b: f32, c: f32, d: f32) -> [f32; 4]
    ensures { result ≡ forward4_of a b c d }
{
    let sum03 = a + d;
    let sum12 = b + c;
    let tmp0 = (a - d) * SEC_HALF_4[0];
    let tmp1 = (b - c) * SEC_HALF_4[1];
    let out0 = (tmp0 + tmp1) / 4.0;
    let out1 = (tmp0 - tmp1) / 4.0;
    [
        (sum03 + sum12) / 4.0,
        out0 * SQRT_2 + out1,
        (sum03 - sum12) / 4.0,
        out1,
    ]
}

pub fn inverse4(a: f32, b: f32, c: f32, d: f32) -> [f32; 4]
    ensures { result ≡ inverse4_of a b c d }
{
    let tmp0 = b * SQRT_2;
    let tmp1 = b + d;
    let out0 = (tmp0 + tmp1) * SEC_HALF_4[0];
    let out1 = (tmp0 - tmp1) * SEC_HALF_4[1];
    let sum02 = a + c;
    let sub02 = a - c;
    [sum02 + out0, sub02 + out1, sub02 - out1, sum02 - out0]
}

/// The inverse of eight numbers.
#[tactic(auto, unfolding(crate::specs::Transform::idct, crate::specs::Secants::secants))]
pub fn inverse8(numbers: &[f32; 8]) -> [f32; 8]
    ensures { result ≡ idct 3 numbers.now }
{
    let [a, b, c, d, e, f, g, h] = *numbers;
    let even = inverse4(a, c, e, g);
    let odd = inverse4(b * SQRT_2, d + b, f + d, h + f);
    let mut out = [0.0; 8];
    join(&even, &odd, &SEC_HALF_8, &mut out);
    out
}

/// The transform of a list of four, from its four numbers.
pub fn dct4(a: f32, b: f32, c: f32, d: f32, direction: DctDirection) -> [f32; 4]
    ensures { result ≡ dct4_of direction a b c d }
{
    match direction {
        DctDirection::Forward => forward4(a, b, c, d),
        DctDirection::Inverse => inverse4(a, b, c, d),
    }
}

/// The odd place i of a list, plus the odd before it; the first times √2.
fn odd_sum(io: &[f32], i: usize) -> f32
    requires { i + i + 1 < length io.now }
    ensures { result ≡ odd_sum_of io.now i }
{
    // kept as a choice by the place, as the definition has it: the first odd place has none before it
    if i == 0 {
        io[1] * SQRT_2
    } else {
        io[2 * i + 1] + io[2 * i - 1]
    }
}

/// The two halves that the inverse starts from: the even places and the sums of the odd ones.
fn deal(io: &[f32], front: &mut [f32], back: &mut [f32])
    requires whole { length io.now ≡ length front.old + length front.old }
    requires halves { length back.old ≡ length front.old }
    ensures front { front.new ≡ evens (length front.old) io.now }
    ensures back { back.new ≡ odds (length front.old) io.now }
{
    for (i, even) in front.iter_mut().enumerate() {
        *even = io[2 * i];
        back[i] = odd_sum(io, i);
    }
}

/// A sum and a difference, of a number of the first half and one of the second times its secant.
fn butterfly(front: f32, back: f32, sec: f32) -> (f32, f32)
    ensures sum { result.0 ≡ plus front (times back sec) }
    ensures difference { result.1 ≡ minus front (times back sec) }
{
    let r = back * sec;
    (front + r, front - r)
}

/// The inverse's end: sums from the front, and differences from the back.
fn join(front: &[f32], back: &[f32], sec: &[f32], io: &mut [f32])
    requires whole { length io.old ≡ length front.now + length front.now }
    requires halves { length back.now ≡ length front.now }
    requires factors { length sec.now ≡ length front.now }
    ensures { io.new ≡ joined (length front.now) sec.now front.now back.now }
{
    let n = io.len();
    for (i, number) in front.iter().enumerate() {
        let (sum, difference) = butterfly(*number, back[i], sec[i]);
        io[i] = sum;
        io[n - 1 - i] = difference;
    }
}

/// The mean of two numbers.
fn mean(first: f32, last: f32) -> f32
    ensures { result ≡ over (plus first last) two }
{
    (first + last) / 2.0
}

/// Half of a difference, times its secant. At the length 8 the secant comes before the halving.
fn slope(half: usize, difference: f32, sec: f32) -> f32
    ensures { result ≡ slope_of half difference sec }
{
    if half == 4 {
        difference * sec / 2.0
    } else {
        difference / 2.0 * sec
    }
}

/// The two halves that the forward transform starts from: means of both ends, and slopes between them.
fn fold(io: &[f32], sec: &[f32], front: &mut [f32], back: &mut [f32])
    requires whole { length io.now ≡ length front.old + length front.old }
    requires halves { length back.old ≡ length front.old }
    requires factors { length sec.now ≡ length front.old }
    ensures front { front.new ≡ means (length front.old) io.now }
    ensures back { back.new ≡ slopes (length front.old) sec.now io.now }
{
    let n = io.len();
    let half = front.len();
    for (i, number) in front.iter_mut().enumerate() {
        *number = mean(io[i], io[n - i - 1]);
        back[i] = slope(half, io[i] - io[n - i - 1], sec[i]);
    }
}

/// The forward transform's odd place from the place i of its second half: plus the next one, the first times √2 before that.
fn odd_place(back: &[f32], i: usize) -> f32
    requires { i < length back.now }
    ensures { result ≡ gathered (length back.now) back.now i }
{
    // kept as a choice by the place, as the definition has it: only the first is scaled
    let own = if i == 0 { back[0] * SQRT_2 } else { back[i] };
    match back.get(i + 1) {
        Some(next) => own + *next,
        None => own,
    }
}

/// The forward transform's end: the first half goes to the even places, the sums of the second to the odd ones.
fn weave(front: &[f32], back: &[f32], io: &mut [f32])
    requires whole { length io.old ≡ length front.now + length front.now }
    requires halves { length back.now ≡ length front.now }
    ensures { io.new ≡ interleaved (length front.now) front.now back.now }
{
    for (i, number) in front.iter().enumerate() {
        io[2 * i] = *number;
        io[2 * i + 1] = odd_place(back, i);
    }
}

/// The transform of a list of 1, 2, 4, .. 256 numbers, in place. The scratch is at least as long.
fn dct(io: &mut [f32], scratch: &mut [f32], direction: DctDirection)
    requires sided { Sided (length io.old) }
    requires room { length io.old ≤ length scratch.old }
    ensures { (k : ℕ) → length io.old ≡ 2 ^ k → io.new ≡ dct_of direction k io.old }
{
    let n = io.len();
    match *io {
        [] | [_] => {}
        [a, b] => match direction {
            DctDirection::Forward => {
                io[0] = (a + b) / 2.0;
                io[1] = (a - b) / 2.0;
            }
            DctDirection::Inverse => {
                io[0] = a + b;
                io[1] = a - b;
            }
        },
        [a, b, c, d] => {
            let out = dct4(a, b, c, d, direction);
            io.copy_from_slice(&out);
        }
        _ => {
            let half = n / 2;
            let sec = sec_half(n);
            let (front, rest) = scratch.split_at_mut(half);
            let back = &mut rest[0..half];
            match direction {
                DctDirection::Forward => fold(io, sec, front, back),
                DctDirection::Inverse => deal(io, front, back),
            }
            let (left, right) = io.split_at_mut(half);
            dct(front, left, direction);
            dct(back, right, direction);
            match direction {
                DctDirection::Forward => weave(front, back, io),
                DctDirection::Inverse => join(front, back, sec, io),
            }
        }
    }
}

/// Whether a list of this length is transformed.
pub fn is_side(n: usize) -> bool
    ensures { Decides result (Sided n) }
{
    n <= 256 && n.is_power_of_two()
}

/// The transform of a list of 1, 2, 4, .. 256 numbers, in place. The scratch is at least as long; otherwise nothing is written.
pub fn dct_1d(io: &mut [f32], scratch: &mut [f32], direction: DctDirection)
    ensures works { (k : ℕ) → k ≤ 8 → length io.old ≡ 2 ^ k → length io.old ≤ length scratch.old → io.new ≡ dct_of direction k io.old }
    ensures idle { (Sided (length io.old) → length io.old ≤ length scratch.old → ⊥) → io.new ≡ io.old }
{
    if is_side(io.len()) && io.len() <= scratch.len() {
        dct(io, scratch, direction);
    }
}
