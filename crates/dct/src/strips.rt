//! The inverse transform of eight lines at a time, side by side in a list: what one line takes, a vector of eight takes too.

ghost use Rattle.std.specs.Prelude.{◌≡◌, ℕ, ◌+◌, ◌*◌, ◌^◌, ◌<◌, ◌≤◌, length, Decides};
ghost use Rattle.floats.specs.Arith.{times};
ghost use Rattle.dct.specs.Sides.{Long};
ghost use Rattle.dct.specs.Strips.{lane, lanes, odd_lane, sum_lane, difference_lane, Rowed, Paired, Laned, Striped};
ghost use Rattle.dct.specs.Transform.{at, evens, idct, joined, odd_sums as odds};

use crate::dct::{inverse8, is_side};
use crate::dct_common::{SQRT_2, sec_half};

/// The row k.
// that a strip has a row k is a fact on two values, here and below
fn row_at(strip: &[f32], k: usize) -> [f32; 8]
    requires { k * 8 + 8 ≤ length strip.now }
    ensures { (x : ℕ) → x < 8 → at result x ≡ lane strip.now x k }
{
    std::array::from_fn(|x| strip[k * 8 + x])
}

/// The row k times a factor.
fn scaled_row(strip: &[f32], k: usize, factor: f32) -> [f32; 8]
    requires { k * 8 + 8 ≤ length strip.now }
    ensures { (x : ℕ) → x < 8 → at result x ≡ times (lane strip.now x k) factor }
{
    std::array::from_fn(|x| strip[k * 8 + x] * factor)
}

/// Eight numbers written over the row k.
fn put_row(row: &[f32; 8], strip: &mut [f32], k: usize)
    requires { k * 8 + 8 ≤ length strip.old }
    ensures { Rowed k 8 (at row.now) strip.old strip.new }
{
    // kept as a loop: with `copy_from_slice` the inverse of 128 × 128 takes 6.4 ns a sample, and 4.7 with the loop
    for (x, number) in row.iter().enumerate() {
        strip[k * 8 + x] = *number;
    }
}

/// One row from two, number by number.
fn combined<F: Fn(f32, f32) -> f32>(a: &[f32; 8], b: &[f32; 8], f: F) -> [f32; 8]
    requires { F.IsAlwaysCallable f }
    ensures { (x : ℕ) → x < 8 → F.post f (at a.now x) (at b.now x) (at result x) }
{
    std::array::from_fn(|x| f(a[x], b[x]))
}

/// The even rows.
fn even_rows(strip: &[f32], front: &mut [f32], half: usize)
    requires whole { length strip.now ≡ half * 16 }
    requires part { length front.old ≡ half * 8 }
    ensures { (x : ℕ) → x < 8 → lanes half front.new x ≡ evens half (lanes (half + half) strip.now x) }
{
    // kept as a range of row numbers, here and in `odd_rows`: of a list that `chunks_mut` has lent, only the length is known
    for i in 0..half {
        put_row(&row_at(strip, 2 * i), front, i);
    }
}

/// The first odd row times √2.
fn first_odd_row(strip: &[f32]) -> [f32; 8]
    requires { 16 ≤ length strip.now }
    ensures { (x : ℕ) → x < 8 → at result x ≡ odd_lane strip.now x 0 }
{
    scaled_row(strip, 1, SQRT_2)
}

/// The odd row i plus the odd row before it.
fn odd_row(strip: &[f32], i: usize) -> [f32; 8]
    requires later { 0 < i }
    requires within { i * 16 + 16 ≤ length strip.now }
    ensures { (x : ℕ) → x < 8 → at result x ≡ odd_lane strip.now x i }
{
    combined(
        &row_at(strip, 2 * i + 1),
        &row_at(strip, 2 * i - 1),
        |own, before| own + before,
    )
}

/// The sums of the odd rows.
fn odd_rows(strip: &[f32], back: &mut [f32], half: usize)
    requires some { 0 < half }
    requires whole { length strip.now ≡ half * 16 }
    requires part { length back.old ≡ half * 8 }
    ensures { (x : ℕ) → x < 8 → lanes half back.new x ≡ odds half (lanes (half + half) strip.now x) }
{
    put_row(&first_odd_row(strip), back, 0);
    for i in 1..half {
        put_row(&odd_row(strip, i), back, i);
    }
}

/// The sums go to the row i, and the differences to the row k.
fn join_row(front: &[f32], back: &[f32], sec: f32, strip: &mut [f32], i: usize, k: usize)
    requires apart { i < k }
    requires within { k * 8 + 8 ≤ length strip.old }
    requires front { i * 8 + 8 ≤ length front.now }
    requires back { i * 8 + 8 ≤ length back.now }
    ensures { Paired i k 8 (sum_lane sec front.now back.now i) (difference_lane sec front.now back.now i) strip.old strip.new }
{
    let even = row_at(front, i);
    let odd = scaled_row(back, i, sec);
    put_row(&combined(&even, &odd, |e, o| e + o), strip, i);
    put_row(&combined(&even, &odd, |e, o| e - o), strip, k);
}

/// The inverse's end, for each line.
fn join_rows(front: &[f32], back: &[f32], sec: &[f32], strip: &mut [f32])
    requires whole { length strip.old ≡ length sec.now * 16 }
    requires front { length front.now ≡ length sec.now * 8 }
    requires back { length back.now ≡ length sec.now * 8 }
    ensures { (x : ℕ) → x < 8 → let half = length sec.now in lanes (half + half) strip.new x ≡ joined half sec.now (lanes half front.now x) (lanes half back.now x) }
{
    for (i, factor) in sec.iter().enumerate() {
        join_row(front, back, *factor, strip, i, 2 * sec.len() - 1 - i);
    }
}

/// The eight numbers of the line x.
fn line_at(strip: &[f32], x: usize) -> [f32; 8]
    requires lane { x < 8 }
    requires within { 64 ≤ length strip.now }
    ensures { result ≡ lanes 8 strip.now x }
{
    std::array::from_fn(|k| strip[k * 8 + x])
}

/// Eight numbers written over a line.
fn put_line(numbers: &[f32; 8], strip: &mut [f32], x: usize)
    requires lane { x < 8 }
    requires within { 64 ≤ length strip.old }
    ensures { Laned x 8 (at numbers.now) strip.old strip.new }
{
    for (k, number) in numbers.iter().enumerate() {
        strip[k * 8 + x] = *number;
    }
}

/// The inverse of each line of eight numbers.
fn inverse8_lines(strip: &mut [f32])
    requires { 64 ≤ length strip.old }
    ensures { (x : ℕ) → x < 8 → lanes 8 strip.new x ≡ idct 3 (lanes 8 strip.old x) }
{
    // counted: line x is read and written in the same strip
    for x in 0..8 {
        put_line(&inverse8(&line_at(strip, x)), strip, x);
    }
}

/// The inverse of each line of n numbers, in place. The scratch is at least as long.
fn inverse_strip(strip: &mut [f32], scratch: &mut [f32], n: usize)
    requires sided { Long n }
    requires whole { length strip.old ≡ n * 8 }
    requires room { n * 8 ≤ length scratch.old }
    ensures { (k x : ℕ) → n ≡ 2 ^ k → x < 8 → lanes n strip.new x ≡ idct k (lanes n strip.old x) }
{
    if n == 8 {
        inverse8_lines(strip);
        return;
    }
    let half = n / 2;
    let sec = sec_half(n);
    let (front, rest) = scratch.split_at_mut(half * 8);
    let back = &mut rest[0..half * 8];
    even_rows(strip, front, half);
    odd_rows(strip, back, half);
    let (left, right) = strip.split_at_mut(half * 8);
    inverse_strip(front, left, half);
    inverse_strip(back, right, half);
    join_rows(front, back, sec, strip);
}

/// Whether n is 8, 16, .. 256.
fn is_long(n: usize) -> bool
    ensures { Decides result (Long n) }
{
    n >= 8 && is_side(n)
}

/// Whether a strip of `len` numbers has eight lines of n that are transformed, with `room` numbers of scratch.
fn is_striped(n: usize, len: usize, room: usize) -> bool
    ensures { Decides result (Striped n len room) }
{
    is_long(n) && len == n * 8 && len <= room
}

/// The inverse of each of eight lines of n numbers, side by side in a strip, in place; n is 8, 16, .. 256, and the scratch is
/// at least as long as the strip; otherwise nothing is written.
pub fn inverse_eight(strip: &mut [f32], scratch: &mut [f32], n: usize)
    ensures works { (k x : ℕ) → Striped n (length strip.old) (length scratch.old) → n ≡ 2 ^ k → x < 8 → lanes n strip.new x ≡ idct k (lanes n strip.old x) }
    ensures idle { (Striped n (length strip.old) (length scratch.old) → ⊥) → strip.new ≡ strip.old }
{
    if is_striped(n, strip.len(), scratch.len()) {
        inverse_strip(strip, scratch, n);
    }
}
