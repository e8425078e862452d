//! What the frames are given: samples and whole numbers of the source, and weights.

ghost use Rattle.std.specs.Prelude.{◌≤◌};

use kinds::kind_size;
use trials::Source;

/// How many of the kinds have weights, from kind 0 on.
pub const KINDS: u32 = 14;

/// The start of a kind that has no weights.
const NONE: u32 = 4_294_967_295;

/// A sample from -256 to 256.
pub fn sample(source: &mut Source) -> f32 {
    (source.draw(16_777_216) as f32 - 8_388_608.0) / 32_768.0
}

/// A whole number, mostly small.
fn number(source: &mut Source) -> i32 {
    let most = most(source.draw(4));
    let n = source.draw(most) as i32;
    if source.draw(2) == 0 { n } else { -n }
}

/// The first `count` numbers of a list become whole numbers of the source.
pub fn fill_numbers(source: &mut Source, list: &mut [i32], count: usize) {
    for value in list.iter_mut().take(count) {
        *value = number(source);
    }
}

/// The first `count` numbers of a list become samples of the source.
pub fn fill_samples(source: &mut Source, list: &mut [f32], count: usize) {
    for value in list.iter_mut().take(count) {
        *value = sample(source);
    }
}

fn most(pick: u32) -> u32
    ensures least { 1 ≤ result }
    ensures greatest { result ≤ 16777216 }
{
    match pick {
        0 => 2,
        1 => 5,
        2 => 1000,
        _ => 16_777_216,
    }
}

/// How many weights a kind has: one for each sample of its varblock.
#[tactic(auto, using(kinds::proofs::Sizes::size_bounded))]
fn weight_count(kind: u32) -> u32 {
    match kind_size(kind) {
        Some(size) => 64 * size.width as u32 * size.height as u32,
        None => 0,
    }
}

/// Where the weights of each kind start: one kind after another.
pub fn starts() -> [u32; 27] {
    std::array::from_fn(|kind| {
        if kind < KINDS as usize {
            (0..kind as u32).fold(0u32, |end, k| end.wrapping_add(weight_count(k)))
        } else {
            NONE
        }
    })
}

/// A channel's weights, one kind after another.
pub fn fill_weights(channel: u32, list: &mut [f32]) {
    let places = (0..KINDS).flat_map(|kind| (0..weight_count(kind)).map(move |i| (kind, i)));
    for (value, (kind, i)) in list.iter_mut().zip(places) {
        *value = weight(channel, kind, i);
    }
}

fn weight(channel: u32, kind: u32, i: u32) -> f32 {
    let sum = i
        .wrapping_mul(7)
        .wrapping_add(channel.wrapping_mul(3))
        .wrapping_add(kind);
    (sum % 101) as f32 / 37.0 - 1.0
}
