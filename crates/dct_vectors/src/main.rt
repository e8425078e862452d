//! Both transforms of patches of every size from 1 × 1 to 256 × 256, over several kinds of numbers, a line with a hash for each.
//! The lines that it has to print were written by the Rust code that the transforms follow.

#![tactic(auto)]

use dct::DctDirection;
use dct_2d::dct_2d;
use grid::Shape;
use std::fmt;
use std::num::{f32_from_bits_with_nan, f32_to_bits_with_nan};

/// The numbers that a patch is filled with.
#[derive(Clone, Copy)]
enum Kind {
    /// of sizes 2 ^ -20 to 2 ^ 20, so that sums are rounded
    Wide,
    /// below the smallest normal number and just above it
    Subnormal,
    /// so large that sums overflow
    Large,
    /// wide ones with a NaN and infinities among them
    Special,
    /// zeros of both signs and ones
    Sparse,
}

const KINDS: [Kind; 5] = [
    Kind::Wide,
    Kind::Subnormal,
    Kind::Large,
    Kind::Special,
    Kind::Sparse,
];

impl fmt::Display for Kind {
    fn fmt<W: fmt::Write>(&self, f: &mut fmt::Formatter<W>) -> fmt::Result {
        f.write_str(match self {
            Kind::Wide => "wide",
            Kind::Subnormal => "subnormal",
            Kind::Large => "large",
            Kind::Special => "special",
            Kind::Sparse => "sparse",
        })
    }
}

impl Kind {
    fn bits(self, draw: u64) -> u32 {
        let bits = (draw >> 32) as u32;
        let choice = ((draw >> 8) % 256) as u32;
        let wide = (bits & 0x807f_ffff) | ((107 + choice % 41) << 23);
        match self {
            Kind::Wide => wide,
            Kind::Subnormal => bits & 0x80ff_ffff,
            Kind::Large => (bits & 0x80ff_ffff) | 0x7e00_0000,
            Kind::Special => match choice {
                0 => 0x7fc0_0000,
                1 => 0x7f80_0000,
                2 => 0xff80_0000,
                _ => wide,
            },
            Kind::Sparse => match choice % 5 {
                0 => 0,
                1 => 0x3f80_0000,
                2 => 0xbf80_0000,
                _ => 0x8000_0000,
            },
        }
    }
}

/// A direction by its name.
#[derive(Clone, Copy)]
struct Way(DctDirection);

impl fmt::Display for Way {
    fn fmt<W: fmt::Write>(&self, f: &mut fmt::Formatter<W>) -> fmt::Result {
        f.write_str(match self.0 {
            DctDirection::Forward => "forward",
            DctDirection::Inverse => "inverse",
        })
    }
}

/// xorshift64*
fn next(state: u64) -> u64 {
    let a = state ^ (state >> 12);
    let b = a ^ (a << 25);
    b ^ (b >> 27)
}

fn fill(list: &mut [f32], kind: Kind, seed: u64) {
    let mut state = seed.wrapping_mul(0x9e37_79b9_7f4a_7c15) | 1;
    for v in list.iter_mut() {
        state = next(state);
        *v = f32_from_bits_with_nan(kind.bits(state.wrapping_mul(0x2545_f491_4f6c_dd1d)));
    }
}

/// FNV-1a over the bits, word by word; every NaN counts as one.
fn hash(list: &[f32]) -> u64 {
    list.iter().fold(0xcbf2_9ce4_8422_2325, |hash: u64, v| {
        (hash ^ f32_to_bits_with_nan(*v) as u64).wrapping_mul(0x100_0000_01b3)
    })
}

/// One line: the whole list is hashed, with what lies beyond the patch's width.
fn show(
    rt: &HostRuntime,
    width: usize,
    height: usize,
    kind: Kind,
    direction: DctDirection,
) -> std::io::Result<()> {
    let stride = width.saturating_add(3);
    let mut list = vec![in rt.alloc(); 0.0f32; stride.saturating_mul(height)]?;
    let seed = width.wrapping_mul(512).wrapping_add(height);
    fill(&mut list, kind, seed as u64);
    let shape = Shape {
        width,
        height,
        stride,
    };
    dct_2d(&mut list, shape, &mut [0.0; 512], direction);
    let way = Way(direction);
    let sum = hash(&list);
    println!(rt; "{way} {width} {height} {kind} {sum:016x}")
}

/// Both directions and all kinds of numbers at one size.
fn show_size(rt: &HostRuntime, width: usize, height: usize) -> std::io::Result<()> {
    for kind in KINDS {
        for direction in [DctDirection::Forward, DctDirection::Inverse] {
            show(rt, width, height, kind, direction)?;
        }
    }
    Ok(())
}

fn main(rt: HostRuntime) -> std::io::Result<()> {
    let sides = [1, 2, 4, 8, 16, 32, 64, 128, 256];
    for width in sides {
        for height in sides {
            show_size(&rt, width, height)?;
        }
    }
    Ok(())
}
