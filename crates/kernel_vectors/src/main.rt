//! The inverse of every kind and the forward map of every size over made-up numbers, in grids with padding.
//! What it must print was written by the Rust crate.

#![tactic(auto)]

use grid::Shape;
use kernel::Kernel;
use kinds::{Size, kind_size};
use std::fmt;
use std::num::{f32_from_bits_with_nan, f32_to_bits_with_nan};
use transform::{Mean, Vardct};
use trials::{PADDING, Source, filled, keeps_padding, padded};

/// The numbers that a grid is filled with.
#[derive(Clone, Copy)]
enum Mode {
    /// of many magnitudes
    Wide = 0,
    /// the least and the subnormal ones
    Least = 1,
    /// wide ones with −0 and infinity among them
    Special = 2,
}

const MODES: [Mode; 3] = [Mode::Wide, Mode::Least, Mode::Special];

impl fmt::Display for Mode {
    fn fmt<W: fmt::Write>(&self, f: &mut fmt::Formatter<W>) -> fmt::Result {
        let number = *self as u32;
        write!(f, "{number}")
    }
}

fn main(rt: HostRuntime) -> anyhow::Result<()> {
    // counted, here and below: the cases are numbered
    for kind in 0..28u32 {
        if let Some(size) = kind_size(kind) {
            inverses(&rt, kind, size)?;
        }
    }
    for i in 0..6u32 {
        for j in 0..6u32 {
            for mode in MODES {
                forward(&rt, padded(1usize << i, 1usize << j, j as usize % 2), mode)?;
            }
        }
    }
    Ok(())
}

/// Made-up numbers, one after another.
#[derive(Drop)]
struct Numbers {
    source: Source,
    // counted by hand: `filled` asks for one number at a time, and an iterator over places would have to say what follows its end
    count: u32,
    mode: Mode,
}

impl Numbers {
    fn number(&mut self) -> f32 {
        let i = self.count;
        self.count = i.wrapping_add(1);
        let wide = self.source.float(107);
        match self.mode {
            Mode::Least => f32_from_bits_with_nan(i.wrapping_mul(2_654_435_761) & 0x80ff_ffff),
            Mode::Special if i == 1 => -0.0,
            Mode::Special if i == 7 => f32::INFINITY,
            _ => wide,
        }
    }
}

/// Prints the hash of a grid's numbers, its first and its last number, and a word if the padding has changed.
fn print(rt: &HostRuntime, list: &[f32], shape: Shape) -> anyhow::Result<()> {
    let (mut hash, mut first, mut last) = (0u32, None, 0u32);
    for row in list.chunks(shape.stride.max(1)) {
        for v in row.iter().take(shape.width) {
            last = f32_to_bits_with_nan(*v);
            hash = hash.wrapping_mul(31).wrapping_add(last);
            first = first.or(Some(last));
        }
    }
    let first = first.unwrap_or(0);
    let word = if keeps_padding(list, shape) {
        ""
    } else {
        " padding"
    };
    println!(rt; " hash {hash:08x} first {first:08x} last {last:08x}{word}")?;
    Ok(())
}

/// The list that a map, over scratch of 512 numbers, makes of numbers of this mode.
fn mapped<F: FnOnce(&mut [f32], &mut [f32]) + Drop>(
    rt: &HostRuntime,
    shape: Shape,
    seed: u32,
    mode: Mode,
    map: F,
) -> anyhow::Result<Vec<f32>>
    requires { F.IsAlwaysCallable map }
{
    let mut numbers = Numbers {
        source: Source { state: seed },
        count: 0,
        mode,
    };
    let mut list = filled(rt.alloc(), shape, PADDING, || Ok(numbers.number()))?;
    map(list.as_mut_slice(), &mut [0.0; 512]);
    Ok(list)
}

/// Both kernels' inverses of a kind.
fn inverses(rt: &HostRuntime, kind: u32, size: Size) -> anyhow::Result<()> {
    let (w, h) = (size.width.saturating_mul(8), size.height.saturating_mul(8));
    let seed = kind.wrapping_add(100);
    for mode in MODES {
        for pad in 0..2usize {
            let shape = padded(w, h, pad);
            let stride = shape.stride;
            let list = mapped(rt, shape, seed, mode, |list, scratch| {
                Vardct.inverse(kind, list, shape, scratch);
            })?;
            print!(rt; "inverse {kind} stride {stride} mode {mode}")?;
            print(rt, list.as_slice(), shape)?;
        }
    }
    let shape = padded(w, h, 3);
    let list = mapped(rt, shape, seed, Mode::Wide, |list, scratch| {
        Mean.inverse(kind, list, shape, scratch);
    })?;
    print!(rt; "mean {kind}")?;
    print(rt, list.as_slice(), shape)
}

fn forward(rt: &HostRuntime, shape: Shape, mode: Mode) -> anyhow::Result<()> {
    let (w, h) = (shape.width, shape.height);
    let list = mapped(rt, shape, 200, mode, |list, scratch| {
        Vardct.forward(list, shape, scratch);
    })?;
    print!(rt; "forward {w} {h} mode {mode}")?;
    print(rt, list.as_slice(), shape)
}
