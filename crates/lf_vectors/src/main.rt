//! Reads cases of the stages on LF samples from standard input, a line each, and prints the samples that each leaves.
//! What it must print was written by the Rust crate.

#![tactic(auto)]

mod words;

use anyhow::anyhow;
use frame::{Frame, Stage};
use grid::{Shape, Xyb};
use lf::{Correlation, lf_correlate, lf_dequantise, lf_smooth};
use refusal::Refusal;
use std::io::{BufRead, BufReader};
use std::num::f32_to_bits_with_nan;
use trials::{PADDING, Picture, keeps_padding, opened, three, within};
use varmap::Cell;
use words::Words;

/// How many cells a map has, and how many numbers scratch has: a case that wants more is refused.
const ROOM: usize = 1024;

fn main(rt: HostRuntime) -> anyhow::Result<()> {
    let heap = rt.alloc();
    for line in BufReader::new(heap, rt.stdin())?.lines(heap) {
        let line = line?;
        play(&rt, line.as_str())?;
    }
    Ok(())
}

/// Plays one case.
fn play(rt: &HostRuntime, line: &str) -> anyhow::Result<()> {
    let mut words = Words::of(line);
    let call = words.word()?;
    let shape = Shape {
        width: words.number()?,
        height: words.number()?,
        stride: words.number()?,
    };
    let lf = match call {
        "smooth" => smooth(rt, &mut words, shape)?,
        "correlate" => correlate(rt, &mut words, shape)?,
        "dequantise" => dequantise(rt, &mut words, shape)?,
        _ => return Err(anyhow!("no such call")),
    };
    print(rt, &lf)
}

/// A frame of as many cells as the shape has elements, in a stage; there is room for a map of 1024 cells.
fn framed(rt: &HostRuntime, shape: Shape, stage: Stage) -> anyhow::Result<Frame> {
    let Shape { width, height, .. } = shape;
    let mut cells = vec![in rt.alloc(); Cell::EMPTY; ROOM]?;
    opened(cells.as_mut_slice(), Shape::dense(width, height), stage).map_err(|_| anyhow!(
        "open is refused"
    ))
}

/// The samples of a case.
fn samples(rt: &HostRuntime, words: &mut Words, shape: Shape) -> anyhow::Result<Picture<f32>> {
    Picture::drawn(rt.alloc(), shape, PADDING, || words.sample())
}

/// Prints the samples of the three channels in a line.
fn print(rt: &HostRuntime, lf: &Picture<f32>) -> anyhow::Result<()> {
    let Xyb { x, y, b } = &lf.lists;
    print_channel(rt, x.as_slice(), lf.shape, " ")?;
    print_channel(rt, y.as_slice(), lf.shape, " ")?;
    print_channel(rt, b.as_slice(), lf.shape, "\n")
}

/// Prints the samples of a channel, and a word if the padding has changed.
fn print_channel(rt: &HostRuntime, list: &[f32], shape: Shape, end: &str) -> anyhow::Result<()> {
    for (i, sample) in within(rt.alloc(), list, shape)?.iter().enumerate() {
        let bits = f32_to_bits_with_nan(*sample);
        // one print for each sample: each is a write of its own
        if i == 0 {
            print!(rt; "{bits:08x}")?;
        } else {
            print!(rt; " {bits:08x}")?;
        }
    }
    if !keeps_padding(list, shape) {
        print!(rt; " padding")?;
    }
    print!(rt; "{end}")?;
    Ok(())
}

fn accept(answer: Result<u32, Refusal>) -> anyhow::Result<()> {
    match answer {
        Ok(0) => Ok(()),
        Ok(_) => Err(anyhow!("another answer than 0")),
        Err(_) => Err(anyhow!("refused")),
    }
}

fn smooth(rt: &HostRuntime, words: &mut Words, shape: Shape) -> anyhow::Result<Picture<f32>> {
    let steps = three(|| words.sample())?;
    let mut lf = samples(rt, words, shape)?;
    let mut scratch = vec![in rt.alloc(); 0.0f32; ROOM]?;
    let mut frame = framed(rt, shape, Stage::LfDequantised)?;
    let scratch = scratch.as_mut_slice();
    let Xyb {
        mut x,
        mut y,
        mut b,
    } = lf.grids();
    accept(lf_smooth(&mut frame, &mut x, &mut y, &mut b, steps, scratch))?;
    Ok(lf)
}

fn correlate(rt: &HostRuntime, words: &mut Words, shape: Shape) -> anyhow::Result<Picture<f32>> {
    let by = Correlation {
        colour_factor: words.number()?,
        base_correlation_x: words.sample()?,
        base_correlation_b: words.sample()?,
        x_factor_lf: words.number()?,
        b_factor_lf: words.number()?,
    };
    let mut lf = samples(rt, words, shape)?;
    let mut frame = framed(rt, shape, Stage::LfDequantised)?;
    let Xyb { mut x, y, mut b } = lf.grids();
    accept(lf_correlate(&mut frame, &mut x, y.view(), &mut b, by))?;
    Ok(lf)
}

fn dequantise(rt: &HostRuntime, words: &mut Words, shape: Shape) -> anyhow::Result<Picture<f32>> {
    let scales = three(|| words.sample())?;
    let numbers = Picture::drawn(rt.alloc(), shape, 0, || words.number())?;
    let mut lf = Picture::drawn(rt.alloc(), shape, PADDING, || Ok(PADDING))?;
    let mut frame = framed(rt, shape, Stage::Placing)?;
    let Xyb {
        mut x,
        mut y,
        mut b,
    } = lf.grids();
    accept(lf_dequantise(&mut frame, &mut x, &mut y, &mut b, numbers.views(), scales))?;
    Ok(lf)
}
