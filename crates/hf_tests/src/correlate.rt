//! HF correlate over 9 × 1 cells: 72 × 8 samples in two tiles.

use frame::Stage;
use grid::{Shape, View, Xyb};
use hf_correlate::{Correlation, hf_correlate};
use refusal::Refusal;
use std::num::f32_to_bits_with_nan;
use std::test::Fail;
use trials::{HostAnswer, grids, opened, told};
use varmap::Cell;

/// What a call is given.
#[derive(Clone, Copy)]
struct Trial {
    stage: Stage,
    /// of Y's samples
    width: usize,
    /// of X's tiles
    tiles: usize,
    /// X's first tile and B's second
    numbers: (i32, i32),
    by: Correlation,
    /// X's samples
    old: f32,
}

fn good() -> Trial {
    Trial {
        stage: Stage::HfDequantised,
        width: 72,
        tiles: 2,
        numbers: (84, 84),
        by: Correlation {
            colour_factor: 84,
            base_correlation_x: 0.0,
            base_correlation_b: 0.0,
        },
        old: 5.0,
    }
}

/// The answer, the stage after the call, and the bits of X's and B's samples at both sides of the tiles' border.
#[derive(Clone, Copy)]
struct Outcome {
    answer: HostAnswer,
    stage: u32,
    x: (u32, u32),
    b: (u32, u32),
}

fn call(t: Trial) -> Result<Outcome, Refusal> {
    let mut frame = opened(&mut [Cell::EMPTY; 9], Shape::dense(9, 1), t.stage)?;
    let (first, second) = t.numbers;
    let x_tiles = View {
        list: &[first, 0, 0],
        shape: Shape {
            width: t.tiles,
            height: 1,
            stride: 3,
        },
    };
    let b_tiles = View {
        list: &[0, second],
        shape: Shape::dense(2, 1),
    };
    let (mut xs, mut ys, mut bs) = ([t.old; 576], [2.0f32; 576], [5.0f32; 576]);
    let Xyb {
        mut x,
        mut y,
        mut b,
    } = grids(&mut xs, &mut ys, &mut bs, Shape::dense(72, 8));
    y.shape.width = t.width;
    let answer = hf_correlate(&mut frame, &mut x, y.view(), &mut b, x_tiles, b_tiles, t.by);
    Ok(Outcome {
        answer: told(answer),
        stage: frame.stage().number(),
        x: (f32_to_bits_with_nan(xs[63]), f32_to_bits_with_nan(xs[64])),
        b: (f32_to_bits_with_nan(bs[567]), f32_to_bits_with_nan(bs[568])),
    })
}

const FIVE: u32 = 0x40a0_0000;

const SEVEN: u32 = 0x40e0_0000;

#[test]
fn worked(rt: HostRuntime) -> Result<(), Fail> {
    let o = call(good())?;
    assert_eq!(rt; o.answer, Ok(0));
    assert_eq!(rt; o.stage, 5);
    assert_eq!(rt; o.x, (SEVEN, FIVE), "X's first tile");
    assert_eq!(rt; o.b, (FIVE, SEVEN), "B's second tile");
    Ok(())
}

/// Where k is 0, as much of Y is added still: −0 becomes 0.
#[test]
fn nothing_of_luma(rt: HostRuntime) -> Result<(), Fail> {
    let mut t = good();
    t.numbers = (0, 0);
    t.old = -0.0;
    assert_eq!(rt; call(t)?.x, (0, 0));
    Ok(())
}

#[test]
fn turn_and_shape(rt: HostRuntime) -> Result<(), Fail> {
    let mut t = good();
    t.stage = Stage::LfSmoothed;
    assert_eq!(rt; call(t)?.answer, Err((1, 0, 0, 0)), "stage 3");
    t.stage = Stage::HfCorrelated;
    assert_eq!(rt; call(t)?.answer, Err((1, 0, 0, 0)), "stage 5");
    assert_eq!(rt; call(t)?.stage, 5, "stays");
    t.stage = Stage::HfDequantised;
    t.width = 71;
    assert_eq!(rt; call(t)?.answer, Err((2, 0, 0, 0)), "71 across");
    t.width = 72;
    t.tiles = 1;
    assert_eq!(rt; call(t)?.answer, Err((2, 0, 0, 0)), "1 tile");
    t.tiles = 3;
    assert_eq!(rt; call(t)?.answer, Err((2, 0, 0, 0)), "3 tiles");
    Ok(())
}

#[test]
fn range_and_floats(rt: HostRuntime) -> Result<(), Fail> {
    let mut t = good();
    t.by.colour_factor = 0;
    assert_eq!(rt; call(t)?.answer, Err((8, 0, 0, 0)), "colour_factor 0");
    t.by.colour_factor = 1;
    assert_eq!(rt; call(t)?.answer, Ok(0), "colour_factor 1");
    t.by.colour_factor = 65_794;
    assert_eq!(rt; call(t)?.answer, Err((8, 0, 0, 0)), "colour_factor 65,794");
    t.by.colour_factor = 65_793;
    t.numbers = (-16_777_216, 16_777_216);
    assert_eq!(rt; call(t)?.answer, Ok(0), "16,777,216");
    t.numbers = (0, 16_777_217);
    assert_eq!(rt; call(t)?.answer, Err((8, 2, 1, 0)), "B's second tile");
    t.numbers = (-16_777_217, 16_777_217);
    assert_eq!(rt; call(t)?.answer, Err((8, 0, 0, 0)), "X's first tile");
    t.numbers = (0, 0);
    t.by.base_correlation_b = f32::INFINITY;
    assert_eq!(rt; call(t)?.answer, Err((9, 0, 0, 0)), "base");
    t.by.base_correlation_b = f32::MAX;
    assert_eq!(rt; call(t)?.answer, Ok(0), "greatest base");
    Ok(())
}
