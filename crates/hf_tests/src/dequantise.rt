//! HF dequantise over one varblock of 8 × 8 samples.

use frame::{Frame, Stage};
use grid::{Grid, Shape, View, Xyb};
use hf::{Quantiser, hf_dequantise};
use refusal::Refusal;
use std::num::f32_to_bits_with_nan;
use std::test::Fail;
use trials::{HostAnswer, alike, grids, opened, padded, told, views};
use varmap::{Cell, Record};
use weights::Weights;

/// What a call is given. Each field stands for one thing that may be refused.
#[derive(Clone, Copy)]
struct Trial {
    stage: Stage,
    /// the lead's multiplier
    hf_mul: u32,
    /// of X's samples
    width: usize,
    /// how many starts Y has
    starts: usize,
    /// the first four coefficients of each channel
    coefficients: [i32; 4],
    /// B's coefficient at (3, 2)
    last: i32,
    by: Quantiser,
    /// where Y's weights start
    start: u32,
    /// how many weights X has
    weights: usize,
    /// every weight
    weight: f32,
    /// B's weight behind all that are used
    spare: f32,
}

fn good() -> Trial {
    Trial {
        stage: Stage::LfDequantised,
        hf_mul: 1,
        width: 8,
        starts: 27,
        coefficients: [0, 1, 2, -2],
        last: 0,
        by: Quantiser {
            global_scale: 65_536,
            qm_scale: alike(1.0),
            quant_bias: alike(0.5),
            quant_bias_numerator: 0.5,
        },
        start: 0,
        weights: 64,
        weight: 2.0,
        spare: 1.0,
    }
}

/// The answer, the stage after the call, and Y's first samples.
#[derive(Clone, Copy)]
struct Outcome {
    answer: HostAnswer,
    stage: u32,
    samples: [f32; 4],
}

/// A channel's coefficients: the first four, and that at (3, 2).
fn coefficients(first: [i32; 4], last: i32) -> [i32; 72] {
    let mut list = [0; 72];
    list[..4].copy_from_slice(&first);
    list[21] = last;
    list
}

/// Calls with what the trial says, over these samples.
fn given(t: Trial, frame: &mut Frame, samples: &mut Xyb<Grid<f32>>) -> Result<u32, Refusal> {
    let cells = [Cell {
        holds: Record::Lead {
            kind: 0,
            hf_mul: t.hf_mul,
        },
    }];
    let map = View {
        list: &cells,
        shape: Shape::dense(1, 1),
    };
    let (front, back) = (
        coefficients(t.coefficients, 0),
        coefficients(t.coefficients, t.last),
    );
    let numbers = views(&front, &front, &back, padded(8, 8, 1));
    let (even, mut tail) = ([t.weight; 64], [t.weight; 65]);
    tail[64] = t.spare;
    let (zeros, mut starts) = ([0u32; 27], [0u32; 27]);
    starts[0] = t.start;
    let weights = Xyb {
        x: Weights {
            list: &even[..t.weights.min(64)],
            starts: &zeros,
        },
        y: Weights {
            list: &even,
            starts: &starts[..t.starts.min(27)],
        },
        b: Weights {
            list: &tail,
            starts: &zeros,
        },
    };
    let Xyb { x, y, b } = samples;
    hf_dequantise(frame, map, x, y, b, numbers, weights, t.by)
}

fn call(t: Trial) -> Result<Outcome, Refusal> {
    let mut frame = opened(&mut [Cell::EMPTY], Shape::dense(1, 1), t.stage)?;
    let (mut xs, mut ys, mut bs) = ([9.0f32; 72], [9.0f32; 72], [9.0f32; 72]);
    let mut samples = grids(&mut xs, &mut ys, &mut bs, padded(8, 8, 1));
    samples.x.shape.width = t.width;
    let answer = given(t, &mut frame, &mut samples);
    let [a, b, c, d, ..] = ys;
    Ok(Outcome {
        answer: told(answer),
        stage: frame.stage().number(),
        samples: [a, b, c, d],
    })
}

#[test]
fn worked(rt: HostRuntime) -> Result<(), Fail> {
    let o = call(good())?;
    assert_eq!(rt; o.answer, Ok(0));
    assert_eq!(rt; o.stage, 4);
    let [a, b, c, d] = o.samples;
    assert_eq!(rt; f32_to_bits_with_nan(a), 0, "0");
    assert_eq!(rt; f32_to_bits_with_nan(b), 0x3f80_0000, "1");
    assert_eq!(rt; f32_to_bits_with_nan(c), 0x4060_0000, "3.5");
    assert_eq!(rt; f32_to_bits_with_nan(d), 0xc060_0000, "-3.5");
    Ok(())
}

/// 65,795 × 255 is no f32: the product is rounded before it divides.
#[test]
fn inexact_product(rt: HostRuntime) -> Result<(), Fail> {
    let mut t = good();
    t.by.global_scale = 65_795;
    t.hf_mul = 255;
    t.by.quant_bias_numerator = 0.0;
    t.weight = 1.0;
    let [_, _, c, _] = call(t)?.samples;
    assert_eq!(rt; f32_to_bits_with_nan(c), 0x3bff_fe04);
    Ok(())
}

#[test]
fn turn_and_shape(rt: HostRuntime) -> Result<(), Fail> {
    let mut t = good();
    t.stage = Stage::Placing;
    assert_eq!(rt; call(t)?.answer, Err((1, 0, 0, 0)), "stage 0");
    assert_eq!(rt; call(t)?.stage, 0, "stays");
    t.stage = Stage::LfSmoothed;
    assert_eq!(rt; call(t)?.answer, Ok(0), "stage 3");
    t.stage = Stage::HfDequantised;
    assert_eq!(rt; call(t)?.answer, Err((1, 0, 0, 0)), "stage 4");
    t.stage = Stage::LfCorrelated;
    t.width = 7;
    assert_eq!(rt; call(t)?.answer, Err((2, 0, 0, 0)), "7 across");
    t.width = 9;
    assert_eq!(rt; call(t)?.answer, Err((2, 0, 0, 0)), "9 across");
    t.width = 8;
    t.starts = 26;
    assert_eq!(rt; call(t)?.answer, Err((2, 0, 0, 0)), "26 starts");
    t.starts = 27;
    assert_eq!(rt; call(t)?.answer, Ok(0), "27 starts");
    Ok(())
}

#[test]
fn map_and_range(rt: HostRuntime) -> Result<(), Fail> {
    let mut t = good();
    t.hf_mul = 0;
    assert_eq!(rt; call(t)?.answer, Err((4, 0, 0, 0)), "hf_mul 0");
    t.hf_mul = 256;
    assert_eq!(rt; call(t)?.answer, Err((4, 0, 0, 0)), "hf_mul 256");
    t.hf_mul = 255;
    t.by.global_scale = 0;
    assert_eq!(rt; call(t)?.answer, Err((8, 0, 0, 0)), "global_scale 0");
    t.by.global_scale = 1;
    assert_eq!(rt; call(t)?.answer, Ok(0), "global_scale 1");
    t.by.global_scale = 73_729;
    assert_eq!(rt; call(t)?.answer, Err((8, 0, 0, 0)), "global_scale 73,729");
    t.by.global_scale = 73_728;
    t.last = 16_777_216;
    assert_eq!(rt; call(t)?.answer, Ok(0), "16,777,216");
    t.last = -16_777_216;
    assert_eq!(rt; call(t)?.answer, Ok(0), "-16,777,216");
    t.last = 16_777_217;
    assert_eq!(rt; call(t)?.answer, Err((8, 2, 3, 2)), "16,777,217");
    t.last = -16_777_217;
    assert_eq!(rt; call(t)?.answer, Err((8, 2, 3, 2)), "-16,777,217");
    t.coefficients = [0, 0, 0, 16_777_217];
    assert_eq!(rt; call(t)?.answer, Err((8, 0, 3, 0)), "X first");
    Ok(())
}

#[test]
fn floats(rt: HostRuntime) -> Result<(), Fail> {
    let mut t = good();
    t.by.qm_scale.b = 0.0;
    assert_eq!(rt; call(t)?.answer, Err((9, 0, 0, 0)), "qm 0");
    t.by.qm_scale.b = 1.0e-45;
    assert_eq!(rt; call(t)?.answer, Ok(0), "qm least");
    t.by.qm_scale.b = 16.000002;
    assert_eq!(rt; call(t)?.answer, Err((9, 0, 0, 0)), "qm above 16");
    t.by.qm_scale.b = 16.0;
    assert_eq!(rt; call(t)?.answer, Ok(0), "qm 16");
    t.by.quant_bias.y = f32::INFINITY;
    assert_eq!(rt; call(t)?.answer, Err((9, 0, 0, 0)), "bias");
    t.by.quant_bias.y = f32::MAX;
    t.by.quant_bias_numerator = f32::NAN;
    assert_eq!(rt; call(t)?.answer, Err((9, 0, 0, 0)), "numerator");
    t.by.quant_bias_numerator = f32::MAX;
    assert_eq!(rt; call(t)?.answer, Ok(0), "greatest");
    t.spare = f32::INFINITY;
    assert_eq!(rt; call(t)?.answer, Err((9, 2, 64, 0)), "a weight of no kind");
    Ok(())
}

#[test]
fn weights(rt: HostRuntime) -> Result<(), Fail> {
    let mut t = good();
    t.weights = 63;
    assert_eq!(rt; call(t)?.answer, Err((10, 0, 0, 0)), "63 weights");
    t.weights = 64;
    t.start = 1;
    assert_eq!(rt; call(t)?.answer, Err((10, 1, 0, 0)), "past the end by one");
    t.start = 4_294_967_295;
    assert_eq!(rt; call(t)?.answer, Err((10, 1, 0, 0)), "none");
    t.start = 0;
    assert_eq!(rt; call(t)?.answer, Ok(0), "64 weights from 0 on");
    Ok(())
}
