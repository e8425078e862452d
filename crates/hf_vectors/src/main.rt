//! Frames of mixed kinds through HF dequantise and HF correlate. What this has to write was written by the Rust code that the
//! library is a port of: for each row of samples the bits of its first, and a sum over the bits of all.

#![tactic(auto)]

mod draws;

ghost use Rattle.std.specs.Prelude.{◌≡◌};

use draws::{KINDS, fill_numbers, fill_samples, fill_weights, sample, starts};
use frame::{Frame, Stage};
use grid::{Grid, Shape, View, Xyb};
use hf::{Quantiser, hf_dequantise};
use hf_correlate::{Correlation, hf_correlate};
use refusal::Refusal;
use std::io::Error;
use std::num::f32_to_bits_with_nan;
use trials::{Source, grids, lay_out, views};
use varmap::Cell;
use weights::Weights;

/// How many samples a channel has room for: those of 9 × 9 cells. What a frame is given lies in arrays, so that no memory is asked for.
const ROOM: usize = 5184;

/// How many weights a channel has.
const WEIGHTS: usize = 3456;

/// One frame: how many cells it has, where its numbers start, and the scales of X and B.
#[derive(Clone, Copy)]
struct Plan {
    w8: usize,
    h8: usize,
    seed: u32,
    x_qm: f32,
    b_qm: f32,
}

fn planned(w8: usize, h8: usize, seed: u32, x_qm: f32, b_qm: f32) -> Plan
    ensures { (result.w8 ≡ w8) × (result.h8 ≡ h8) }
{
    Plan {
        w8,
        h8,
        seed,
        x_qm,
        b_qm,
    }
}

fn main(rt: HostRuntime) -> Result<(), Error> {
    let plans = [
        planned(1, 1, 1, 1.0, 0.8),
        planned(2, 3, 2, 0.64000005, 1.25),
        planned(4, 4, 3, 1.5624999, 0.32768005),
        planned(7, 2, 4, 0.8, 1.0),
        planned(9, 9, 5, 1.25, 0.64000005),
        planned(3, 9, 6, 0.512, 0.512),
    ];
    for (number, plan) in plans.iter().enumerate() {
        run(&rt, number, *plan)?;
    }
    Ok(())
}

/// One frame through both calls.
fn run(rt: &HostRuntime, number: usize, plan: Plan) -> Result<(), Error> {
    let mut source = Source { state: plan.seed };
    let mut cells = [Cell::EMPTY; 81];
    let mut map = Grid {
        list: &mut cells,
        shape: Shape::dense(plan.w8, plan.h8),
    };
    let Ok(mut frame) = Frame::open(plan.w8, plan.h8, &mut map) else {
        return println!(rt; "not opened");
    };
    let leads = lay_out(&mut source, &frame, &mut map, KINDS, 5);
    println!(rt; "frame {number} leads {leads}")?;
    frame.lead_to(Stage::LfDequantised);
    let shape = Shape::dense(8 * frame.w8(), 8 * frame.h8());
    let (mut xs, mut ys, mut bs) = ([0.0; ROOM], [0.0; ROOM], [0.0; ROOM]);
    let Xyb {
        mut x,
        mut y,
        mut b,
    } = grids(&mut xs, &mut ys, &mut bs, shape);
    let answer = dequantise(
        &mut source,
        plan,
        &mut frame,
        map.view(),
        &mut x,
        &mut y,
        &mut b,
    );
    print_refusal(rt, answer)?;
    show(rt, "", &x, &y, &b)?;
    let answer = correlate(&mut source, &mut frame, &mut x, y.view(), &mut b);
    print_refusal(rt, answer)?;
    show(rt, "c", &x, &y, &b)
}

fn print_refusal(rt: &HostRuntime, answer: Result<u32, Refusal>) -> Result<(), Error> {
    match answer {
        Ok(_) => Ok(()),
        Err(refusal) => println!(rt; "refused {refusal}"),
    }
}

/// Prints the three channels, each with its name behind `prefix`.
fn show(
    rt: &HostRuntime,
    prefix: &str,
    x: &Grid<f32>,
    y: &Grid<f32>,
    b: &Grid<f32>,
) -> Result<(), Error> {
    show_channel(rt, prefix, "x", x.view())?;
    show_channel(rt, prefix, "y", y.view())?;
    show_channel(rt, prefix, "b", b.view())
}

/// Prints a line for each row: the bits of its first number, and a sum over the bits of all.
fn show_channel(
    rt: &HostRuntime,
    prefix: &str,
    name: &str,
    channel: View<f32>,
) -> Result<(), Error> {
    let Shape { height, stride, .. } = channel.shape;
    for (row, samples) in channel.list.chunks(stride.max(1)).take(height).enumerate() {
        let first = samples.first().map_or(0, |v| f32_to_bits_with_nan(*v));
        let sum = samples.iter().fold(0u32, |sum, v| {
            sum.wrapping_mul(31).wrapping_add(f32_to_bits_with_nan(*v))
        });
        println!(rt; "{prefix}{name} {row} {first} {sum}")?;
    }
    Ok(())
}

fn draw_quantiser(source: &mut Source, plan: Plan) -> Quantiser {
    Quantiser {
        global_scale: 1 + source.draw(73_728),
        qm_scale: Xyb {
            x: plan.x_qm,
            y: 1.0,
            b: plan.b_qm,
        },
        quant_bias: Xyb {
            x: sample(source) / 256.0,
            y: sample(source) / 256.0,
            b: sample(source) / 256.0,
        },
        quant_bias_numerator: sample(source) / 256.0,
    }
}

/// HF dequantise with numbers and weights of the source, over samples of the source.
fn dequantise(
    source: &mut Source,
    plan: Plan,
    frame: &mut Frame,
    map: View<Cell>,
    x: &mut Grid<f32>,
    y: &mut Grid<f32>,
    b: &mut Grid<f32>,
) -> Result<u32, Refusal> {
    let by = draw_quantiser(source, plan);
    let shape = x.shape;
    let count = shape.width.saturating_mul(shape.height);
    let (mut nx, mut ny, mut nb) = ([0; ROOM], [0; ROOM], [0; ROOM]);
    fill_numbers(source, &mut nx, count);
    fill_numbers(source, &mut ny, count);
    fill_numbers(source, &mut nb, count);
    fill_samples(source, x.list, count);
    fill_samples(source, y.list, count);
    fill_samples(source, b.list, count);
    let (mut wx, mut wy, mut wb) = ([0.0; WEIGHTS], [0.0; WEIGHTS], [0.0; WEIGHTS]);
    fill_weights(0, &mut wx);
    fill_weights(1, &mut wy);
    fill_weights(2, &mut wb);
    let starts = &starts();
    let weights = Xyb {
        x: Weights { list: &wx, starts },
        y: Weights { list: &wy, starts },
        b: Weights { list: &wb, starts },
    };
    let numbers = views(&nx, &ny, &nb, shape);
    hf_dequantise(frame, map, x, y, b, numbers, weights, by)
}

/// HF correlate with tile numbers of the source.
fn correlate(
    source: &mut Source,
    frame: &mut Frame,
    x: &mut Grid<f32>,
    y: View<f32>,
    b: &mut Grid<f32>,
) -> Result<u32, Refusal> {
    let shape = Shape::dense((frame.w8() + 7) / 8, (frame.h8() + 7) / 8);
    let count = shape.width.saturating_mul(shape.height);
    let (mut x_tiles, mut b_tiles) = ([0; 4], [0; 4]);
    fill_numbers(source, &mut x_tiles, count);
    fill_numbers(source, &mut b_tiles, count);
    let by = Correlation {
        colour_factor: 1 + source.draw(65_793),
        base_correlation_x: sample(source),
        base_correlation_b: sample(source),
    };
    let x_from_y = View {
        list: &x_tiles,
        shape,
    };
    let b_from_y = View {
        list: &b_tiles,
        shape,
    };
    hf_correlate(frame, x, y, b, x_from_y, b_from_y, by)
}
