//! Frames of mixed kinds through rebuild, in grids with padding. What this has to write was written by the Rust code that the
//! library is a port of: for each row of samples the bits of its first, and a sum over the bits of all, padding too.

#![tactic(auto)]

use frame::{Frame, Stage};
use grid::{Grid, Shape, View, Xyb};
use rebuild::rebuild;
use refusal::Refusal;
use transform::Vardct;
use trials::{PADDING, Picture, Source, lay_out, padded};
use varmap::Cell;

/// How many of the kinds that are carried are drawn from: 0 to 13 and 18 to 23.
const KINDS: u32 = 20;

/// One frame: how many cells it has, how much wider than the samples its rows are, the first kind, where its
/// numbers start, and their least exponent.
#[derive(Clone, Copy)]
struct Plan {
    w8: usize,
    h8: usize,
    pad: usize,
    first: u32,
    seed: u32,
    least: u32,
}

fn planned(w8: usize, h8: usize, pad: usize, first: u32, seed: u32, least: u32) -> Plan {
    Plan {
        w8,
        h8,
        pad,
        first,
        seed,
        least,
    }
}

fn main(rt: HostRuntime) -> anyhow::Result<()> {
    let plans = [
        planned(4, 4, 0, 0, 1, 107),
        planned(5, 5, 3, 5, 2, 107),
        planned(5, 3, 1, 11, 3, 0),
        planned(8, 8, 0, 10, 4, 190),
        planned(9, 8, 5, 18, 5, 107),
        planned(9, 8, 1, 20, 6, 0),
        planned(8, 9, 2, 19, 7, 107),
        planned(16, 16, 7, 22, 8, 107),
        planned(16, 9, 16, 23, 9, 107),
        planned(16, 16, 1, 21, 10, 107),
    ];
    for plan in plans {
        run(&rt, plan)?;
    }
    Ok(())
}

/// One frame: a varblock of the first kind, and others at random; what is refused is left out.
fn run(rt: &HostRuntime, plan: Plan) -> anyhow::Result<()> {
    let mut source = Source { state: plan.seed };
    let shape = padded(plan.w8, plan.h8, 2);
    let mut cells = vec![in rt.alloc(); Cell::EMPTY; shape.stride.saturating_mul(plan.h8)]?;
    let mut map = Grid {
        list: cells.as_mut_slice(),
        shape,
    };
    let Ok(mut frame) = Frame::open(plan.w8, plan.h8, &mut map) else {
        println!(rt; "not opened")?;
        return Ok(());
    };
    let _ = frame.place(&mut map, plan.first, 0, 0, 1);
    let _ = lay_out(&mut source, &frame, &mut map, KINDS, 6);
    frame.lead_to(Stage::HfDequantised);
    rebuild_over(rt, &mut source, plan, &mut frame, map.view())
}

/// A picture of floats of the source.
fn picture(
    rt: &HostRuntime,
    source: &mut Source,
    shape: Shape,
    least: u32,
) -> anyhow::Result<Picture<f32>> {
    Picture::drawn(rt.alloc(), shape, PADDING, || Ok(source.float(least)))
}

/// rebuild with LF samples and samples of the source, printed.
fn rebuild_over(
    rt: &HostRuntime,
    source: &mut Source,
    plan: Plan,
    frame: &mut Frame,
    map: View<Cell>,
) -> anyhow::Result<()> {
    let (w8, h8) = (frame.w8(), frame.h8());
    let lf = picture(rt, source, padded(w8, h8, 1), plan.least)?;
    let shape = padded(8 * w8, 8 * h8, plan.pad);
    let mut samples = picture(rt, source, shape, plan.least)?;
    let scratch = &mut [0.0; 512];
    let Xyb {
        mut x,
        mut y,
        mut b,
    } = samples.grids();
    let answer = rebuild(
        frame,
        &Vardct,
        map,
        lf.views(),
        &mut x,
        &mut y,
        &mut b,
        scratch,
    );
    print_answer(rt, plan.seed, answer)?;
    samples.show(rt, "")?;
    Ok(())
}

fn print_answer(rt: &HostRuntime, number: u32, answer: Result<u32, Refusal>) -> anyhow::Result<()> {
    match answer {
        Ok(leads) => println!(rt; "frame {number} leads {leads}")?,
        Err(refusal) => println!(rt; "frame {number} refused {refusal}")?,
    }
    Ok(())
}
