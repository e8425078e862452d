//! LF smooth.

ghost use Rattle.std.specs.Prelude.{◌≡◌, ◌*◌, ◌≤◌, true, length, is_err};
ghost use Rattle.grid.specs.Became.{Became};
ghost use Rattle.grid.specs.Plane.{lent};
ghost use Rattle.grid.specs.Channels.{planes, all_viewed, all_fit};
ghost use Rattle.refusal.specs.Verdicts.{kept_or};
ghost use Rattle.frame.specs.declared.stages.Stage.TheVariants as stage;
ghost use Rattle.frame.specs.Stages.{InStage};
ghost use Rattle.lf.specs.Smooth.{lf_smooth_turn, step_ok, lf_smooth_answer, lf_smoothed, AllFit};

use crate::moves::{Parts, look_around, move_channel, raster, write_changes};
use frame::{Frame, Stage};
use grid::{Canvas, Grid, Shape, View, Xyb};
use refusal::{Reason, Refusal, require};

/// Each LF sample within the border moves towards the average around it, the less the further that is.
// kept as three parameters for the reason that `lf_dequantise` names
pub fn lf_smooth(
    frame: &mut Frame,
    x: &mut Grid<f32>,
    y: &mut Grid<f32>,
    b: &mut Grid<f32>,
    steps: Xyb<f32>,
    scratch: &mut [f32],
) -> Result<u32, Refusal>
    ensures answer { result ≡ lf_smooth_answer frame.old.w8 frame.old.h8 frame.old.stage (planes (lent x.old) (lent y.old) (lent b.old)) steps (length scratch.old) }
    ensures stage { InStage frame.old frame.new (kept_or result frame.old.stage stage.LfSmoothed) }
    ensures x { Became x.old x.new (kept_or result x.old.list.now (lf_smoothed frame.old.w8 frame.old.h8 (planes (lent x.old) (lent y.old) (lent b.old)) steps (lent x.old))) }
    ensures y { Became y.old y.new (kept_or result y.old.list.now (lf_smoothed frame.old.w8 frame.old.h8 (planes (lent x.old) (lent y.old) (lent b.old)) steps (lent y.old))) }
    ensures b { Became b.old b.new (kept_or result b.old.list.now (lf_smoothed frame.old.w8 frame.old.h8 (planes (lent x.old) (lent y.old) (lent b.old)) steps (lent b.old))) }
    ensures scratch { is_err result ≡ true → scratch.new ≡ scratch.old }
    ensures room { length scratch.new ≡ length scratch.old }
{
    let lf = Xyb {
        x: x.view(),
        y: y.view(),
        b: b.view(),
    };
    let answer = judge(frame, lf, steps, scratch.len())?;
    smooth_by(frame.w8(), frame.h8(), x, y, b, steps, scratch);
    frame.lead_to(Stage::LfSmoothed);
    Ok(answer)
}

/// What LF smooth answers, if scratch has `room` numbers.
fn judge(frame: &Frame, lf: Xyb<View<f32>>, steps: Xyb<f32>, room: usize) -> Result<u32, Refusal>
    ensures { result ≡ lf_smooth_answer frame.now.w8 frame.now.h8 frame.now.stage (all_viewed lf.entry) steps room }
{
    let (w8, h8) = (frame.w8(), frame.h8());
    require(is_turn(frame.stage()), Reason::Turn)?;
    require(lf.fit(w8, h8), Reason::Shape)?;
    require(3 * (w8 * h8) <= room, Reason::Scratch)?;
    require(steps.all(is_step), Reason::Float)?;
    Ok(0)
}

/// Whether LF smooth is accepted in this stage.
fn is_turn(stage: Stage) -> bool
    ensures { result ≡ lf_smooth_turn stage }
{
    matches!(stage, Stage::LfDequantised | Stage::LfCorrelated)
}

/// Whether it is finite and above 0.
fn is_step(step: f32) -> bool
    ensures { result ≡ step_ok step }
{
    step.is_finite() & (0.0 < step)
}

/// The three channels, once nothing is refused, by scratch as three grids.
fn smooth_by(
    w: usize,
    h: usize,
    x: &mut Grid<f32>,
    y: &mut Grid<f32>,
    b: &mut Grid<f32>,
    steps: Xyb<f32>,
    scratch: &mut [f32],
)
    requires fit { all_fit w h (planes (lent x.old) (lent y.old) (lent b.old)) ≡ true }
    requires room { 3 * (w * h) ≤ length scratch.old }
    ensures x { Became x.old x.new (lf_smoothed w h (planes (lent x.old) (lent y.old) (lent b.old)) steps (lent x.old)) }
    ensures y { Became y.old y.new (lf_smoothed w h (planes (lent x.old) (lent y.old) (lent b.old)) steps (lent y.old)) }
    ensures b { Became b.old b.new (lf_smoothed w h (planes (lent x.old) (lent y.old) (lent b.old)) steps (lent b.old)) }
{
    let shape = Shape::dense(w, h);
    let (first, rest) = scratch.split_at_mut(w * h);
    let (second, third) = rest.split_at_mut(w * h);
    let parts = &mut Parts {
        changes: Canvas { list: first, shape },
        y_changes: Canvas {
            list: second,
            shape,
        },
        shares: Canvas { list: third, shape },
    };
    smooth_all(x, y, b, steps, parts);
}

/// The three channels. Scratch first gets the changes of X and Y and how much of them each cell makes; a channel is
/// written only from scratch, so that all is made of old samples.
fn smooth_all(
    x: &mut Grid<f32>,
    y: &mut Grid<f32>,
    b: &mut Grid<f32>,
    steps: Xyb<f32>,
    parts: &mut Parts,
)
    requires { AllFit (planes (lent x.old) (lent y.old) (lent b.old)) parts.old.shares.shape }
    ensures x { Became x.old x.new (lf_smoothed parts.old.shares.shape.width parts.old.shares.shape.height (planes (lent x.old) (lent y.old) (lent b.old)) steps (lent x.old)) }
    ensures y { Became y.old y.new (lf_smoothed parts.old.shares.shape.width parts.old.shares.shape.height (planes (lent x.old) (lent y.old) (lent b.old)) steps (lent y.old)) }
    ensures b { Became b.old b.new (lf_smoothed parts.old.shares.shape.width parts.old.shares.shape.height (planes (lent x.old) (lent y.old) (lent b.old)) steps (lent b.old)) }
{
    look_around(x, y, b, steps, parts);
    move_channel(x, parts.changes.raster(), parts.shares.raster());
    move_channel(y, parts.y_changes.raster(), parts.shares.raster());
    write_changes(raster(b), &mut parts.changes);
    move_channel(b, parts.changes.raster(), parts.shares.raster());
}
