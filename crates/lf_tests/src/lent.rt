//! The stages over lists that a host lends: what it knows of them afterwards.

ghost use Rattle.std.specs.Prelude.{◌≡◌, true, length, is_err};
ghost use Rattle.grid.specs.Plane.{viewed};
ghost use Rattle.grid.specs.Channels.{all_viewed};
ghost use Rattle.refusal.specs.Verdicts.{kept_or};
ghost use Rattle.frame.specs.declared.stages.Stage.TheVariants as stage;
ghost use Rattle.frame.specs.Stages.{InStage};
ghost use Rattle.lf.specs.Dequantise.{lf_dequantise_answer, lf_dequantised};
ghost use Rattle.lf.specs.Smooth.{lf_smooth_answer, lf_smoothed};
ghost use Rattle.lf_tests.specs.Lent.{over, all_over};

use frame::Frame;
use grid::{Grid, Shape, View, Xyb};
use lf::{lf_dequantise, lf_smooth};
use refusal::Refusal;

/// LF dequantise over three lists in grids of one shape.
pub fn dequantised_lists(
    frame: &mut Frame,
    x: &mut [f32],
    y: &mut [f32],
    b: &mut [f32],
    shape: Shape,
    numbers: Xyb<View<i32>>,
    scales: Xyb<f32>,
) -> Result<u32, Refusal>
    ensures answer { result ≡ lf_dequantise_answer frame.old.w8 frame.old.h8 frame.old.stage (all_over shape x.old y.old b.old) (all_viewed numbers.entry) scales }
    ensures stage { InStage frame.old frame.new (kept_or result frame.old.stage stage.LfDequantised) }
    ensures x { x.new ≡ kept_or result x.old (lf_dequantised (viewed numbers.entry.x) scales.x (over shape x.old)) }
    ensures y { y.new ≡ kept_or result y.old (lf_dequantised (viewed numbers.entry.y) scales.y (over shape y.old)) }
    ensures b { b.new ≡ kept_or result b.old (lf_dequantised (viewed numbers.entry.b) scales.b (over shape b.old)) }
{
    let x = &mut Grid { list: x, shape };
    let y = &mut Grid { list: y, shape };
    let b = &mut Grid { list: b, shape };
    lf_dequantise(frame, x, y, b, numbers, scales)
}

/// LF smooth over three lists in grids of one shape.
pub fn smoothed_lists(
    frame: &mut Frame,
    x: &mut [f32],
    y: &mut [f32],
    b: &mut [f32],
    shape: Shape,
    steps: Xyb<f32>,
    scratch: &mut [f32],
) -> Result<u32, Refusal>
    ensures answer { result ≡ lf_smooth_answer frame.old.w8 frame.old.h8 frame.old.stage (all_over shape x.old y.old b.old) steps (length scratch.old) }
    ensures stage { InStage frame.old frame.new (kept_or result frame.old.stage stage.LfSmoothed) }
    ensures x { x.new ≡ kept_or result x.old (lf_smoothed frame.old.w8 frame.old.h8 (all_over shape x.old y.old b.old) steps (over shape x.old)) }
    ensures y { y.new ≡ kept_or result y.old (lf_smoothed frame.old.w8 frame.old.h8 (all_over shape x.old y.old b.old) steps (over shape y.old)) }
    ensures b { b.new ≡ kept_or result b.old (lf_smoothed frame.old.w8 frame.old.h8 (all_over shape x.old y.old b.old) steps (over shape b.old)) }
    ensures scratch { is_err result ≡ true → scratch.new ≡ scratch.old }
    ensures room { length scratch.new ≡ length scratch.old }
{
    let x = &mut Grid { list: x, shape };
    let y = &mut Grid { list: y, shape };
    let b = &mut Grid { list: b, shape };
    lf_smooth(frame, x, y, b, steps, scratch)
}
