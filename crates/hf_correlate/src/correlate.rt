//! HF correlate.

ghost use Rattle.std.specs.Prelude.{◌≡◌, ◌*◌};
ghost use Rattle.grid.specs.Became.{Became};
ghost use Rattle.grid.specs.Plane.{lent, viewed, seen};
ghost use Rattle.grid.specs.Channels.{planes};
ghost use Rattle.refusal.specs.Verdicts.{kept_or};
ghost use Rattle.frame.specs.declared.stages.Stage.TheVariants as stage;
ghost use Rattle.frame.specs.Stages.{InStage};
ghost use Rattle.channels.specs.Checked.{Judged};
ghost use Rattle.hf_correlate.specs.Correlated.{hf_correlated};
ghost use Rattle.hf_correlate.specs.Answer.{hf_correlate_turn, hf_correlate_answer, numbers_judged};
ghost use Rattle.hf_correlate.specs.Gains.{IsGains};

use crate::gains::{Gains, correlate_channel};
use crate::tiles::tiles_over;
use channels::{ColourFactor, Correlation, Numbers};
use frame::{Frame, Stage};
use grid::{Grid, Raster, View};
use refusal::{Reason, Refusal, require};

/// Y, and how much of it the samples of X and of B gain.
#[derive(Clone, Copy)]
struct Correlating<'y, 'x, 'b> {
    luma: Raster<'y, f32>,
    x: Gains<'x>,
    b: Gains<'b>,
}

/// Each sample of X and of B gains a part of Y's, by the number of its tile in `x_from_y` and in `b_from_y`.
// kept as three parameters, not one `Xyb`: Y is only read, which its type shows (a rule of docs/DECISIONS.md)
pub fn hf_correlate(
    frame: &mut Frame,
    x: &mut Grid<f32>,
    y: View<f32>,
    b: &mut Grid<f32>,
    x_from_y: View<i32>,
    b_from_y: View<i32>,
    by: Correlation,
) -> Result<u32, Refusal>
    ensures answer { result ≡ hf_correlate_answer frame.old.w8 frame.old.h8 frame.old.stage (planes (lent x.old) (viewed y.entry) (lent b.old)) (viewed x_from_y.entry) (viewed b_from_y.entry) by }
    ensures stage { InStage frame.old frame.new (kept_or result frame.old.stage stage.HfCorrelated) }
    ensures x { Became x.old x.new (kept_or result x.old.list.now (hf_correlated (viewed y.entry) (viewed x_from_y.entry) by.base_correlation_x by.colour_factor (lent x.old))) }
    ensures b { Became b.old b.new (kept_or result b.old.list.now (hf_correlated (viewed y.entry) (viewed b_from_y.entry) by.base_correlation_b by.colour_factor (lent b.old))) }
{
    let to = judge(frame, x.view(), y, b.view(), x_from_y, b_from_y, by)?;
    correlate_channel(x, to.luma, to.x);
    correlate_channel(b, to.luma, to.b);
    frame.lead_to(Stage::HfCorrelated);
    Ok(0)
}

/// What HF correlate goes on with, unless it is refused.
fn judge<'y, 'x, 'b>(
    frame: &Frame,
    x: View<'_, f32>,
    y: View<'y, f32>,
    b: View<'_, f32>,
    x_from_y: View<'x, i32>,
    b_from_y: View<'b, i32>,
    by: Correlation,
) -> Result<Correlating<'y, 'x, 'b>, Refusal>
    ensures { Judged (hf_correlate_answer frame.now.w8 frame.now.h8 frame.now.stage (planes (viewed x.entry) (viewed y.entry) (viewed b.entry)) (viewed x_from_y.entry) (viewed b_from_y.entry) by) (λ r. (seen r.luma ≡ viewed y.entry) × IsGains r.x (viewed x_from_y.entry) by.base_correlation_x by.colour_factor × IsGains r.b (viewed b_from_y.entry) by.base_correlation_b by.colour_factor) result }
{
    let (w8, h8) = (frame.w8(), frame.h8());
    require(is_turn(frame.stage()), Reason::Turn)?;
    require(
        x.fits(8 * w8, 8 * h8) & b.fits(8 * w8, 8 * h8),
        Reason::Shape,
    )?;
    let luma = y.sized(8 * w8, 8 * h8).ok_or(Reason::Shape)?;
    let (tw, th) = (tiles_over(w8), tiles_over(h8));
    let x_tiles = x_from_y.sized(tw, th).ok_or(Reason::Shape)?;
    let b_tiles = b_from_y.sized(tw, th).ok_or(Reason::Shape)?;
    let (x, b) = judge_numbers(x_tiles, b_tiles, by)?;
    Ok(Correlating { luma, x, b })
}

/// Whether HF correlate is accepted in this stage.
fn is_turn(stage: Stage) -> bool
    ensures { result ≡ hf_correlate_turn stage }
{
    matches!(stage, Stage::HfDequantised)
}

/// How much the samples of X and of B gain by these tiles, unless a number is out of range.
fn judge_numbers<'x, 'b>(
    x_tiles: Raster<'x, i32>,
    b_tiles: Raster<'b, i32>,
    by: Correlation,
) -> Result<(Gains<'x>, Gains<'b>), Refusal>
    ensures { Judged (numbers_judged (seen x_tiles.entry) (seen b_tiles.entry) by) (λ r. IsGains r.0 (seen x_tiles.entry) by.base_correlation_x by.colour_factor × IsGains r.1 (seen b_tiles.entry) by.base_correlation_b by.colour_factor) result }
{
    let colour = ColourFactor::checked(by.colour_factor)?;
    let x_numbers = Numbers::checked(0, x_tiles)?;
    let b_numbers = Numbers::checked(2, b_tiles)?;
    require(by.bases_are_finite(), Reason::Float)?;
    let x = Gains {
        tiles: x_numbers,
        base: by.base_correlation_x,
        colour,
    };
    let b = Gains {
        tiles: b_numbers,
        base: by.base_correlation_b,
        colour,
    };
    Ok((x, b))
}
