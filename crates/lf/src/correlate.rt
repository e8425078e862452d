//! LF correlate.

ghost use Rattle.std.specs.Prelude.{◌≡◌};
ghost use Rattle.grid.specs.Became.{Became};
ghost use Rattle.grid.specs.Plane.{lent, viewed, seen};
ghost use Rattle.grid.specs.Channels.{planes};
ghost use Rattle.refusal.specs.Verdicts.{kept_or};
ghost use Rattle.frame.specs.declared.stages.Stage.TheVariants as stage;
ghost use Rattle.frame.specs.Stages.{InStage};
ghost use Rattle.channels.specs.Checked.{Judged};
ghost use Rattle.lf.specs.Correlate.{common, lf_correlate_turn, numbers_judged, lf_correlate_answer, gain as gain_of, gain_x, gain_b, lf_correlated};

use channels::{ColourFactor, Gained, gain};
use frame::{Frame, Stage};
use grid::{Grid, Raster, View};
use refusal::{Reason, Refusal, require};

/// How X and B go with Y.
// kept flat beside `channels::Correlation`, whose three fields it begins with: nested, each literal of a host names two structs
#[derive(Clone, Copy)]
pub struct Correlation {
    pub colour_factor: u32,
    pub base_correlation_x: f32,
    pub base_correlation_b: f32,
    pub x_factor_lf: u32,
    pub b_factor_lf: u32,
}

/// How much of Y the LF samples of X and of B gain.
#[derive(Clone, Copy)]
struct Gains {
    x: f32,
    b: f32,
}

/// Each LF sample of X and of B gains its channel's multiple of Y's.
// kept as three parameters, not one `Xyb`: Y is only read, which its type shows (a rule of docs/DECISIONS.md)
pub fn lf_correlate(
    frame: &mut Frame,
    x: &mut Grid<f32>,
    y: View<f32>,
    b: &mut Grid<f32>,
    by: Correlation,
) -> Result<u32, Refusal>
    ensures answer { result ≡ lf_correlate_answer frame.old.w8 frame.old.h8 frame.old.stage (planes (lent x.old) (viewed y.entry) (lent b.old)) by }
    ensures stage { InStage frame.old frame.new (kept_or result frame.old.stage stage.LfCorrelated) }
    ensures x { Became x.old x.new (kept_or result x.old.list.now (lf_correlated (gain_x by) (viewed y.entry) (lent x.old))) }
    ensures b { Became b.old b.new (kept_or result b.old.list.now (lf_correlated (gain_b by) (viewed y.entry) (lent b.old))) }
{
    let (luma, gains) = judge(frame, x.view(), y, b.view(), by)?;
    x.paint_all(&Gained {
        luma,
        left: 0,
        top: 0,
        k: gains.x,
    });
    b.paint_all(&Gained {
        luma,
        left: 0,
        top: 0,
        k: gains.b,
    });
    frame.lead_to(Stage::LfCorrelated);
    Ok(0)
}

/// Y, and how much of it X and B gain, unless LF correlate is refused.
fn judge<'y>(
    frame: &Frame,
    x: View<'_, f32>,
    y: View<'y, f32>,
    b: View<'_, f32>,
    by: Correlation,
) -> Result<(Raster<'y, f32>, Gains), Refusal>
    ensures { Judged (lf_correlate_answer frame.now.w8 frame.now.h8 frame.now.stage (planes (viewed x.entry) (viewed y.entry) (viewed b.entry)) by) (λ r. (seen r.0 ≡ viewed y.entry) × (r.1.x ≡ gain_x by) × (r.1.b ≡ gain_b by)) result }
{
    let (w8, h8) = (frame.w8(), frame.h8());
    require(is_turn(frame.stage()), Reason::Turn)?;
    require(x.fits(w8, h8) & b.fits(w8, h8), Reason::Shape)?;
    let luma = y.sized(w8, h8).ok_or(Reason::Shape)?;
    let gains = by.gains()?;
    Ok((luma, gains))
}

/// Whether LF correlate is accepted in this stage.
fn is_turn(stage: Stage) -> bool
    ensures { result ≡ lf_correlate_turn stage }
{
    matches!(stage, Stage::LfDequantised)
}

impl Correlation {
    /// How much of Y the LF samples gain, unless a number is out of range.
    fn gains(self) -> Result<Gains, Refusal>
        ensures { Judged (numbers_judged self) (λ g. (g.x ≡ gain_x self) × (g.b ≡ gain_b self)) result }
    {
        let colour = ColourFactor::checked(self.colour_factor)?;
        let x_factor = u8::try_from(self.x_factor_lf).map_err(|_| Reason::Range)?;
        let b_factor = u8::try_from(self.b_factor_lf).map_err(|_| Reason::Range)?;
        require(self.common().bases_are_finite(), Reason::Float)?;
        Ok(Gains {
            x: lf_gain(self.base_correlation_x, x_factor, colour),
            b: lf_gain(self.base_correlation_b, b_factor, colour),
        })
    }

    /// What HF correlate is given too.
    fn common(self) -> channels::Correlation
        ensures { result ≡ common self }
    {
        channels::Correlation {
            colour_factor: self.colour_factor,
            base_correlation_x: self.base_correlation_x,
            base_correlation_b: self.base_correlation_b,
        }
    }
}

/// How much of Y the LF samples of a channel gain by its factor.
fn lf_gain(base: f32, factor: u8, colour: ColourFactor) -> f32
    ensures { result ≡ gain_of base factor colour.value }
{
    gain(base, i32::from(factor) - 128, colour)
}
