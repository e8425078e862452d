//! What HF dequantise refuses.

ghost use Rattle.std.specs.Prelude.{◌≡◌, Ok, Err, true, false, MatchOption, MatchResult};
ghost use Rattle.grid.specs.Channels.{all_seen};
ghost use Rattle.channels.specs.Checked.{all_numbers};
ghost use Rattle.blocks.specs.Walk.{records};
ghost use Rattle.weights.specs.Weights.{tables};
ghost use Rattle.weights.specs.Kinds.{all_by_kind};
ghost use Rattle.hf.specs.Answer.{hf_dequantise_turn, starts_full, scale_ok, numbers_judged, qm_ok, floats_ok, floats_judged, weights_judged};

use crate::quantiser::Quantiser;
use channels::{Numbers, check_channels};
use frame::Stage;
use grid::{Raster, Xyb};
use refusal::{Reason, Refusal, require};
use varmap::Map;
use weights::{ByKind, Weights, check_finite, check_placed};

/// Whether HF dequantise is accepted in this stage.
pub fn is_turn(stage: Stage) -> bool
    ensures { result ≡ hf_dequantise_turn stage }
{
    matches!(
        stage,
        Stage::LfDequantised | Stage::LfCorrelated | Stage::LfSmoothed
    )
}

/// The weights of the channels by kind, if each channel has a start for each kind number.
pub fn by_kind<'w>(weights: Xyb<Weights<'w>>) -> Option<Xyb<ByKind<'w>>>
    ensures { MatchOption result (starts_full (tables weights.entry) ≡ false) (λ w. (starts_full (tables weights.entry) ≡ true) × (all_by_kind w ≡ tables weights.entry)) }
{
    Some(Xyb {
        x: weights.x.by_kind()?,
        y: weights.y.by_kind()?,
        b: weights.b.by_kind()?,
    })
}

// a range of its own: the two bounds are the rule
fn is_scale(global_scale: u32) -> bool
    ensures { result ≡ scale_ok global_scale }
{
    (1 <= global_scale) & (global_scale <= 73_728)
}

/// The row RANGE.
pub fn judge_range<'c>(
    coefficients: Xyb<Raster<'c, i32>>,
    global_scale: u32,
) -> Result<Xyb<Numbers<'c>>, Refusal>
    ensures { MatchResult result (λ n. (numbers_judged (all_seen coefficients.entry) global_scale ≡ Ok tt) × (all_numbers n ≡ all_seen coefficients.entry)) (λ e. numbers_judged (all_seen coefficients.entry) global_scale ≡ Err e) }
{
    require(is_scale(global_scale), Reason::Range)?;
    check_channels(coefficients)
}

fn is_qm_scale(scale: f32) -> bool
    ensures { result ≡ qm_ok scale }
{
    (scale > 0.0) & (scale <= 16.0)
}

fn floats_are_in_range(by: Quantiser) -> bool
    ensures { result ≡ floats_ok by }
{
    by.qm_scale.all(is_qm_scale)
        & by.quant_bias.all(|bias| bias.is_finite())
        & by.quant_bias_numerator.is_finite()
}

/// The row FLOAT.
pub fn judge_floats(weights: Xyb<ByKind>, by: Quantiser) -> Result<(), Refusal>
    ensures { result ≡ floats_judged (all_by_kind weights.entry) by }
{
    require(floats_are_in_range(by), Reason::Float)?;
    check_finite(0, weights.x.list)?;
    check_finite(1, weights.y.list)?;
    check_finite(2, weights.b.list)
}

/// The row WEIGHT.
pub fn judge_weights(map: Map, weights: Xyb<ByKind>) -> Result<(), Refusal>
    ensures { result ≡ weights_judged map.entry.grid.shape.width map.entry.grid.shape.height (records map.entry) (all_by_kind weights.entry) }
{
    check_placed(map, 0, weights.x)?;
    check_placed(map, 1, weights.y)?;
    check_placed(map, 2, weights.b)
}
