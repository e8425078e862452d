//! What HF dequantise answers, and the map of an accepted call.

ghost use Rattle.std.specs.Prelude.{◌≡◌};
ghost use Rattle.grid.specs.Plane.{viewed, seen};
ghost use Rattle.grid.specs.Channels.{all_viewed, all_seen};
ghost use Rattle.weights.specs.Weights.{tables};
ghost use Rattle.weights.specs.Kinds.{all_by_kind};
ghost use Rattle.channels.specs.Checked.{Judged};
ghost use Rattle.hf.specs.Answer.{values_judged, hf_dequantise_answer};

use crate::checks::{by_kind, is_turn, judge_floats, judge_range, judge_weights};
use crate::quantiser::Quantiser;
use frame::Frame;
use grid::{Raster, View, Xyb};
use refusal::{Reason, Refusal, require};
use varmap::{Cell, Map};
use weights::{ByKind, Weights};

/// The map of the call, if it is accepted.
// the map alone comes back as a type: each channel asks of its coefficients and weights only what its varblocks need
pub fn judge<'m>(
    frame: &Frame,
    samples: Xyb<View<'_, f32>>,
    map: View<'m, Cell>,
    coefficients: Xyb<View<'_, i32>>,
    weights: Xyb<Weights<'_>>,
    by: Quantiser,
) -> Result<Map<'m>, Refusal>
    ensures { Judged (hf_dequantise_answer frame.now.w8 frame.now.h8 frame.now.stage (all_viewed samples.entry) (viewed map.entry) (all_viewed coefficients.entry) (tables weights.entry) by) (λ m. seen m.grid ≡ viewed map.entry) result }
{
    let (w8, h8) = (frame.w8(), frame.h8());
    require(is_turn(frame.stage()), Reason::Turn)?;
    require(samples.fit(8 * w8, 8 * h8), Reason::Shape)?;
    let map = map.sized(w8, h8).ok_or(Reason::Shape)?;
    let coefficients = coefficients.sized(8 * w8, 8 * h8).ok_or(Reason::Shape)?;
    let weights = by_kind(weights).ok_or(Reason::Shape)?;
    judge_values(map, coefficients, weights, by)
}

/// The same, where stage and shapes are the call's.
fn judge_values<'m>(
    map: Raster<'m, Cell>,
    coefficients: Xyb<Raster<'_, i32>>,
    weights: Xyb<ByKind<'_>>,
    by: Quantiser,
) -> Result<Map<'m>, Refusal>
    ensures { Judged (values_judged (seen map.entry) (all_seen coefficients.entry) (all_by_kind weights.entry) by) (λ m. seen m.grid ≡ seen map.entry) result }
{
    let map = Map::checked(map)?;
    judge_range(coefficients, by.global_scale)?;
    judge_floats(weights, by)?;
    judge_weights(map, weights)?;
    Ok(map)
}
