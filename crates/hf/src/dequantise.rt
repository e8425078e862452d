//! HF dequantise.

ghost use Rattle.std.specs.Prelude.{◌≡◌};
ghost use Rattle.grid.specs.Became.{Became};
ghost use Rattle.grid.specs.Plane.{viewed, seen, lent};
ghost use Rattle.grid.specs.Channels.{planes};
ghost use Rattle.refusal.specs.Verdicts.{kept_or};
ghost use Rattle.frame.specs.declared.stages.Stage.TheVariants as stage;
ghost use Rattle.frame.specs.Stages.{InStage};
ghost use Rattle.weights.specs.Weights.{table, tables};
ghost use Rattle.hf_block.specs.Dequantised.{hf_dequantised, Writable};
ghost use Rattle.hf.specs.Answer.{hf_dequantise_answer, scales_x, scales_y, scales_b};

use crate::judge::judge;
use crate::quantiser::Quantiser;
use frame::{Frame, Stage};
use grid::{Grid, View, Xyb, views};
use hf_block::dequantise_channel;
use refusal::Refusal;
use varmap::{Cell, Map};
use weights::Weights;

/// Each sample of a varblock becomes its coefficient, dequantised; every other sample stays.
// a grid for each channel and no `Xyb` of them: of a list that lies in a struct of structs a host would know nothing afterwards
pub fn hf_dequantise(
    frame: &mut Frame,
    map: View<Cell>,
    x: &mut Grid<f32>,
    y: &mut Grid<f32>,
    b: &mut Grid<f32>,
    coefficients: Xyb<View<i32>>,
    weights: Xyb<Weights>,
    by: Quantiser,
) -> Result<u32, Refusal>
    ensures answer { result ≡ hf_dequantise_answer frame.old.w8 frame.old.h8 frame.old.stage (planes (lent x.old) (lent y.old) (lent b.old)) (viewed map.entry) (planes (viewed coefficients.entry.x) (viewed coefficients.entry.y) (viewed coefficients.entry.b)) (tables weights.entry) by }
    ensures stage { InStage frame.old frame.new (kept_or result frame.old.stage stage.HfDequantised) }
    ensures x { Became x.old x.new (kept_or result x.old.list.now (hf_dequantised (viewed map.entry) (viewed coefficients.entry.x) (table weights.entry.x) (scales_x by) (lent x.old))) }
    ensures y { Became y.old y.new (kept_or result y.old.list.now (hf_dequantised (viewed map.entry) (viewed coefficients.entry.y) (table weights.entry.y) (scales_y by) (lent y.old))) }
    ensures b { Became b.old b.new (kept_or result b.old.list.now (hf_dequantised (viewed map.entry) (viewed coefficients.entry.b) (table weights.entry.b) (scales_b by) (lent b.old))) }
{
    let map = judge(frame, views(x, y, b), map, coefficients, weights, by)?;
    write_channels(map, x, y, b, coefficients, weights, by);
    frame.lead_to(Stage::HfDequantised);
    Ok(0)
}

/// The samples of each channel.
fn write_channels(
    map: Map,
    x: &mut Grid<f32>,
    y: &mut Grid<f32>,
    b: &mut Grid<f32>,
    coefficients: Xyb<View<i32>>,
    weights: Xyb<Weights>,
    by: Quantiser,
)
    requires x { Writable map (viewed coefficients.x) (table weights.x) (scales_x by) (lent x.old) }
    requires y { Writable map (viewed coefficients.y) (table weights.y) (scales_y by) (lent y.old) }
    requires b { Writable map (viewed coefficients.b) (table weights.b) (scales_b by) (lent b.old) }
    ensures x { Became x.old x.new (hf_dequantised (seen map.entry.grid) (viewed coefficients.entry.x) (table weights.entry.x) (scales_x by) (lent x.old)) }
    ensures y { Became y.old y.new (hf_dequantised (seen map.entry.grid) (viewed coefficients.entry.y) (table weights.entry.y) (scales_y by) (lent y.old)) }
    ensures b { Became b.old b.new (hf_dequantised (seen map.entry.grid) (viewed coefficients.entry.b) (table weights.entry.b) (scales_b by) (lent b.old)) }
{
    let (numbers, scales) = (coefficients, by.all_scales());
    dequantise_channel(map, x, numbers.x, weights.x, scales.x);
    dequantise_channel(map, y, numbers.y, weights.y, scales.y);
    dequantise_channel(map, b, numbers.b, weights.b, scales.b);
}
