//! HF dequantise over lists that a host lends: what it knows of them afterwards.

ghost use Rattle.std.specs.Prelude.{◌≡◌};
ghost use Rattle.grid.specs.Plane.{viewed};
ghost use Rattle.refusal.specs.Verdicts.{kept_or};
ghost use Rattle.weights.specs.Weights.{table};
ghost use Rattle.hf_block.specs.Dequantised.{hf_dequantised};
ghost use Rattle.hf.specs.Answer.{scales_x, scales_y, scales_b};

use frame::Frame;
use grid::{Grid, Shape, View, Xyb};
use hf::{Quantiser, hf_dequantise};
use refusal::Refusal;
use varmap::Cell;
use weights::Weights;

/// HF dequantise over three lists in grids of one shape.
pub fn dequantised_lists(
    frame: &mut Frame,
    map: View<Cell>,
    x: &mut [f32],
    y: &mut [f32],
    b: &mut [f32],
    shape: Shape,
    coefficients: Xyb<View<i32>>,
    weights: Xyb<Weights>,
    by: Quantiser,
) -> Result<u32, Refusal>
    ensures x { x.new ≡ kept_or result x.old (hf_dequantised (viewed map.entry) (viewed coefficients.entry.x) (table weights.entry.x) (scales_x by) (record { shape = shape; list = x.old })) }
    ensures y { y.new ≡ kept_or result y.old (hf_dequantised (viewed map.entry) (viewed coefficients.entry.y) (table weights.entry.y) (scales_y by) (record { shape = shape; list = y.old })) }
    ensures b { b.new ≡ kept_or result b.old (hf_dequantised (viewed map.entry) (viewed coefficients.entry.b) (table weights.entry.b) (scales_b by) (record { shape = shape; list = b.old })) }
{
    let x = &mut Grid { list: x, shape };
    let y = &mut Grid { list: y, shape };
    let b = &mut Grid { list: b, shape };
    hf_dequantise(frame, map, x, y, b, coefficients, weights, by)
}
