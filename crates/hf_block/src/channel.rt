//! All varblocks of a channel.

ghost use Rattle.grid.specs.Became.{Became};
ghost use Rattle.grid.specs.Plane.{viewed, seen, lent};
ghost use Rattle.weights.specs.Weights.{table};
ghost use Rattle.hf_block.specs.Dequantised.{hf_dequantised, Writable};

use crate::work::{Dequantise, Scales};
use blocks::each_block;
use grid::{Grid, View};
use varmap::Map;
use weights::Weights;

/// Each sample of a varblock becomes its coefficient, dequantised; every other sample stays.
// the coefficients and the weights as they are lent: where the map has no varblock, nothing is asked of them
pub fn dequantise_channel(
    map: Map,
    out: &mut Grid<f32>,
    coefficients: View<i32>,
    weights: Weights,
    scales: Scales,
)
    requires { Writable map (viewed coefficients) (table weights) scales (lent out.old) }
    ensures { Became out.old out.new (hf_dequantised (seen map.entry.grid) (viewed coefficients.entry) (table weights.entry) scales (lent out.old)) }
{
    let work = Dequantise {
        coefficients,
        weights,
        scales,
    };
    let shape = out.shape;
    let _ = each_block(map, out.list, shape, &work, &mut []);
}
