//! HF dequantise in one channel, of one varblock of 8 × 8 samples.

ghost use Rattle.std.specs.Prelude.{◌≡◌, ◌≤◌, length, [], ◌∷◌};
ghost use Rattle.varmap.specs.declared.cells.Record.TheVariants.{Lead};
ghost use Rattle.varmap.specs.Cells.{cell};

use channels::Numbers;
use grid::{Grid, Shape, View};
use hf_block::{Scales, dequantise_channel};
use refusal::{Reason, Refusal};
use std::test::Fail;
use varmap::{Cell, Map, Record};
use weights::Weights;

const SCALES: Scales = Scales {
    global_scale: 65_536,
    qm_scale: 1.0,
    quant_bias: 0.5,
    quant_bias_numerator: 0.5,
};

/// The samples of a map's one varblock, of kind 0, by weights that have a start for kind 0 alone.
fn samples(
    cells: &[Cell; 1],
    coefficients: &[i32; 64],
    weights: Weights,
) -> Result<[f32; 64], Refusal>
    requires cells { cells.now ≡ cell (Lead 0 1) ∷ [] }
    requires starts { weights.starts.now ≡ 0 ∷ [] }
    requires weights { 64 ≤ length weights.list.now }
{
    let cell = View {
        list: cells,
        shape: Shape::dense(1, 1),
    };
    let raster = cell.sized(1, 1).ok_or(Reason::Shape)?;
    let map = Map::checked(raster)?;
    let shape = Shape::dense(8, 8);
    let tile = View {
        list: coefficients,
        shape,
    };
    let grid = tile.sized(8, 8).ok_or(Reason::Shape)?;
    let numbers = Numbers::checked(0, grid)?;
    let mut samples = [9.0; 64];
    let mut out = Grid {
        list: &mut samples,
        shape,
    };
    dequantise_channel(map, &mut out, tile, weights, SCALES);
    Ok(samples)
}

#[test]
fn one_start(rt: HostRuntime) -> Result<(), Fail> {
    let cells = [Cell {
        holds: Record::Lead { kind: 0, hf_mul: 1 },
    }];
    let mut coefficients = [0; 64];
    coefficients[1] = 1;
    coefficients[2] = 2;
    coefficients[3] = -2;
    let weights = Weights {
        list: &[2.0; 64],
        starts: &[0],
    };
    let mut expected = [0.0; 64];
    expected[1] = 1.0;
    expected[2] = 3.5;
    expected[3] = -3.5;
    assert!(rt; samples(&cells, &coefficients, weights)? == expected);
    Ok(())
}
