//! What HF dequantise does to one varblock's samples.

ghost use Rattle.std.specs.Prelude.{◌+◌, ◌*◌, ◌<◌, length};
ghost use Rattle.grid.specs.Index.{Inside};
ghost use Rattle.grid.specs.Plane.{viewed, seen};
ghost use Rattle.weights.specs.Weights.{table};
ghost use Rattle.hf_block.specs.Dequantised.{sample_at, dequantising, Ready};

use crate::sample::{multiplier, unbias};
use blocks::{Block, Work};
use channels::Numbers;
use grid::{Area, Brush, Canvas, Raster, View};
use weights::Weights;

/// The numbers that go with a channel.
#[derive(Clone, Copy)]
pub struct Scales {
    pub global_scale: u32,
    pub qm_scale: f32,
    pub quant_bias: f32,
    pub quant_bias_numerator: f32,
}

/// Makes the samples of a block from its coefficients and its weights, which follow each other row by row.
#[derive(Clone, Copy)]
struct Samples<'c, 'w> {
    coefficients: Numbers<'c>,
    weights: &'w [f32],
    area: Area,
    scales: Scales,
    mul: f32,
}

impl<'c, 'w> Brush<f32> for Samples<'c, 'w> {
    ghost ready = { λ s i j. Inside s.coefficients.grid.shape (s.area.x + i) (s.area.y + j) × (j * s.area.width + i < length s.weights.now) };

    ghost made = { λ s. sample_at (seen s.coefficients.grid) s.weights.now s.area s.scales s.mul };

    fn stroke(&self, i: usize, j: usize, _old: f32) -> f32 {
        let Scales {
            quant_bias,
            quant_bias_numerator,
            ..
        } = self.scales;
        let coefficient = self.coefficients.get(self.area.x + i, self.area.y + j);
        let weight = self.weights[j * self.area.width + i];
        unbias(coefficient, quant_bias, quant_bias_numerator) * weight * self.mul
    }
}

/// HF dequantise in one channel.
#[derive(Clone, Copy)]
pub struct Dequantise<'c, 'w> {
    pub coefficients: View<'c, i32>,
    pub weights: Weights<'w>,
    pub scales: Scales,
}

impl<'c, 'w> Work for Dequantise<'c, 'w> {
    ghost ready = { λ s room v. Ready (viewed s.coefficients) (table s.weights) s.scales v };

    ghost made = { λ s. dequantising (viewed s.coefficients) (table s.weights) s.scales };

    fn work(&self, canvas: &mut Canvas<'_, f32>, block: Block, _scratch: &mut [f32]) {
        let View { list, shape } = self.coefficients;
        let grid = Raster { list, shape };
        let scales = self.scales;
        let area = block.area();
        let brush = Samples {
            coefficients: Numbers { grid },
            weights: self.weights.from_start(block),
            area,
            scales,
            mul: multiplier(scales.global_scale, block.varblock.hf_mul, scales.qm_scale),
        };
        canvas.paint(area, &brush);
    }
}
