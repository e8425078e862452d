//! A cell's 64 numbers, read from a grid and written over it.

ghost use Rattle.std.specs.Prelude.{◌≡◌, ℕ, ◌<◌};
ghost use Rattle.grid.specs.Drawn.{Drawn};
ghost use Rattle.grid.specs.Index.{index};
ghost use Rattle.grid.specs.Window.{elements};
ghost use Rattle.dct.specs.Transform.{at};
ghost use Rattle.dct_2d.specs.Replaced.{poured};
ghost use Rattle.cells.specs.Cells.{cell};
ghost use Rattle.cells.specs.Stored.{stored};

use grid::{Brush, Canvas, Raster};

/// The row y of a grid of eight columns.
fn row_at(raster: Raster<f32>, y: usize) -> [f32; 8]
    requires across { raster.shape.width ≡ 8 }
    requires down { y < raster.shape.height }
    ensures { (x : ℕ) → x < 8 → at result x ≡ at raster.entry.list.now (index raster.entry.shape x y) }
{
    std::array::from_fn(|x| raster.get(x, y))
}

/// The numbers of a grid of 8 × 8.
// row by row: made by one `from_fn` a sample of kind 0 takes 4.4 ns through the kernel, and 3.7 ns so
pub fn load(raster: Raster<f32>) -> [f32; 64]
    requires wide { raster.shape.width ≡ 8 }
    requires high { raster.shape.height ≡ 8 }
    ensures { cell result ≡ elements raster.entry.shape raster.entry.list.now }
{
    let mut block = [0.0; 64];
    for y in 0..8 {
        block[y * 8..y * 8 + 8].copy_from_slice(&row_at(raster, y));
    }
    block
}

/// Paints 64 numbers.
#[derive(Clone, Copy)]
struct Stored {
    block: [f32; 64],
}

impl Brush<f32> for Stored {
    ghost ready = { λ _ i j. (i < 8) × (j < 8) };

    ghost made = { λ s. stored s.block };

    fn stroke(&self, i: usize, j: usize, _old: f32) -> f32 {
        self.block[j * 8 + i]
    }
}

/// Writes 64 numbers over a grid of 8 × 8.
pub fn store(block: &[f32; 64], canvas: &mut Canvas<f32>)
    requires wide { canvas.old.shape.width ≡ 8 }
    requires high { canvas.old.shape.height ≡ 8 }
    ensures { Drawn canvas.old canvas.new (poured (cell block.now) canvas.old.shape canvas.old.list.now) }
{
    canvas.paint_all(&Stored { block: *block });
}
