//! What rebuild does to one varblock's samples.

ghost use Rattle.std.specs.Prelude.{◌≡◌, ◌+◌, ◌*◌, ◌≤◌, true, length, if◌then◌else◌, nat_lt};
ghost use Rattle.grid.specs.Index.{Inside};
ghost use Rattle.grid.specs.Drawn.{Drawn};
ghost use Rattle.grid.specs.Plane.{seen};
ghost use Rattle.blocks.specs.Areas.{area_of, corner_of};
ghost use Rattle.kernel.specs.Maps.{side, maps, imaged};
ghost use Rattle.kernel.specs.Corner.{log2 as exponent};
ghost use Rattle.rebuild.specs.Rebuilt.{Ready, lf_at, divided, rebuilding};

use blocks::{Block, Work};
use dct::scale_f;
use grid::{Brush, Canvas, Raster};
use kernel::{Kernel, forward_patch, inverse_patch};
use kinds::Size;

/// The exponent of a power of two up to 32.
#[tactic(auto, using(crate::proofs::Sides::exponent_of))]
fn log2(n: usize) -> usize
    requires { side n ≡ true }
    ensures value { result ≡ exponent n }
    ensures bound { result ≤ 5 }
{
    n.trailing_zeros() as usize
}

/// The LF samples of a varblock's cells, from its lead on.
#[derive(Clone, Copy)]
struct LfSamples<'a> {
    lf: Raster<'a, f32>,
    x: usize,
    y: usize,
}

impl<'a> Brush<f32> for LfSamples<'a> {
    ghost ready = { λ s i j. Inside s.lf.shape (s.x + i) (s.y + j) };

    ghost made = { λ s. lf_at (seen s.lf) s.x s.y };

    fn stroke(&self, i: usize, j: usize, _old: f32) -> f32 {
        self.lf.get(self.x + i, self.y + j)
    }
}

/// The division by the scales.
#[derive(Clone, Copy)]
struct Divided {
    size: Size,
}

impl Brush<f32> for Divided {
    ghost ready = { λ s _ _. (side s.size.width ≡ true) × (side s.size.height ≡ true) };

    ghost made = { λ s. divided s.size.width s.size.height };

    fn stroke(&self, i: usize, j: usize, old: f32) -> f32 {
        old / (scale_f(j, 5 - log2(self.size.height)) * scale_f(i, 5 - log2(self.size.width)))
    }
}

/// The kernel's forward map, over the corner of a varblock of more than one cell.
#[tactic(auto, using(crate::proofs::Sides::few_cells))]
fn forward_corner<K: Kernel>(
    kernel: &K,
    canvas: &mut Canvas<f32>,
    block: Block,
    scratch: &mut [f32],
)
    requires across { 8 * block.varblock.x + 8 * block.size.width ≤ canvas.old.shape.width }
    requires down { 8 * block.varblock.y + 8 * block.size.height ≤ canvas.old.shape.height }
    requires room { 512 ≤ length scratch.old }
    ensures { Drawn canvas.old canvas.new (if nat_lt 1 (block.size.width * block.size.height) then imaged canvas.old.shape (corner_of block) (K.Kernel.fwd block.size.width block.size.height) canvas.old.list.now else canvas.old.list.now) }
{
    if block.size.width * block.size.height > 1 {
        let shape = canvas.shape;
        forward_patch(kernel, canvas.list, shape, block.corner(), scratch);
    }
}

/// The kernel's inverse map, over a varblock's block.
fn inverse_block<K: Kernel>(kernel: &K, canvas: &mut Canvas<f32>, block: Block, scratch: &mut [f32])
    requires across { 8 * block.varblock.x + 8 * block.size.width ≤ canvas.old.shape.width }
    requires down { 8 * block.varblock.y + 8 * block.size.height ≤ canvas.old.shape.height }
    requires room { 512 ≤ length scratch.old }
    ensures { Drawn canvas.old canvas.new (imaged canvas.old.shape (area_of block) (K.Kernel.inv block.varblock.kind) canvas.old.list.now) }
{
    let shape = canvas.shape;
    let kind = block.varblock.kind;
    inverse_patch(kernel, kind, canvas.list, shape, block.area(), scratch);
}

/// rebuild in one channel.
#[derive(Drop)]
pub struct Rebuilding<'k, 'l, K> {
    pub kernel: &'k K,
    pub lf: Raster<'l, f32>,
}

impl<'k, 'l, K: Kernel> Work for Rebuilding<'k, 'l, K> {
    ghost ready = { λ s room v. Ready (seen s.lf) room v };

    ghost made = { λ s. rebuilding (maps K.Kernel.fwd K.Kernel.inv) (seen s.lf) };

    fn work(&self, canvas: &mut Canvas<'_, f32>, block: Block, scratch: &mut [f32]) {
        let corner = block.corner();
        let lf = LfSamples {
            lf: self.lf,
            x: block.varblock.x,
            y: block.varblock.y,
        };
        canvas.paint(corner, &lf);
        forward_corner(self.kernel, canvas, block, scratch);
        canvas.paint(corner, &Divided { size: block.size });
        inverse_block(self.kernel, canvas, block, scratch);
    }
}
