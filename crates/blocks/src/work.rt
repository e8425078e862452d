//! The walk over the varblocks of a map.

ghost use Rattle.std.specs.Prelude.{◌≡◌, ℕ, ◌+◌, ◌*◌, ◌≤◌, length, Float};
ghost use Rattle.grid.specs.Index.{Lawful};
ghost use Rattle.grid.specs.Drawn.{Drawn};
ghost use Rattle.blocks.specs.declared.leads.Varblock.{Varblock};
ghost use Rattle.blocks.specs.Leads.{OfMap};
ghost use Rattle.blocks.specs.Blocks.{one_block, by_blocks};
ghost use Rattle.blocks.specs.Walk.{records, leads_of};

use crate::block::Block;
use crate::walk::varblocks;
use grid::{Canvas, Shape};
use varmap::Map;

/// What is done to one varblock's samples, its block.
pub trait Work {
    /// when it may be asked, with so many numbers of scratch
    ghost ready: { Self → ℕ → Varblock → Type 0 };

    /// the sample (i, j) of the block, from all of the block's samples
    ghost made: { Self → Varblock → (ℕ → ℕ → Float) → ℕ → ℕ → Float };

    fn work(&self, canvas: &mut Canvas<'_, f32>, block: Block, scratch: &mut [f32])
        requires across { 8 * block.varblock.x + 8 * block.size.width ≤ canvas.old.shape.width }
        requires down { 8 * block.varblock.y + 8 * block.size.height ≤ canvas.old.shape.height }
        requires can { ready self.now (length scratch.old) block.varblock }
        ensures { Drawn canvas.old canvas.new (one_block canvas.old.shape (made self.now) block.varblock canvas.old.list.now) };
}

/// Does the work on each varblock of a map, in row order of their leads, and counts them.
// list and shape: the border, where the canvas is made
pub fn each_block<W: Work>(
    map: Map<'_>,
    list: &mut [f32],
    shape: Shape,
    work: &W,
    scratch: &mut [f32],
) -> usize
    requires samples { Lawful shape (length list.old) }
    requires width { shape.width ≡ 8 * map.grid.shape.width }
    requires height { shape.height ≡ 8 * map.grid.shape.height }
    requires can { (v : Varblock) → OfMap map.grid.shape.width map.grid.shape.height (records map) v → W.Work.ready work.now (length scratch.old) v }
    ensures samples { list.new ≡ by_blocks shape (records map.entry) (W.Work.made work.now) list.old }
    ensures count { result ≡ length (leads_of map.entry) }
{
    let canvas = &mut Canvas { list, shape };
    work_on_each(map, canvas, work, scratch)
}

/// The same, on a grid that is known to be lawful.
fn work_on_each<W: Work>(
    map: Map<'_>,
    canvas: &mut Canvas<'_, f32>,
    work: &W,
    scratch: &mut [f32],
) -> usize
    requires width { canvas.old.shape.width ≡ 8 * map.grid.shape.width }
    requires height { canvas.old.shape.height ≡ 8 * map.grid.shape.height }
    requires can { (v : Varblock) → OfMap map.grid.shape.width map.grid.shape.height (records map) v → W.Work.ready work.now (length scratch.old) v }
    ensures samples { Drawn canvas.old canvas.new (by_blocks canvas.old.shape (records map.entry) (W.Work.made work.now) canvas.old.list.now) }
    ensures count { result ≡ length (leads_of map.entry) }
{
    let mut count = 0;
    for block in varblocks(map) {
        work.work(canvas, block, scratch);
        // counted beside the walk: the number is the answer
        count += 1;
    }
    count
}
