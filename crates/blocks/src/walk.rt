//! The walk over the varblocks of a lawful map, from lead to lead.

ghost use Rattle.std.specs.Prelude.{◌≡◌, ◌+◌};
ghost use Rattle.std.specs.Iterator.{YieldsFirstBy, item_count};
ghost use Rattle.grid.specs.Index.{Inside};
ghost use Rattle.blocks.specs.Leads.{number};
ghost use Rattle.blocks.specs.declared.block.Block.{Block};
ghost use Rattle.blocks.specs.Walk.{rest, leads_of};

use crate::block::Block;
use crate::leads::{Varblock, next_lead};
use grid::Raster;
use kinds::kind_size;
use varmap::{Cell, Map};

/// The number of the cell after a varblock's lead.
fn number_after(map: Raster<'_, Cell>, varblock: Varblock) -> usize
    requires { Inside map.shape varblock.x varblock.y }
    ensures { result ≡ number map.entry.shape.width varblock + 1 }
{
    varblock.next_cell(map.shape.width)
}

/// The varblocks of a map in row order of their leads, but for those whose lead comes before the cell with the number `from`.
#[derive(Drop)]
pub struct Walk<'a> {
    map: Map<'a>,
    from: usize,
}

/// The varblocks of a map, in row order of their leads.
#[tactic(auto, using(crate::proofs::Counting::rest_all))]
pub fn varblocks(map: Map<'_>) -> Walk<'_>
    ensures { rest result ≡ leads_of map.entry }
{
    Walk { map, from: 0 }
}

impl<'a> Iterator for Walk<'a> {
    type Item = Block;

    ghost next_gives = { YieldsFirstBy (λ (b : Block). b.varblock) rest };

    ghost remaining = { item_count rest };

    fn next(&mut self) -> Option<Block> {
        let grid = self.map.grid;
        let varblock = next_lead(grid, self.from)?;
        self.from = number_after(grid, varblock);
        let size = kind_size(varblock.kind).unwrap();
        Some(Block { varblock, size })
    }
}
