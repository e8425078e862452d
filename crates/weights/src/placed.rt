//! Whether the kinds that are placed have their weights.

ghost use Rattle.std.specs.Prelude.{◌≡◌};
ghost use Rattle.blocks.specs.Walk.{records};
ghost use Rattle.weights.specs.Weights.{placed_weighed};
ghost use Rattle.weights.specs.Kinds.{by_kind};

use crate::ByKind;
use blocks::varblocks;
use refusal::{Reason, Refusal};
use varmap::Map;

/// Refuses the first lead of a map whose kind has no weights in the channel, or too few.
// the channel is a number, as a host reads it in a refusal
pub fn check_placed(map: Map, channel: usize, weights: ByKind) -> Result<(), Refusal>
    ensures { result ≡ placed_weighed map.entry.grid.shape.width map.entry.grid.shape.height (records map.entry) channel (by_kind weights.entry) }
{
    for block in varblocks(map) {
        if weights.of_block(block).is_none() {
            let varblock = block.varblock;
            return Err(Refusal::at(Reason::Weight, channel, varblock.x, varblock.y));
        }
    }
    Ok(())
}
