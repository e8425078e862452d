//! The weights that a host lends: for each channel a list, and where in it the weights of each kind start.

#![tactic(auto)]

ghost use Rattle.std.specs.Prelude.{◌≡◌, ◌+◌, ◌*◌, ◌<◌, ◌≤◌, length};
ghost use Rattle.kinds.specs.Kinds.{wide, high};
ghost use Rattle.weights.specs.Weights.{table, start, weights_of};
ghost use Rattle.weights.specs.Kinds.{IsByKind};

mod by_kind;
mod finite;
mod placed;

use blocks::Block;
pub use by_kind::ByKind;
use by_kind::samples;
pub use finite::check_finite;
pub use placed::check_placed;

/// The weights of a channel. `starts` has one number for each kind from 0 to 26; 4,294,967,295 where the kind has none.
#[derive(Clone, Copy)]
pub struct Weights<'a> {
    pub list: &'a [f32],
    pub starts: &'a [u32],
}

impl<'a> Weights<'a> {
    /// The same, if there is a start for each kind number.
    pub fn by_kind(self) -> Option<ByKind<'a>>
        ensures { IsByKind (table self.entry) result }
    {
        let Weights { list, starts } = self;
        if starts.len() == 27 {
            Some(ByKind { list, starts })
        } else {
            None
        }
    }

    /// The weights of a block, row by row, from its kind's start on.
    // beside `ByKind::of_block`: a caller that knows of its block's weights alone needs no start for any other kind
    pub fn from_start(self, block: Block) -> &'a [f32]
        requires kind { block.varblock.kind < length self.starts.now }
        requires long { start (table self) block.varblock.kind + 64 * (wide block.varblock.kind * high block.varblock.kind) ≤ length self.list.now }
        ensures { result.now ≡ weights_of (table self.entry) block.varblock.kind }
    {
        let start = self.starts[block.varblock.kind as usize] as usize;
        let n = samples(block);
        &self.list[start..start + n]
    }
}
