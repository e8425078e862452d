//! The weights of each kind.

ghost use Rattle.std.specs.Prelude.{◌≡◌, ◌+◌, ◌*◌, ◌^◌, ◌<◌, ◌≤◌, true, false, length, MatchOption, nat_le, slice_range};
ghost use Rattle.kinds.specs.Kinds.{wide, high};
ghost use Rattle.weights.specs.Weights.{start_of, weighs, weights_of};

use blocks::Block;

/// Where a kind without weights starts.
const NONE: u32 = 4_294_967_295;

/// The weights of a channel, with a start for each kind number.
#[derive(Clone, Copy)]
pub struct ByKind<'a> {
    pub list: &'a [f32],
    pub starts: &'a [u32],
    pub ghost full: { length starts.now ≡ 27 },
}

/// The `count` elements of a list from `start` on, if they do not pass its end.
fn part(list: &[f32], start: usize, count: usize) -> Option<&[f32]>
    requires { start + count < 2 ^ 64 }
    ensures { MatchOption result (nat_le (start + count) (length list.now) ≡ false) (λ r. (nat_le (start + count) (length list.now) ≡ true) × (r.now ≡ slice_range list.now start (start + count))) }
{
    list.get(start..start + count)
}

/// How many samples a block has.
#[tactic(auto, using(crate::proofs::Blocks::all_samples))]
pub fn samples(block: Block) -> usize
    ensures count { result ≡ 64 * (wide block.varblock.kind * high block.varblock.kind) }
    ensures few { result ≤ 65536 }
{
    64 * (block.size.width * block.size.height)
}

impl<'a> ByKind<'a> {
    ghost use Rattle.weights.specs.Kinds.{by_kind};

    /// Where in the list the weights of a kind start, if it has any.
    // by the number of the kind, as the host lends the starts
    fn start(self, kind: u32) -> Option<u32>
        requires { kind < 27 }
        ensures { result ≡ start_of (by_kind self.entry) kind }
    {
        match self.starts[kind as usize] {
            NONE => None,
            start => Some(start),
        }
    }

    /// The weights of a block, row by row, if its kind has them.
    pub fn of_block(self, block: Block) -> Option<&'a [f32]>
        ensures { MatchOption result (weighs (by_kind self.entry) block.varblock.kind ≡ false) (λ r. (weighs (by_kind self.entry) block.varblock.kind ≡ true) × (r.now ≡ weights_of (by_kind self.entry) block.varblock.kind)) }
    {
        let start = self.start(block.varblock.kind)?;
        part(self.list, start as usize, samples(block))
    }
}
