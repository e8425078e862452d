//! The functions of `tablet` for C: a static library of nothing but exports. `include/vardct.h` is its header.

#![tactic(auto)]

ghost use Rattle.std.specs.Prelude.{◌≡◌, length};
ghost use Rattle.tablet.specs.Block.{block_bytes, answer, written};

/// How many bytes a block of this kind has; 0 for a kind that is not accepted.
#[unsafe(no_mangle)]
pub extern "C" fn vardct_block_bytes(kind: u32) -> usize
    ensures { result ≡ block_bytes kind }
{
    tablet::vardct_block_bytes(kind)
}

/// The inverse of one block in row order, written over its bytes: 0; 5 for a kind that is not carried or has more than 16,384
/// samples, and else 2 for a list of another length. No byte changes then. A NaN is written as 7FC00000 hexadecimal.
#[unsafe(no_mangle)]
pub extern "C" fn vardct_inverse(kind: u32, bytes: &mut [u8]) -> u32
    ensures answer { result ≡ answer kind (length bytes.old) }
    ensures bytes { bytes.new ≡ written kind bytes.old }
{
    match tablet::vardct_inverse(kind, bytes) {
        Ok(()) => 0,
        Err(reason) => reason.number(),
    }
}
