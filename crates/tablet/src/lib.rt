//! The crate kernel at the tablet's edge: one block as bytes, four to a number, lowest first. `tablet_c` exports it to C.

#![tactic(auto)]

ghost use Rattle.std.specs.Prelude.{◌≡◌, ◌+◌, ◌*◌, ◌≤◌, true, false, [], ◌∷◌, length, nat_lt, MatchOption};
ghost use Rattle.dct_2d.specs.Replaced.{replaced};
ghost use Rattle.transform.specs.Maps.{inverse as inverse_map, single};
ghost use Rattle.transform.specs.Tests.{inverts};
ghost use Rattle.tablet.specs.Block.{accepted, block_bytes, rows, image, written};
ghost use Rattle.tablet.specs.Verdict.{verdict};
ghost use Rattle.tablet.specs.Bytes.{number as number_of, byte, decoded, encoded};

use grid::Shape;
use kernel::Kernel;
use kinds::kind_size;
use refusal::Reason;
use std::num::{f32_from_bits_with_nan, f32_to_bits_with_nan};
use transform::{Vardct, transform_cell};

/// The i-th number of a list of bytes.
fn number(bytes: &[u8], i: usize) -> f32
    requires { 4 * i + 4 ≤ length bytes.now }
    ensures { result ≡ number_of bytes.now i }
{
    let four = std::array::from_fn(|j| bytes[4 * i + j]);
    f32_from_bits_with_nan(u32::from_le_bytes(four))
}

/// The four bytes of a number.
fn word(x: f32) -> [u8; 4]
    ensures { result ≡ byte x 0 ∷ byte x 1 ∷ byte x 2 ∷ byte x 3 ∷ [] }
{
    f32_to_bits_with_nan(x).to_le_bytes()
}

/// Reads the numbers of a block.
fn decode(bytes: &[u8], block: &mut [f32])
    requires { length bytes.now ≡ 4 * length block.old }
    ensures { block.new ≡ decoded bytes.now }
{
    for (i, value) in block.iter_mut().enumerate() {
        *value = number(bytes, i);
    }
}

/// Writes the numbers of a block.
fn encode(block: &[f32], bytes: &mut [u8])
    requires { length bytes.old ≡ 4 * length block.now }
    ensures { bytes.new ≡ encoded block.now }
{
    for (i, value) in block.iter().enumerate() {
        bytes[4 * i..4 * i + 4].copy_from_slice(&word(*value));
    }
}

/// The inverse of a cell in row order.
// a kind is a number here and below, as C hands it over
fn inverse_cell(kind: u32, block: &mut [f32; 64])
    requires { single kind ≡ true }
    ensures { block.new ≡ replaced (inverse_map kind) (rows kind) block.old }
{
    transform_cell(kind, block);
}

/// The inverse of a cell, over its bytes; `block` is where its numbers are held.
fn inverse_cell_over(kind: u32, bytes: &mut [u8], block: &mut [f32; 64])
    requires single { single kind ≡ true }
    requires size { length bytes.old ≡ 256 }
    ensures { bytes.new ≡ image kind bytes.old }
{
    decode(bytes, block);
    inverse_cell(kind, block);
    encode(block, bytes);
}

/// The inverse of a cell, over its bytes.
// beside `through`: by `through::<64>` a sample of kind 0 takes 3.7 ns, and 2.3 ns so
fn through_cell(kind: u32, bytes: &mut [u8])
    requires single { single kind ≡ true }
    requires size { length bytes.old ≡ 256 }
    ensures { bytes.new ≡ image kind bytes.old }
{
    let mut block = [0.0f32; 64];
    inverse_cell_over(kind, bytes, &mut block);
}

/// The inverse of a block, over its bytes; `block` is where its numbers are held.
fn inverse_over(kind: u32, bytes: &mut [u8], block: &mut [f32], shape: Shape, scratch: &mut [f32])
    requires size { length bytes.old ≡ 4 * length block.old }
    requires rows { shape ≡ rows kind }
    requires block { inverts kind (rows kind) (length block.old) (length scratch.old) ≡ true }
    ensures { bytes.new ≡ image kind bytes.old }
{
    decode(bytes, block);
    Vardct.inverse(kind, block, shape, scratch);
    encode(block, bytes);
}

/// The inverse of a block of N numbers, over its bytes.
fn through<const N: usize>(kind: u32, bytes: &mut [u8], shape: Shape)
    requires size { length bytes.old ≡ 4 * N }
    requires rows { shape ≡ rows kind }
    requires block { inverts kind (rows kind) N 512 ≡ true }
    ensures { bytes.new ≡ image kind bytes.old }
{
    let mut block = [0.0f32; N];
    let mut scratch = [0.0f32; 512];
    inverse_over(kind, bytes, &mut block, shape, &mut scratch);
}

/// The inverse of a block, over its bytes: its length picks the array that holds its numbers.
// a match over lengths: with no heap each length has an array of its own
// kind, bytes and shape go down from here to the array that holds the numbers: four calls, of which each drops one
fn by_length(kind: u32, bytes: &mut [u8], shape: Shape)
    requires accepted { accepted kind ≡ true }
    requires size { length bytes.old ≡ block_bytes kind }
    requires rows { shape ≡ rows kind }
    ensures { bytes.new ≡ image kind bytes.old }
{
    match bytes.len() {
        256 => through_cell(kind, bytes),
        512 => through::<128>(kind, bytes, shape),
        1024 => through::<256>(kind, bytes, shape),
        2048 => through::<512>(kind, bytes, shape),
        4096 => through::<1024>(kind, bytes, shape),
        8192 => through::<2048>(kind, bytes, shape),
        16384 => through::<4096>(kind, bytes, shape),
        32768 => through::<8192>(kind, bytes, shape),
        _ => through::<16384>(kind, bytes, shape),
    }
}

/// Whether a kind, if it is carried, has blocks of at most 16,384 numbers.
fn is_small(kind: u32) -> bool
    ensures { result ≡ nat_lt kind 24 }
{
    kind < 24
}

/// A block in row order, if the kind is accepted.
#[tactic(auto, using(crate::proofs::Accepted::small_accepted, crate::proofs::Accepted::rows_are, crate::proofs::Accepted::none_accepted))]
fn shape_of(kind: u32) -> Option<Shape>
    ensures { MatchOption result (accepted kind ≡ false) (λ s. (accepted kind ≡ true) × (s ≡ rows kind)) }
{
    match kind_size(kind) {
        Some(size) if is_small(kind) => Some(Shape::dense(8 * size.width, 8 * size.height)),
        _ => None,
    }
}

/// How many bytes the numbers of a shape are.
fn bytes_of(shape: Shape) -> usize
    requires { shape.width * shape.height ≤ 16384 }
    ensures { result ≡ 4 * (shape.width * shape.height) }
{
    4 * (shape.width * shape.height)
}

/// How many bytes a block of this kind has; 0 for a kind that is not accepted.
#[tactic(auto, using(crate::proofs::Accepted::few_numbers, crate::proofs::Accepted::all_bytes, crate::proofs::Accepted::refused_bytes))]
pub fn vardct_block_bytes(kind: u32) -> usize
    ensures { result ≡ block_bytes kind }
{
    match shape_of(kind) {
        Some(shape) => bytes_of(shape),
        None => 0,
    }
}

/// The inverse of a block of an accepted kind, unless the list has another length.
#[tactic(auto, using(crate::proofs::Accepted::few_numbers, crate::proofs::Accepted::all_bytes))]
fn inverse_block(kind: u32, bytes: &mut [u8], shape: Shape) -> Result<(), Reason>
    requires accepted { accepted kind ≡ true }
    requires rows { shape ≡ rows kind }
    ensures answer { result ≡ verdict kind (length bytes.old) }
    ensures bytes { bytes.new ≡ written kind bytes.old }
{
    let size = bytes_of(shape);
    if bytes.len() != size {
        return Err(Reason::Shape);
    }
    by_length(kind, bytes, shape);
    Ok(())
}

/// The inverse of one block in row order, written over its bytes. `Reason::Kind` for a kind that is not carried or has more
/// than 16,384 samples, and else `Reason::Shape` for a list of another length. No byte changes then. A NaN is written as
/// 7FC00000 hexadecimal.
pub fn vardct_inverse(kind: u32, bytes: &mut [u8]) -> Result<(), Reason>
    ensures answer { result ≡ verdict kind (length bytes.old) }
    ensures bytes { bytes.new ≡ written kind bytes.old }
{
    let shape = shape_of(kind).ok_or(Reason::Kind)?;
    inverse_block(kind, bytes, shape)
}
