//! When the calls work, and the forward call.

ghost use Rattle.std.specs.Prelude.{◌≡◌, length};
ghost use Rattle.kernel.specs.Maps.{forwarded, side};
ghost use Rattle.transform.specs.Maps.{forward};
ghost use Rattle.transform.specs.Tests.{forwards, inverts};

use dct::DctDirection;
use dct_2d::dct_2d;
use grid::Shape;
use kinds::kind_size;

/// Whether a patch may have this side.
fn is_side(n: usize) -> bool
    ensures { result ≡ side n }
{
    matches!(n, 1 | 2 | 4 | 8 | 16 | 32)
}

/// Whether a forward call works.
fn is_patch(shape: Shape, len: usize, room: usize) -> bool
    ensures { result ≡ forwards shape len room }
{
    let lawful = shape.is_lawful(len);
    lawful & (is_side(shape.width) & is_side(shape.height)) & (room >= 512)
}

/// The forward call of both kernels.
pub fn forward_dct(list: &mut [f32], shape: Shape, scratch: &mut [f32])
    ensures { list.new ≡ forwarded forward shape (length scratch.old) list.old }
{
    if is_patch(shape, list.len(), scratch.len()) {
        dct_2d(list, shape, scratch, DctDirection::Forward);
    }
}

/// Whether an inverse call works.
// any number, so that one that is not carried can be passed
pub fn is_block(kind: u32, shape: Shape, len: usize, room: usize) -> bool
    ensures { result ≡ inverts kind shape len room }
{
    match kind_size(kind) {
        Some(size) => shape.is_sized(8 * size.width, 8 * size.height, len) & (room >= 512),
        None => false,
    }
}
