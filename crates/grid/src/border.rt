//! The one place of this crate where a list that is lent becomes a canvas: of a canvas that is made over a list reached through
//! another `&mut` nothing is known once it is gone, and of one that is made here all is.

ghost use Rattle.std.specs.Prelude.{◌≡◌, ℕ, ◌+◌, ◌<◌, ◌≤◌, length, slice_set};
ghost use Rattle.grid.specs.Index.{index, Inside, Lawful};
ghost use Rattle.grid.specs.Painted.{painted, patch};

use crate::Shape;
use crate::brush::{Area, Brush};
use crate::canvas::Canvas;

/// The element (x, y) of a list with a shape becomes `value`.
pub fn write<T: Copy>(list: &mut [T], shape: Shape, x: usize, y: usize, value: T)
    requires lawful { Lawful shape (length list.old) }
    requires inside { Inside shape x y }
    ensures { list.new ≡ slice_set list.old (index shape x y) value }
{
    let canvas = &mut Canvas { list, shape };
    canvas.set(x, y, value);
}

/// Each element of the area of a list with a shape becomes what the brush makes of it.
pub fn paint<T: Copy, B: Brush<T>>(list: &mut [T], shape: Shape, area: Area, brush: &B)
    requires lawful { Lawful shape (length list.old) }
    requires across { area.x + area.width ≤ shape.width }
    requires down { area.y + area.height ≤ shape.height }
    requires can { (i j : ℕ) → i < area.width → j < area.height → B.Brush.ready brush.now i j }
    ensures { list.new ≡ painted shape (patch area.x area.y area.width area.height (B.Brush.made brush.now)) list.old }
{
    let canvas = &mut Canvas { list, shape };
    canvas.paint_rows(area, brush);
}
