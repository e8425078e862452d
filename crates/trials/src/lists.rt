//! Lists in the shape of a grid, with a number beyond the width of each row that nothing writes.

ghost use Rattle.std.specs.Prelude.{◌≡◌, ℕ, ◌+◌, ◌*◌, ◌%◌, ◌^◌, ◌<◌, ◌≤◌, IfOk, Decides, IsTrue, length, drop, slice_index_or, vec_len};
ghost use Rattle.std.specs.List.{list_all};
ghost use Rattle.std.specs.Float.{nan};
ghost use Rattle.std.specs.Float.Ieee.{eq};
ghost use Rattle.grid.specs.Index.{index, Lawful};

use grid::Shape;
use std::alloc::{AllocError, Global};

/// What stands beyond the width.
pub const PADDING: f32 = 12345.0;

/// A shape with `pad` elements beyond the width of each row.
pub fn padded(width: usize, height: usize, pad: usize) -> Shape
    ensures width { result.width ≡ width }
    ensures height { result.height ≡ height }
    ensures stride { width + pad < 2 ^ 64 → result.stride ≡ width + pad }
{
    Shape {
        width,
        height,
        stride: width.saturating_add(pad),
    }
}

/// The elements of a grid of this shape, row by row: those within the width as they are drawn, and the others `beyond`.
pub fn filled<T: Copy, F: FnMut() -> anyhow::Result<T> + Drop>(
    alloc: Global,
    shape: Shape,
    beyond: T,
    mut draw: F,
) -> anyhow::Result<Vec<T>>
    requires { (state : F) → F.pre state }
    ensures len { IfOk result (λ v. vec_len v ≡ shape.height * shape.stride) }
    ensures padding { IfOk result (λ v. (k : ℕ) → k < shape.height * shape.stride → shape.width ≤ k % shape.stride → (d : T) → slice_index_or v.items k d ≡ beyond) }
{
    let mut list = Vec::new(alloc);
    // counted: what lies beyond the width is told by the column
    'rows: for _ in 0..shape.height {
        for x in 0..shape.stride {
            let element = if x < shape.width { draw()? } else { beyond };
            list.push(element)?;
        }
    }
    Ok(list)
}

/// The elements of a grid within the width, row by row.
pub fn within<T: Copy>(alloc: Global, list: &[T], shape: Shape) -> Result<Vec<T>, AllocError>
    ensures len { IfOk result (λ v. Lawful shape (length list.now) → length list.now ≤ shape.height * shape.stride → vec_len v ≡ shape.height * shape.width) }
    ensures elements { IfOk result (λ v. shape.width ≤ shape.stride → (x y : ℕ) → x < shape.width → index shape x y < length list.now → (d : T) → slice_index_or v.items (y * shape.width + x) d ≡ slice_index_or list.now (index shape x y) d) }
{
    list.chunks(shape.stride.max(1))
        .flat_map(|row| row.iter().take(shape.width))
        .copied()
        .collect(alloc)
}

/// Whether each number beyond the width is what stood there.
pub fn keeps_padding(list: &[f32], shape: Shape) -> bool
    ensures { 1 ≤ shape.stride → Decides result ((k : ℕ) → k < length list.now → shape.width ≤ k % shape.stride → IsTrue (eq (slice_index_or list.now k nan) PADDING)) }
{
    list.chunks(shape.stride.max(1))
        .all(|row| ends_padded(row, shape.width))
}

/// Whether each number of a row from `width` on is what stood there.
fn ends_padded(row: &[f32], width: usize) -> bool
    ensures { result ≡ list_all (λ v. eq v PADDING) (drop width row.now) }
{
    row.iter().skip(width).all(|v| *v == PADDING)
}
