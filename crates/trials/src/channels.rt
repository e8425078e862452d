//! One thing for each channel.

ghost use Rattle.std.specs.Prelude.{◌≡◌, IfOk, IfErr};

use grid::{Grid, Shape, View, Xyb};

/// The same for each channel.
pub fn alike<T: Copy>(value: T) -> Xyb<T>
    ensures { (result.x ≡ value) × (result.y ≡ value) × (result.b ≡ value) }
{
    Xyb {
        x: value,
        y: value,
        b: value,
    }
}

/// One for each channel, X first.
pub fn three<T: Drop, F: FnMut() -> anyhow::Result<T> + Drop>(mut make: F) -> anyhow::Result<Xyb<T>>
    requires { (state : F) → F.pre state }
    ensures made { IfOk result (λ v. (p q r : F) × F.step make (Ok v.x) p × F.step p (Ok v.y) q × F.step q (Ok v.b) r) }
    ensures failed { IfErr result (λ e. (p q : F) × F.step p (Err e) q) }
{
    Ok(Xyb {
        x: make()?,
        y: make()?,
        b: make()?,
    })
}

/// The lists of X, Y and B as grids of one shape, for reading alone.
pub fn views<'a, T>(x: &'a [T], y: &'a [T], b: &'a [T], shape: Shape) -> Xyb<View<'a, T>>
    ensures x { (result.x.list.now ≡ x.now) × (result.x.shape ≡ shape) }
    ensures y { (result.y.list.now ≡ y.now) × (result.y.shape ≡ shape) }
    ensures b { (result.b.list.now ≡ b.now) × (result.b.shape ≡ shape) }
{
    Xyb {
        x: View { list: x, shape },
        y: View { list: y, shape },
        b: View { list: b, shape },
    }
}

/// The lists of X, Y and B as grids of one shape.
// beside `views`: a `&mut` and a `&` of the same
pub fn grids<'a, T>(
    x: &'a mut [T],
    y: &'a mut [T],
    b: &'a mut [T],
    shape: Shape,
) -> Xyb<Grid<'a, T>>
    ensures x { (result.x.list.now ≡ x.old) × (result.x.shape ≡ shape) }
    ensures y { (result.y.list.now ≡ y.old) × (result.y.shape ≡ shape) }
    ensures b { (result.b.list.now ≡ b.old) × (result.b.shape ≡ shape) }
{
    Xyb {
        x: Grid { list: x, shape },
        y: Grid { list: y, shape },
        b: Grid { list: b, shape },
    }
}
