//! Grids that are known to be lawful: one for writing, and one for reading alone.

ghost use Rattle.std.specs.Prelude.{◌≡◌, ℕ, ◌+◌, ◌<◌, ◌≤◌, length, slice_index_or, slice_set, ⊤};
ghost use Rattle.grid.specs.Index.{index, Inside, Lawful};
ghost use Rattle.grid.specs.Painted.{painted, patch};

use crate::Shape;
use crate::border::paint;
use crate::brush::{Area, Brush};
use std::alloc::AllocError;

/// A lawful grid over a lent list.
#[derive(Drop)]
pub struct Canvas<'a, T> {
    pub list: &'a mut [T],
    pub shape: Shape,
    ghost lawful: { Lawful shape (length list.now) },
}

impl<'a, T: Copy> Canvas<'a, T> {
    ghost use Rattle.grid.specs.Drawn.{Drawn};

    /// The same grid, for reading alone.
    // beside `Grid::view`: what one gives is known to be lawful
    pub fn raster(&self) -> Raster<'_, T>
        ensures list { result.list.now ≡ self.now.list.now }
        ensures shape { result.shape ≡ self.now.shape }
    {
        Raster {
            list: self.list,
            shape: self.shape,
        }
    }

    /// The element (x, y).
    pub fn get(&self, x: usize, y: usize) -> T
        requires { Inside self.now.shape x y }
        ensures { (d : T) → result ≡ slice_index_or self.now.list.now (index self.now.shape x y) d }
    {
        self.raster().get(x, y)
    }

    /// The element (x, y) becomes `value`.
    pub fn set(&mut self, x: usize, y: usize, value: T)
        requires { Inside self.old.shape x y }
        ensures { Drawn self.old self.new (slice_set self.old.list.now (index self.old.shape x y) value) }
    {
        let i = self.shape.offset(x, y);
        self.list[i] = value;
    }

    /// What the brush makes of the element (x, y), which is (i, j) in its area.
    fn stroke<B: Brush<T>>(&self, x: usize, y: usize, brush: &B, i: usize, j: usize) -> T
        requires inside { Inside self.now.shape x y }
        requires can { B.Brush.ready brush.now i j }
        ensures { (d : T) → result ≡ B.Brush.made brush.now i j (slice_index_or self.now.list.now (index self.now.shape x y) d) }
    {
        let old = self.get(x, y);
        brush.stroke(i, j, old)
    }

    /// Each element of the area becomes what the brush makes of it, row by row.
    // that an area or a place lies inside is a fact on two values, here and in the crates above: a type for it would be made anew at each place
    pub(crate) fn paint_rows<B: Brush<T>>(&mut self, area: Area, brush: &B)
        requires across { area.x + area.width ≤ self.old.shape.width }
        requires down { area.y + area.height ≤ self.old.shape.height }
        requires can { (i j : ℕ) → i < area.width → j < area.height → B.Brush.ready brush.now i j }
        ensures { Drawn self.old self.new (painted self.old.shape (patch area.x area.y area.width area.height (B.Brush.made brush.now)) self.old.list.now) }
    {
        // counted: the brush is asked by the place
        for j in 0..area.height {
            for i in 0..area.width {
                let (x, y) = (area.x + i, area.y + j);
                let value = self.stroke(x, y, brush, i, j);
                self.set(x, y, value);
            }
        }
    }

    /// Each element of the area becomes what the brush makes of it.
    // by way of a list: LF smooth on a canvas behind a reference took half as long again (63 to 94 ms; by way of a list 41 to 52)
    pub fn paint<B: Brush<T>>(&mut self, area: Area, brush: &B)
        requires across { area.x + area.width ≤ self.old.shape.width }
        requires down { area.y + area.height ≤ self.old.shape.height }
        requires can { (i j : ℕ) → i < area.width → j < area.height → B.Brush.ready brush.now i j }
        ensures { Drawn self.old self.new (painted self.old.shape (patch area.x area.y area.width area.height (B.Brush.made brush.now)) self.old.list.now) }
    {
        let shape = self.shape;
        paint(self.list, shape, area, brush);
    }

    /// Each element of the grid becomes what the brush makes of it.
    pub fn paint_all<B: Brush<T>>(&mut self, brush: &B)
        requires { (x y : ℕ) → x < self.old.shape.width → y < self.old.shape.height → B.Brush.ready brush.now x y }
        ensures { Drawn self.old self.new (painted self.old.shape (B.Brush.made brush.now) self.old.list.now) }
    {
        let area = self.shape.area();
        self.paint(area, brush);
    }
}

/// A lawful grid over a list that is lent for reading alone.
pub struct Raster<'a, T> {
    pub list: &'a [T],
    pub shape: Shape,
    ghost lawful: { Lawful shape (length list.now) },
}

impl<'a, T> Clone for Raster<'a, T> {
    ghost is_clone = { λ s r. r ≡ s };

    ghost is_infallible = { λ _. ⊤ };

    fn clone(&self) -> Result<Raster<'a, T>, AllocError> {
        Ok(*self)
    }
}

impl<'a, T> Copy for Raster<'a, T> {}

impl<'a, T: Copy> Raster<'a, T> {
    /// The element (x, y).
    pub fn get(self, x: usize, y: usize) -> T
        requires { Inside self.shape x y }
        ensures { (d : T) → result ≡ slice_index_or self.entry.list.now (index self.entry.shape x y) d }
    {
        self.list[self.shape.offset(x, y)]
    }
}
