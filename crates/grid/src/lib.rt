//! A grid: a lent list with a width, a height and a stride, for any kind of element.

#![tactic(auto)]

ghost use Rattle.std.specs.Prelude.{◌≡◌, ℕ, ◌+◌, ◌-◌, ◌*◌, ◌^◌, ◌<◌, ◌≤◌, length, Decides};
ghost use Rattle.grid.specs.Index.{index, sub, start, dense, Inside, Lawful, lawful, sized};
ghost use Rattle.grid.specs.Painted.{painted, patch, solid};
ghost use Rattle.grid.specs.Became.{Became};
ghost use Rattle.grid.specs.Plane.{viewed};
ghost use Rattle.grid.specs.Drawn.{IsRaster};

mod border;
mod brush;
mod canvas;
mod xyb;

pub use border::{paint, write};
pub use brush::{Area, Brush, Solid};
pub use canvas::{Canvas, Raster};
pub use xyb::{Xyb, views};

/// How many elements lie in a row and how many rows there are, and how far apart two rows begin.
#[derive(Clone, Copy)]
pub struct Shape {
    pub width: usize,
    pub height: usize,
    pub stride: usize,
}

impl Shape {
    /// Rows that follow each other with nothing between them.
    pub fn dense(width: usize, height: usize) -> Shape
        ensures { result ≡ dense width height }
    {
        Shape {
            width,
            height,
            stride: width,
        }
    }

    /// Whether a list of `len` elements has room for a grid of this shape, and the shape is within its bounds.
    pub fn is_lawful(self, len: usize) -> bool
        ensures { Decides result (Lawful self len) }
    {
        self.width >= 1
            && self.height >= 1
            && self.width <= self.stride
            && self.stride <= 65536
            && self.ends_by(len)
    }

    /// Whether the last row ends within `len` elements.
    fn ends_by(self, len: usize) -> bool
        requires wide { 1 ≤ self.width }
        requires tall { 1 ≤ self.height }
        requires within { self.width ≤ self.stride }
        ensures { Decides result ((self.height - 1) * self.stride + self.width ≤ len) }
    {
        self.width <= len && self.height - 1 <= (len - self.width) / self.stride
    }

    /// Whether it is a lawful grid of w × h elements over a list of `len`.
    pub fn is_sized(self, w: usize, h: usize, len: usize) -> bool
        ensures { result ≡ sized w h self len }
    {
        let lawful = self.is_lawful(len);
        (self.width == w) & (self.height == h) & lawful
    }

    /// The whole of it.
    pub fn area(self) -> Area
        ensures { result ≡ record { x = 0; y = 0; width = self.width; height = self.height } }
    {
        Area {
            x: 0,
            y: 0,
            width: self.width,
            height: self.height,
        }
    }

    /// The shape of a patch of this grid, over the list from `start` on.
    pub fn patch(self, width: usize, height: usize) -> Shape
        ensures { result ≡ sub self width height }
    {
        Shape {
            width,
            height,
            stride: self.stride,
        }
    }

    /// Where in the list a patch of this height begins whose element (0, 0) is (x, y) here.
    pub fn start(self, x: usize, y: usize, height: usize) -> usize
        requires inside { Inside self x y }
        requires fits { index self x y < 2 ^ 64 }
        ensures { result ≡ start self x y height }
    {
        self.offset(x, y)
    }

    /// Where in the list the element (x, y) lies. Nothing else knows.
    pub fn offset(self, x: usize, y: usize) -> usize
        requires inside { Inside self x y }
        requires fits { index self x y < 2 ^ 64 }
        ensures { result ≡ index self x y }
    {
        row_order(self.stride, x, y)
    }
}

/// The place of (x, y) where rows follow each other, `stride` places apart.
fn row_order(stride: usize, x: usize, y: usize) -> usize
    requires { y * stride + x < 2 ^ 64 }
    ensures { result ≡ y * stride + x }
{
    let row = y * stride;
    row + x
}

/// A grid over a lent list.
#[derive(Drop)]
pub struct Grid<'a, T> {
    pub list: &'a mut [T],
    pub shape: Shape,
}

impl<'a, T: Copy> Grid<'a, T> {
    /// The same grid, for reading alone.
    pub fn view(&self) -> View<'_, T>
        ensures list { result.list.now ≡ self.now.list.now }
        ensures shape { result.shape ≡ self.now.shape }
    {
        View {
            list: self.list,
            shape: self.shape,
        }
    }

    /// Whether it is a lawful grid of w × h elements.
    pub fn fits(&self, w: usize, h: usize) -> bool
        ensures { result ≡ sized w h self.now.shape (length self.now.list.now) }
    {
        self.view().fits(w, h)
    }

    /// Each element of the area becomes what the brush makes of it.
    // beside `Canvas::paint`: a host lends a grid, and learns from its type what was left
    pub fn paint<B: Brush<T>>(&mut self, area: Area, brush: &B)
        requires lawful { Lawful self.old.shape (length self.old.list.now) }
        requires across { area.x + area.width ≤ self.old.shape.width }
        requires down { area.y + area.height ≤ self.old.shape.height }
        requires can { (i j : ℕ) → i < area.width → j < area.height → B.Brush.ready brush.now i j }
        ensures { Became self.old self.new (painted self.old.shape (patch area.x area.y area.width area.height (B.Brush.made brush.now)) self.old.list.now) }
    {
        let shape = self.shape;
        paint(self.list, shape, area, brush);
    }

    /// Each element of the grid becomes what the brush makes of it.
    pub fn paint_all<B: Brush<T>>(&mut self, brush: &B)
        requires lawful { Lawful self.old.shape (length self.old.list.now) }
        requires can { (x y : ℕ) → x < self.old.shape.width → y < self.old.shape.height → B.Brush.ready brush.now x y }
        ensures { Became self.old self.new (painted self.old.shape (B.Brush.made brush.now) self.old.list.now) }
    {
        let area = self.shape.area();
        self.paint(area, brush);
    }

    /// Each element becomes `value`.
    pub fn fill_with(&mut self, value: T)
        requires lawful { Lawful self.old.shape (length self.old.list.now) }
        ensures { Became self.old self.new (painted self.old.shape (solid value) self.old.list.now) }
    {
        self.paint_all(&Solid { value });
    }
}

/// A grid over a list that is lent for reading alone.
#[derive(Clone, Copy)]
pub struct View<'a, T> {
    pub list: &'a [T],
    pub shape: Shape,
}

impl<'a, T: Copy> View<'a, T> {
    /// Whether it is a lawful grid of w × h elements.
    pub fn fits(self, w: usize, h: usize) -> bool
        ensures { result ≡ sized w h self.entry.shape (length self.entry.list.now) }
    {
        self.shape.is_sized(w, h, self.list.len())
    }

    /// The same grid, if it is lawful.
    pub fn raster(self) -> Option<Raster<'a, T>>
        ensures { IsRaster (lawful self.entry.shape (length self.entry.list.now)) (viewed self.entry) result }
    {
        let View { list, shape } = self;
        if shape.is_lawful(list.len()) {
            Some(Raster { list, shape })
        } else {
            None
        }
    }

    /// The same grid, if it is lawful and has w × h elements.
    pub fn sized(self, w: usize, h: usize) -> Option<Raster<'a, T>>
        ensures { IsRaster (sized w h self.entry.shape (length self.entry.list.now)) (viewed self.entry) result }
    {
        let View { list, shape } = self;
        if self.fits(w, h) {
            Some(Raster { list, shape })
        } else {
            None
        }
    }
}
