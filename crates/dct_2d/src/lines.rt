//! The lines of a patch: rows or columns, read into a list and written back.

ghost use Rattle.std.specs.Prelude.{◌≡◌, ℕ, ◌<◌, map, length, slice_set};
ghost use Rattle.std.specs.List.{range_with_len};
ghost use Rattle.grid.specs.Drawn.{Drawn};
ghost use Rattle.grid.specs.Index.{index, Inside};
ghost use Rattle.grid.specs.Painted.{painted};
ghost use Rattle.dct_2d.specs.Lines.{fore, back, drawn, read_line};

use grid::{Canvas, Shape};

/// Which way the lines of a patch run.
#[derive(Clone, Copy)]
pub enum Axis {
    Rows,
    Columns,
}

impl Axis {
    /// How many lines there are.
    // how many and how long: one expression for each axis in both
    pub fn count(self, shape: Shape) -> usize
        ensures { result ≡ fore self shape.width shape.height }
    {
        match self {
            Axis::Rows => shape.height,
            Axis::Columns => shape.width,
        }
    }

    /// How long each of them is.
    pub fn length(self, shape: Shape) -> usize
        ensures { result ≡ back self shape.width shape.height }
    {
        match self {
            Axis::Rows => shape.width,
            Axis::Columns => shape.height,
        }
    }

    /// The number k of the line i.
    pub fn read(self, canvas: &Canvas<f32>, i: usize, k: usize) -> f32
        requires { Inside canvas.now.shape (fore self i k) (back self i k) }
        ensures { result ≡ read_line canvas.now.shape self i canvas.now.list.now k }
    {
        match self {
            Axis::Rows => canvas.get(k, i),
            Axis::Columns => canvas.get(i, k),
        }
    }

    /// The number k of the line i becomes `value`.
    pub fn write(self, canvas: &mut Canvas<f32>, i: usize, k: usize, value: f32)
        requires { Inside canvas.old.shape (fore self i k) (back self i k) }
        ensures { Drawn canvas.old canvas.new (slice_set canvas.old.list.now (index canvas.old.shape (fore self i k) (back self i k)) value) }
    {
        match self {
            Axis::Rows => canvas.set(k, i, value),
            Axis::Columns => canvas.set(i, k, value),
        }
    }
}

/// The line i read into `line`.
pub fn gather(canvas: &Canvas<f32>, axis: Axis, i: usize, line: &mut [f32])
    requires inside { i < fore axis canvas.now.shape.width canvas.now.shape.height }
    requires whole { length line.old ≡ back axis canvas.now.shape.width canvas.now.shape.height }
    ensures { line.new ≡ map (read_line canvas.now.shape axis i canvas.now.list.now) (range_with_len 0 (length line.old)) }
{
    for (k, number) in line.iter_mut().enumerate() {
        *number = axis.read(canvas, i, k);
    }
}

/// `line` written over the line i.
pub fn scatter(line: &[f32], canvas: &mut Canvas<f32>, axis: Axis, i: usize)
    requires inside { i < fore axis canvas.old.shape.width canvas.old.shape.height }
    requires whole { length line.now ≡ back axis canvas.old.shape.width canvas.old.shape.height }
    ensures { Drawn canvas.old canvas.new (painted canvas.old.shape (drawn axis i (length line.now) line.now) canvas.old.list.now) }
{
    for (k, number) in line.iter().enumerate() {
        axis.write(canvas, i, k, *number);
    }
}
