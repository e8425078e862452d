//! The two-dimensional discrete cosine transform of a patch, in place.

#![tactic(auto)]

ghost use Rattle.std.specs.Prelude.{◌≡◌, ℕ, ◌^◌, ◌≤◌, map, length, Decides};
ghost use Rattle.std.specs.List.{range_with_len};
ghost use Rattle.grid.specs.Drawn.{Drawn};
ghost use Rattle.dct.specs.Sides.{Sided};
ghost use Rattle.dct.specs.Transform.{at};
ghost use Rattle.dct_2d.specs.Lines.{back, lined};
ghost use Rattle.dct_2d.specs.Plane.{factor, line as line_of, plane, square as square_of};
ghost use Rattle.dct_2d.specs.Replaced.{replaced, Ready};

use crate::lines::{Axis, gather, scatter};
use crate::strips::inverse_patch;
use dct::{DctDirection, dct_1d, is_side};
use grid::{Canvas, Shape};

mod lines;
mod strips;

/// What the sum and the difference of two numbers are multiplied by.
fn pair_factor(direction: DctDirection) -> f32
    ensures { result ≡ factor direction }
{
    match direction {
        DctDirection::Forward => 0.5,
        DctDirection::Inverse => 1.0,
    }
}

/// The transform of one line of a patch: two numbers go by `pair_factor`, all others by `dct_1d`.
fn dct_line(line: &mut [f32], scratch: &mut [f32], direction: DctDirection)
    requires sided { Sided (length line.old) }
    requires room { length line.old ≤ length scratch.old }
    ensures { (k : ℕ) → length line.old ≡ 2 ^ k → line.new ≡ map (line_of direction k (at line.old)) (range_with_len 0 (length line.old)) }
{
    match *line {
        [a, b] => {
            let mul = pair_factor(direction);
            line[0] = (a + b) * mul;
            line[1] = (a - b) * mul;
        }
        _ => dct_1d(line, scratch, direction),
    }
}

/// Each line transformed.
fn dct_lines(canvas: &mut Canvas<f32>, axis: Axis, scratch: &mut [f32], direction: DctDirection)
    requires sided { Sided (back axis canvas.old.shape.width canvas.old.shape.height) }
    requires room { 512 ≤ length scratch.old }
    ensures { (k : ℕ) → back axis canvas.old.shape.width canvas.old.shape.height ≡ 2 ^ k → Drawn canvas.old canvas.new (replaced (lined direction axis k) canvas.old.shape canvas.old.list.now) }
{
    let shape = canvas.shape;
    let (line, rest) = scratch.split_at_mut(axis.length(shape));
    // counted: the lines of a patch are no list
    for i in 0..axis.count(shape) {
        gather(canvas, axis, i, line);
        dct_line(line, rest, direction);
        scatter(line, canvas, axis, i);
    }
}

/// Two rows of two numbers: each becomes one sum of the four.
fn dct_square(canvas: &mut Canvas<f32>, direction: DctDirection)
    requires wide { canvas.old.shape.width ≡ 2 }
    requires high { canvas.old.shape.height ≡ 2 }
    ensures { Drawn canvas.old canvas.new (replaced (square_of direction) canvas.old.shape canvas.old.list.now) }
{
    let mul = pair_factor(direction);
    let v00 = canvas.get(0, 0);
    let v01 = canvas.get(1, 0);
    let v10 = canvas.get(0, 1);
    let v11 = canvas.get(1, 1);
    canvas.set(0, 0, (v00 + v01 + v10 + v11) * mul * mul);
    canvas.set(1, 0, (v00 - v01 + v10 - v11) * mul * mul);
    canvas.set(0, 1, (v00 + v01 - v10 - v11) * mul * mul);
    canvas.set(1, 1, (v00 - v01 - v10 + v11) * mul * mul);
}

/// The transform of a patch, line by line: rows, then columns; but of two rows of four and more numbers, columns first.
fn transform_lines(canvas: &mut Canvas<f32>, scratch: &mut [f32], direction: DctDirection)
    requires { (a b : ℕ) × Ready a b canvas.old.shape (length canvas.old.list.now) (length scratch.old) }
    ensures { (a b : ℕ) → Ready a b canvas.old.shape (length canvas.old.list.now) (length scratch.old) → Drawn canvas.old canvas.new (replaced (plane direction a b) canvas.old.shape canvas.old.list.now) }
{
    let shape = canvas.shape;
    if shape.height == 2 && shape.width == 2 {
        dct_square(canvas, direction);
    } else if shape.height == 2 && shape.width > 2 {
        dct_lines(canvas, Axis::Columns, scratch, direction);
        dct_lines(canvas, Axis::Rows, scratch, direction);
    } else {
        dct_lines(canvas, Axis::Rows, scratch, direction);
        dct_lines(canvas, Axis::Columns, scratch, direction);
    }
}

/// The transform of a patch. The inverse of sides from 8 on takes eight lines at a time.
fn transform(canvas: &mut Canvas<f32>, scratch: &mut [f32], direction: DctDirection)
    requires { (a b : ℕ) × Ready a b canvas.old.shape (length canvas.old.list.now) (length scratch.old) }
    ensures { (a b : ℕ) → Ready a b canvas.old.shape (length canvas.old.list.now) (length scratch.old) → Drawn canvas.old canvas.new (replaced (plane direction a b) canvas.old.shape canvas.old.list.now) }
{
    let shape = canvas.shape;
    match direction {
        DctDirection::Inverse if shape.width >= 8 && shape.height >= 8 => inverse_patch(
            canvas, scratch,
        ),
        _ => transform_lines(canvas, scratch, direction),
    }
}

/// Whether a list of `len` numbers holds a patch that is transformed, with `room` numbers of scratch.
fn is_ready(shape: Shape, len: usize, room: usize) -> bool
    ensures { Decides result ((a b : ℕ) × Ready a b shape len room) }
{
    is_side(shape.width) && is_side(shape.height) && shape.is_lawful(len) && room >= 512
}

/// The two-dimensional transform of the patch `shape` of a list, in place. The sides are powers of two up to 256, and the
/// scratch has at least 512 numbers; otherwise nothing is written.
pub fn dct_2d(list: &mut [f32], shape: Shape, scratch: &mut [f32], direction: DctDirection)
    ensures works { (a b : ℕ) → Ready a b shape (length list.old) (length scratch.old) → list.new ≡ replaced (plane direction a b) shape list.old }
    ensures idle { ((a b : ℕ) → Ready a b shape (length list.old) (length scratch.old) → ⊥) → list.new ≡ list.old }
{
    if is_ready(shape, list.len(), scratch.len()) {
        let canvas = &mut Canvas { list, shape };
        transform(canvas, scratch, direction);
    }
}
