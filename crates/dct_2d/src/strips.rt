//! The inverse transform of a patch, eight rows or columns at a time.

ghost use Rattle.std.specs.Prelude.{◌≡◌, ℕ, ◌+◌, ◌*◌, ◌%◌, ◌^◌, ◌<◌, ◌≤◌, List, length, Float};
ghost use Rattle.grid.specs.Drawn.{Drawn};
ghost use Rattle.grid.specs.Index.{Lawful};
ghost use Rattle.grid.specs.Painted.{painted};
ghost use Rattle.dct.specs.declared.dct_common.DctDirection.TheVariants.{Inverse};
ghost use Rattle.dct.specs.Sides.{Long};
ghost use Rattle.dct.specs.Strips.{lane, lanes, Rowed, Laned};
ghost use Rattle.dct.specs.Transform.{at};
ghost use Rattle.dct_2d.specs.declared.lines.Axis.TheVariants.{Rows, Columns};
ghost use Rattle.dct_2d.specs.Drawn.{eight_drawn, strip_drawn};
ghost use Rattle.dct_2d.specs.Lines.{fore, back, drawn, lined, read_line, read_row};
ghost use Rattle.dct_2d.specs.Plane.{plane};
ghost use Rattle.dct_2d.specs.Replaced.{replaced};

use crate::lines::Axis;
use dct::inverse_eight;
use grid::{Canvas, Shape};

/// Eight numbers side by side, from (x, y) on.
fn eight_at(canvas: &Canvas<f32>, x: usize, y: usize) -> [f32; 8]
    requires across { x + 8 ≤ canvas.now.shape.width }
    requires down { y < canvas.now.shape.height }
    ensures { (j : ℕ) → j < 8 → at result j ≡ read_row canvas.now.shape x y canvas.now.list.now j }
{
    std::array::from_fn(|j| canvas.get(x + j, y))
}

/// Eight numbers written side by side, from (x, y) on.
fn put_eight(numbers: &[f32; 8], canvas: &mut Canvas<f32>, x: usize, y: usize)
    requires across { x + 8 ≤ canvas.old.shape.width }
    requires down { y < canvas.old.shape.height }
    ensures { Drawn canvas.old canvas.new (painted canvas.old.shape (eight_drawn x y 8 numbers.now) canvas.old.list.now) }
{
    for (j, number) in numbers.iter().enumerate() {
        canvas.set(x + j, y, *number);
    }
}

/// Eight numbers written over the line x of a strip, from its number 8i on.
fn put_part(numbers: &[f32; 8], strip: &mut [f32], x: usize, i: usize)
    requires line { x < 8 }
    requires within { i * 64 + 64 ≤ length strip.old }
    ensures { (f : ℕ → Float) (v : List Float) → ((j : ℕ) → j < 8 → at numbers.now j ≡ f (i * 8 + j)) → Laned x (i * 8) f v strip.old → Laned x (i * 8 + 8) f v strip.new }
{
    for (j, number) in numbers.iter().enumerate() {
        strip[(i * 8 + j) * 8 + x] = *number;
    }
}

/// The row y read into the line x of a strip.
fn load_line(canvas: &Canvas<f32>, y: usize, strip: &mut [f32], x: usize)
    requires inside { y < canvas.now.shape.height }
    requires eights { canvas.now.shape.width % 8 ≡ 0 }
    requires line { x < 8 }
    requires whole { length strip.old ≡ canvas.now.shape.width * 8 }
    ensures { Laned x canvas.now.shape.width (read_line canvas.now.shape Rows y canvas.now.list.now) strip.old strip.new }
{
    // counted, here and below: eight numbers go between a place of the grid and a place of the strip
    for i in 0..canvas.shape.width / 8 {
        put_part(&eight_at(canvas, i * 8, y), strip, x, i);
    }
}

/// The eight rows from y on read into a strip, row by row.
fn load_rows(canvas: &Canvas<f32>, y: usize, strip: &mut [f32])
    requires lines { y + 8 ≤ canvas.now.shape.height }
    requires eights { canvas.now.shape.width % 8 ≡ 0 }
    requires whole { length strip.old ≡ canvas.now.shape.width * 8 }
    ensures { (x k : ℕ) → x < 8 → k < canvas.now.shape.width → lane strip.new x k ≡ read_line canvas.now.shape Rows (y + x) canvas.now.list.now k }
{
    for x in 0..8 {
        load_line(canvas, y + x, strip, x);
    }
}

/// Eight numbers side by side, from (x, k) on, read into the row k of a strip.
fn load_row(canvas: &Canvas<f32>, x: usize, strip: &mut [f32], k: usize)
    requires across { x + 8 ≤ canvas.now.shape.width }
    requires down { k < canvas.now.shape.height }
    requires within { k * 8 + 8 ≤ length strip.old }
    ensures { Rowed k 8 (read_row canvas.now.shape x k canvas.now.list.now) strip.old strip.new }
{
    strip[k * 8..k * 8 + 8].copy_from_slice(&eight_at(canvas, x, k));
}

/// The eight columns from x on read into a strip.
fn load_columns(canvas: &Canvas<f32>, x: usize, strip: &mut [f32])
    requires lines { x + 8 ≤ canvas.now.shape.width }
    requires whole { length strip.old ≡ canvas.now.shape.height * 8 }
    ensures { (z k : ℕ) → z < 8 → k < canvas.now.shape.height → lane strip.new z k ≡ read_line canvas.now.shape Columns (x + z) canvas.now.list.now k }
{
    for k in 0..canvas.shape.height {
        load_row(canvas, x, strip, k);
    }
}

/// The eight lines from i on read into a strip.
// two functions, so that both go through memory row by row: by `Axis::read` a sample of kind 5 takes 3.9 ns, and 3.4 ns so
fn load(canvas: &Canvas<f32>, axis: Axis, i: usize, strip: &mut [f32])
    requires lines { i + 8 ≤ fore axis canvas.now.shape.width canvas.now.shape.height }
    requires eights { back axis canvas.now.shape.width canvas.now.shape.height % 8 ≡ 0 }
    requires whole { length strip.old ≡ back axis canvas.now.shape.width canvas.now.shape.height * 8 }
    ensures { (x k : ℕ) → x < 8 → k < back axis canvas.now.shape.width canvas.now.shape.height → lane strip.new x k ≡ read_line canvas.now.shape axis (i + x) canvas.now.list.now k }
{
    match axis {
        Axis::Rows => load_rows(canvas, i, strip),
        Axis::Columns => load_columns(canvas, i, strip),
    }
}

/// Eight numbers of the line x of a strip, from its number 8i on.
fn part_at(strip: &[f32], x: usize, i: usize) -> [f32; 8]
    requires line { x < 8 }
    requires within { i * 64 + 64 ≤ length strip.now }
    ensures { (j : ℕ) → j < 8 → at result j ≡ lane strip.now x (i * 8 + j) }
{
    std::array::from_fn(|j| strip[(i * 8 + j) * 8 + x])
}

/// The line x of a strip written over the row y.
fn store_line(strip: &[f32], x: usize, canvas: &mut Canvas<f32>, y: usize)
    requires inside { y < canvas.old.shape.height }
    requires eights { canvas.old.shape.width % 8 ≡ 0 }
    requires line { x < 8 }
    requires whole { length strip.now ≡ canvas.old.shape.width * 8 }
    ensures { Drawn canvas.old canvas.new (painted canvas.old.shape (drawn Rows y canvas.old.shape.width (lanes canvas.old.shape.width strip.now x)) canvas.old.list.now) }
{
    for i in 0..canvas.shape.width / 8 {
        put_eight(&part_at(strip, x, i), canvas, i * 8, y);
    }
}

/// A strip written over the eight rows from y on.
fn store_rows(strip: &[f32], canvas: &mut Canvas<f32>, y: usize)
    requires lines { y + 8 ≤ canvas.old.shape.height }
    requires eights { canvas.old.shape.width % 8 ≡ 0 }
    requires whole { length strip.now ≡ canvas.old.shape.width * 8 }
    ensures { Drawn canvas.old canvas.new (painted canvas.old.shape (strip_drawn Rows y 8 canvas.old.shape.width strip.now) canvas.old.list.now) }
{
    for x in 0..8 {
        store_line(strip, x, canvas, y + x);
    }
}

/// The row k of a strip.
// copied before it is written: from the strip itself a sample of kind 5 takes 3.6 ns, and 3.3 ns so
fn row_at(strip: &[f32], k: usize) -> [f32; 8]
    requires { k * 8 + 8 ≤ length strip.now }
    ensures { (x : ℕ) → x < 8 → at result x ≡ lane strip.now x k }
{
    std::array::from_fn(|x| strip[k * 8 + x])
}

/// A strip written over the eight columns from x on.
fn store_columns(strip: &[f32], canvas: &mut Canvas<f32>, x: usize)
    requires lines { x + 8 ≤ canvas.old.shape.width }
    requires whole { length strip.now ≡ canvas.old.shape.height * 8 }
    ensures { Drawn canvas.old canvas.new (painted canvas.old.shape (strip_drawn Columns x 8 canvas.old.shape.height strip.now) canvas.old.list.now) }
{
    for k in 0..canvas.shape.height {
        put_eight(&row_at(strip, k), canvas, x, k);
    }
}

/// A strip written over the eight lines from i on.
// two functions, as in `load`
fn store(strip: &[f32], canvas: &mut Canvas<f32>, axis: Axis, i: usize)
    requires lines { i + 8 ≤ fore axis canvas.old.shape.width canvas.old.shape.height }
    requires eights { back axis canvas.old.shape.width canvas.old.shape.height % 8 ≡ 0 }
    requires whole { length strip.now ≡ back axis canvas.old.shape.width canvas.old.shape.height * 8 }
    ensures { Drawn canvas.old canvas.new (painted canvas.old.shape (strip_drawn axis i 8 (back axis canvas.old.shape.width canvas.old.shape.height) strip.now) canvas.old.list.now) }
{
    match axis {
        Axis::Rows => store_rows(strip, canvas, i),
        Axis::Columns => store_columns(strip, canvas, i),
    }
}

/// The inverse of each line, eight at a time.
#[tactic(auto, using(crate::proofs::Stores::long_eights))]
fn inverse_lines(canvas: &mut Canvas<f32>, axis: Axis, strip: &mut [f32], scratch: &mut [f32])
    requires sided { Long (back axis canvas.old.shape.width canvas.old.shape.height) }
    requires eights { fore axis canvas.old.shape.width canvas.old.shape.height % 8 ≡ 0 }
    requires strip { back axis canvas.old.shape.width canvas.old.shape.height * 8 ≤ length strip.old }
    requires room { back axis canvas.old.shape.width canvas.old.shape.height * 8 ≤ length scratch.old }
    ensures { (k : ℕ) → back axis canvas.old.shape.width canvas.old.shape.height ≡ 2 ^ k → Drawn canvas.old canvas.new (replaced (lined Inverse axis k) canvas.old.shape canvas.old.list.now) }
{
    let n = axis.length(canvas.shape);
    let (strip, _) = strip.split_at_mut(n * 8);
    for i in 0..axis.count(canvas.shape) / 8 {
        load(canvas, axis, i * 8, strip);
        inverse_eight(strip, scratch, n);
        store(strip, canvas, axis, i * 8);
    }
}

/// The inverse of each line of a list with a shape.
// takes no canvas: with the caller's, whose shape is read again after each write, a sample of kind 18 takes 5.7 ns; so it takes 4.1 ns
fn inverse_along(list: &mut [f32], shape: Shape, axis: Axis, strip: &mut [f32], scratch: &mut [f32])
    requires lawful { Lawful shape (length list.old) }
    requires sided { Long (back axis shape.width shape.height) }
    requires eights { fore axis shape.width shape.height % 8 ≡ 0 }
    requires strip { back axis shape.width shape.height * 8 ≤ length strip.old }
    requires room { back axis shape.width shape.height * 8 ≤ length scratch.old }
    ensures { (k : ℕ) → back axis shape.width shape.height ≡ 2 ^ k → list.new ≡ replaced (lined Inverse axis k) shape list.old }
{
    let canvas = &mut Canvas { list, shape };
    inverse_lines(canvas, axis, strip, scratch);
}

/// The inverse of a patch over two buffers for strips.
// both sides are `Long` here and where it is called from: a type of its own would be made for three calls
#[tactic(auto, using(crate::proofs::Stores::long_eights))]
fn inverse_over(canvas: &mut Canvas<f32>, strip: &mut [f32], scratch: &mut [f32])
    requires wide { Long canvas.old.shape.width }
    requires high { Long canvas.old.shape.height }
    requires rows { canvas.old.shape.width * 8 ≤ length strip.old }
    requires columns { canvas.old.shape.height * 8 ≤ length strip.old }
    requires room { length strip.old ≤ length scratch.old }
    ensures { (a b : ℕ) → canvas.old.shape.width ≡ 2 ^ a → canvas.old.shape.height ≡ 2 ^ b → Drawn canvas.old canvas.new (replaced (plane Inverse a b) canvas.old.shape canvas.old.list.now) }
{
    let shape = canvas.shape;
    inverse_along(canvas.list, shape, Axis::Rows, strip, scratch);
    inverse_along(canvas.list, shape, Axis::Columns, strip, scratch);
}

/// The inverse of a patch over buffers of N numbers.
fn inverse_by<const N: usize>(canvas: &mut Canvas<f32>)
    requires wide { Long canvas.old.shape.width }
    requires high { Long canvas.old.shape.height }
    requires rows { canvas.old.shape.width * 8 ≤ N }
    requires columns { canvas.old.shape.height * 8 ≤ N }
    requires small { N ≤ 2048 }
    ensures { (a b : ℕ) → canvas.old.shape.width ≡ 2 ^ a → canvas.old.shape.height ≡ 2 ^ b → Drawn canvas.old canvas.new (replaced (plane Inverse a b) canvas.old.shape canvas.old.list.now) }
{
    let mut strip = [0.0; N];
    let mut scratch = [0.0; N];
    inverse_over(canvas, &mut strip, &mut scratch);
}

/// The inverse of a patch whose sides are 8 to 256.
pub fn inverse_patch(canvas: &mut Canvas<f32>, scratch: &mut [f32])
    requires wide { Long canvas.old.shape.width }
    requires high { Long canvas.old.shape.height }
    requires room { 512 ≤ length scratch.old }
    ensures { (a b : ℕ) → canvas.old.shape.width ≡ 2 ^ a → canvas.old.shape.height ≡ 2 ^ b → Drawn canvas.old canvas.new (replaced (plane Inverse a b) canvas.old.shape canvas.old.list.now) }
{
    let shape = canvas.shape;
    if shape.width <= 32 && shape.height <= 32 {
        let (strip, rest) = scratch.split_at_mut(256);
        inverse_over(canvas, strip, rest);
    } else if shape.width <= 64 && shape.height <= 64 {
        inverse_by::<512>(canvas);
    } else if shape.width <= 128 && shape.height <= 128 {
        inverse_by::<1024>(canvas);
    } else {
        inverse_by::<2048>(canvas);
    }
}
