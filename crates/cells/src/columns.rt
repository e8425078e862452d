//! The kinds that are made of DCTs, in passes over all columns.

ghost use Rattle.std.specs.Prelude.{◌≡◌, ℕ, ◌+◌, ◌*◌, ◌<◌, if◌then◌else◌, nat_eq, List, Float};
ghost use Rattle.std.specs.Fn.{FnReturnsAt};
ghost use Rattle.dct.specs.Transform.{at, idct};
ghost use Rattle.dct_2d.specs.Plane.{Patch};
ghost use Rattle.cells.specs.Framed.{framed};
ghost use Rattle.cells.specs.Cells.{cell, paired, flipped, dct4, dct8};
ghost use Rattle.cells.specs.Passes.{row as row_of, column as column_of, downs, halves, half_downs, swapped, by_turn};

use crate::transform::aux_idct2_in_place;
use dct::{inverse4, inverse8};

/// The inverse DCT of eight numbers.
fn inverse_line(line: &[f32; 8]) -> [f32; 8]
    ensures { result ≡ idct 3 line.now }
{
    inverse8(line)
}

/// The inverse DCTs of the even and of the odd of eight numbers, one after the other.
fn inverse_halves(line: &[f32; 8]) -> [f32; 8]
    ensures { result ≡ halves line.now }
{
    let even = inverse4(line[0], line[2], line[4], line[6]);
    let odd = inverse4(line[1], line[3], line[5], line[7]);
    [
        even[0], even[1], even[2], even[3], odd[0], odd[1], odd[2], odd[3],
    ]
}

/// The row y.
// a row and a column are one expression each
fn row(block: &[f32; 64], y: usize) -> [f32; 8]
    requires { y < 8 }
    ensures { result ≡ row_of block.now y }
{
    std::array::from_fn(|x| block[y * 8 + x])
}

/// The column x.
fn column(block: &[f32; 64], x: usize) -> [f32; 8]
    requires { x < 8 }
    ensures { result ≡ column_of block.now x }
{
    std::array::from_fn(|y| block[y * 8 + x])
}

/// Writes 8 numbers over the column x.
fn put_column(values: &[f32; 8], out: &mut [f32; 64], x: usize)
    requires { x < 8 }
    ensures { (p q : ℕ) → p < 8 → q < 8 → at out.new (q * 8 + p) ≡ (if nat_eq p x then at values.now q else at out.old (q * 8 + p)) }
{
    for (y, value) in values.iter().enumerate() {
        out[y * 8 + x] = *value;
    }
}

/// What `made` makes of each row, written as a column.
// inlined always: as a call it makes Dct4x8 copy a cell once more, at 3.2 ns a sample for 3.05
#[inline(always)]
fn rows_to_columns<F: Fn(&[f32; 8]) -> [f32; 8]>(block: &[f32; 64], made: F) -> [f32; 64]
    requires { F.IsAlwaysCallable made }
    ensures { (f : Patch) → ((x y : ℕ) (v : List Float) → x < 8 → y < 8 → FnReturnsAt F.Fn made (row_of block.now x) v → at v y ≡ f x y) → cell result ≡ framed 8 8 f }
{
    let mut out = [0.0; 64];
    // counted: row y is read and column y of another list is written
    for y in 0..8 {
        put_column(&made(&row(block, y)), &mut out, y);
    }
    out
}

/// The inverse DCT of each row, written as a column.
fn inverse_rows(block: &[f32; 64]) -> [f32; 64]
    ensures { cell result ≡ downs (flipped (cell block.now)) }
{
    rows_to_columns(block, inverse_line)
}

/// The inverse DCTs of the even and of the odd numbers of each row, written as a column.
fn half_rows(block: &[f32; 64]) -> [f32; 64]
    ensures { cell result ≡ half_downs (flipped (cell block.now)) }
{
    rows_to_columns(block, inverse_halves)
}

/// The inverse DCTs of the even and of the odd numbers of each column.
fn half_columns(block: &[f32; 64]) -> [f32; 64]
    ensures { cell result ≡ half_downs (cell block.now) }
{
    // kept apart from `rows_to_columns`: with the read of a line as one more parameter Dct4x8 takes 3.2 ns a sample, and 3.05 so
    let mut out = [0.0; 64];
    for x in 0..8 {
        put_column(&inverse_halves(&column(block, x)), &mut out, x);
    }
    out
}

/// The two quarters beside the diagonal for one another.
fn swap(block: &[f32; 64]) -> [f32; 64]
    ensures { cell result ≡ swapped (cell block.now) }
{
    std::array::from_fn(|i| {
        let (x, y) = (i % 8, i / 8);
        block[(4 * (x / 4) + y % 4) * 8 + (4 * (y / 4) + x % 4)]
    })
}

/// Rows for columns.
fn flip(block: &[f32; 64]) -> [f32; 64]
    ensures { cell result ≡ flipped (cell block.now) }
{
    std::array::from_fn(|i| block[i % 8 * 8 + i / 8])
}

/// The first two numbers of the first column become their sum and their difference.
fn pair(block: &mut [f32; 64])
    ensures { cell block.new ≡ paired (cell block.old) }
{
    let coeff0 = block[0];
    let coeff1 = block[8];
    block[0] = coeff0 + coeff1;
    block[8] = coeff0 - coeff1;
}

/// The quarters' columns, then their rows. The coefficients of a quarter are transposed, so that it comes out
/// with its rows and columns for one another.
fn inverse_quarters(block: &[f32; 64]) -> [f32; 64]
    ensures { cell result ≡ swapped (half_downs (flipped (half_downs (cell block.now)))) }
{
    swap(&half_rows(&half_columns(block)))
}

pub fn transform_dct4(coeff: &mut [f32; 64])
    ensures { cell coeff.new ≡ dct4 (cell coeff.old) }
{
    aux_idct2_in_place(coeff, 2);
    *coeff = inverse_quarters(coeff);
}

/// The rows of both halves, then their columns.
fn inverse_half_rows(block: &[f32; 64]) -> [f32; 64]
    ensures { cell result ≡ half_downs (flipped (downs (flipped (cell block.now)))) }
{
    half_rows(&inverse_rows(block))
}

/// Dct4x8, or with `tr` its transpose, Dct8x4.
// `tr` is an argument and no type, by a rule of the project
pub fn transform_dct4x8(coeff: &mut [f32; 64], tr: bool)
    ensures { cell coeff.new ≡ by_turn tr (cell coeff.old) }
{
    pair(coeff);
    let samples = inverse_half_rows(coeff);
    *coeff = if tr { flip(&samples) } else { samples };
}

/// The plain DCT of a cell: rows, then columns.
pub fn transform_dct8(coeff: &mut [f32; 64])
    ensures { cell coeff.new ≡ dct8 (cell coeff.old) }
{
    *coeff = inverse_rows(&inverse_rows(coeff));
}
