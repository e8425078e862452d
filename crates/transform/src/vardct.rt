//! The crate's kernel.

ghost use Rattle.std.specs.Prelude.{◌≡◌, true, length};
ghost use Rattle.grid.specs.Index.{Lawful};
ghost use Rattle.dct_2d.specs.Replaced.{replaced};
ghost use Rattle.cells.specs.Cells.{cell};
ghost use Rattle.transform.specs.Maps.{forward as forward_map, inverse as inverse_map, cell_inverse};
ghost use Rattle.transform.specs.Tests.{inverts};
ghost use Rattle.transform.specs.KindFlats.{vardct_flat};

use crate::patches::{forward_dct, is_block};
use cells::{
    load, store, transform_dct2, transform_dct4, transform_dct4x8, transform_dct8,
    transform_hornuss,
};
use dct::DctDirection;
use dct_2d::dct_2d;
use grid::{Canvas, Shape};
use kernel::Kernel;

/// Forward is the DCT; inverse is the transform of the kind.
#[derive(Clone, Copy)]
pub struct Vardct;

/// The inverse of a cell, by its kind.
// a kind is a number, and a match over ranges with guards picks its inverse, by a rule of the project
pub fn transform_cell(kind: u32, coeff: &mut [f32; 64])
    ensures { cell coeff.new ≡ cell_inverse kind (cell coeff.old) }
{
    match kind {
        1 => transform_hornuss(coeff),
        2 => transform_dct2(coeff),
        3 => transform_dct4(coeff),
        12..=13 if kind % 2 == 0 => transform_dct4x8(coeff, false),
        12..=13 => transform_dct4x8(coeff, true),
        _ => transform_dct8(coeff),
    }
}

/// A block of one cell.
fn transform_single(kind: u32, list: &mut [f32], shape: Shape)
    requires wide { shape.width ≡ 8 }
    requires high { shape.height ≡ 8 }
    requires lawful { Lawful shape (length list.old) }
    ensures { list.new ≡ replaced (cell_inverse kind) shape list.old }
{
    let canvas = &mut Canvas { list, shape };
    let mut coeff = load(canvas.raster());
    transform_cell(kind, &mut coeff);
    store(&coeff, canvas);
}

/// The inverse of a block, by its kind.
fn transform(kind: u32, list: &mut [f32], shape: Shape, scratch: &mut [f32])
    requires { inverts kind shape (length list.old) (length scratch.old) ≡ true }
    ensures { list.new ≡ replaced (inverse_map kind) shape list.old }
{
    match kind {
        0..=3 | 12..=13 => transform_single(kind, list, shape),
        _ => dct_2d(list, shape, scratch, DctDirection::Inverse),
    }
}

impl Kernel for Vardct {
    ghost fwd = { forward_map };

    ghost inv = { inverse_map };

    ghost flat = { vardct_flat };

    fn forward(&self, list: &mut [f32], shape: Shape, scratch: &mut [f32]) {
        forward_dct(list, shape, scratch);
    }

    fn inverse(&self, kind: u32, list: &mut [f32], shape: Shape, scratch: &mut [f32]) {
        if is_block(kind, shape, list.len(), scratch.len()) {
            transform(kind, list, shape, scratch);
        }
    }
}
