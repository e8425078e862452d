//! The mean kernel, for thumbnails.

ghost use Rattle.std.specs.Prelude.{◌≡◌, length};
ghost use Rattle.grid.specs.Drawn.{Drawn};
ghost use Rattle.grid.specs.Index.{Lawful};
ghost use Rattle.grid.specs.Window.{elements};
ghost use Rattle.dct_2d.specs.Replaced.{poured};
ghost use Rattle.transform.specs.Maps.{forward as forward_map, level as level_of, mean};
ghost use Rattle.transform.specs.Flats.{mean_flat};

use crate::patches::{forward_dct, is_block};
use grid::{Canvas, Shape, Solid};
use kernel::Kernel;

/// Its inverse gives every sample the corner's first number.
#[derive(Clone, Copy)]
pub struct Mean;

/// The number at (0, 0).
#[tactic(auto, using(dct_2d::proofs::Paintings::element_in))]
fn first(canvas: &Canvas<f32>) -> f32
    ensures { result ≡ elements canvas.now.shape canvas.now.list.now 0 0 }
{
    canvas.get(0, 0)
}

/// Each number of a grid becomes `value`.
#[tactic(auto, unfolding(dct_2d::specs::Replaced::poured))]
fn level(canvas: &mut Canvas<f32>, value: f32)
    ensures { Drawn canvas.old canvas.new (poured (level_of value) canvas.old.shape canvas.old.list.now) }
{
    canvas.paint_all(&Solid { value });
}

/// Each number of a grid becomes the first.
fn spread(list: &mut [f32], shape: Shape)
    requires { Lawful shape (length list.old) }
    ensures { list.new ≡ poured (level_of (elements shape list.old 0 0)) shape list.old }
{
    let canvas = &mut Canvas { list, shape };
    let value = first(canvas);
    level(canvas, value);
}

impl Kernel for Mean {
    ghost fwd = { forward_map };

    ghost inv = { mean };

    ghost flat = { mean_flat };

    fn forward(&self, list: &mut [f32], shape: Shape, scratch: &mut [f32]) {
        forward_dct(list, shape, scratch);
    }

    fn inverse(&self, kind: u32, list: &mut [f32], shape: Shape, scratch: &mut [f32]) {
        if is_block(kind, shape, list.len(), scratch.len()) {
            spread(list, shape);
        }
    }
}
