//! How much of Y a channel gains.

ghost use Rattle.std.specs.Prelude.{◌≡◌, length};
ghost use Rattle.grid.specs.Index.{Lawful, Inside};
ghost use Rattle.grid.specs.Became.{Became};
ghost use Rattle.grid.specs.Drawn.{Drawn};
ghost use Rattle.grid.specs.Painted.{painted};
ghost use Rattle.grid.specs.Plane.{lent, seen, numeral};
ghost use Rattle.channels.specs.Correlated.{gain};
ghost use Rattle.hf_correlate.specs.Correlated.{hf_correlated_at, hf_correlated, Correlatable};

use crate::tiles::tile_area;
use channels::{ColourFactor, Gained, Numbers, gain};
use grid::{Canvas, Grid, Raster, Shape};

/// A channel's tiles, each with a number that says how much of Y its samples gain.
#[derive(Clone, Copy)]
pub struct Gains<'t> {
    pub tiles: Numbers<'t>,
    pub base: f32,
    pub colour: ColourFactor,
}

impl<'t> Gains<'t> {
    /// How much of Y the samples of the tile (tx, ty) gain.
    fn at(self, tx: usize, ty: usize) -> f32
        requires { Inside self.tiles.grid.shape tx ty }
        ensures { result ≡ gain self.entry.base self.entry.colour.value (numeral (seen self.entry.tiles.grid) tx ty) }
    {
        gain(self.base, self.tiles.get(tx, ty), self.colour)
    }
}

/// Each sample of the grid gains its tile's part of Y.
// the loops count tiles: a tile's place among them says where its samples begin
fn correlate_tiles(out: &mut Canvas<f32>, luma: Raster<f32>, gains: Gains)
    requires { Correlatable out.old.shape luma.shape gains.tiles.grid.shape }
    ensures { Drawn out.old out.new (painted out.old.shape (hf_correlated_at (seen luma.entry) (seen gains.entry.tiles.grid) gains.entry.base gains.entry.colour.value) out.old.list.now) }
{
    for ty in 0..gains.tiles.grid.shape.height {
        for tx in 0..gains.tiles.grid.shape.width {
            let area = tile_area(out.shape, tx, ty);
            let brush = Gained {
                luma,
                left: area.x,
                top: area.y,
                k: gains.at(tx, ty),
            };
            out.paint(area, &brush);
        }
    }
}

/// Each sample of the list gains its tile's part of Y.
fn correlate_list(list: &mut [f32], shape: Shape, luma: Raster<f32>, gains: Gains)
    requires lawful { Lawful shape (length list.old) }
    requires can { Correlatable shape luma.shape gains.tiles.grid.shape }
    ensures { list.new ≡ painted shape (hf_correlated_at (seen luma.entry) (seen gains.entry.tiles.grid) gains.entry.base gains.entry.colour.value) list.old }
{
    let canvas = &mut Canvas { list, shape };
    correlate_tiles(canvas, luma, gains);
}

/// Each sample of a channel gains its tile's part of Y.
pub fn correlate_channel(out: &mut Grid<f32>, luma: Raster<f32>, gains: Gains)
    requires lawful { Lawful out.old.shape (length out.old.list.now) }
    requires can { Correlatable out.old.shape luma.shape gains.tiles.grid.shape }
    ensures { Became out.old out.new (hf_correlated (seen luma.entry) (seen gains.entry.tiles.grid) gains.entry.base gains.entry.colour.value (lent out.old)) }
{
    let shape = out.shape;
    correlate_list(out.list, shape, luma, gains);
}
