//! Tiles: squares of 64 × 64 samples, of which those at the right and at the bottom may be cut off.

ghost use Rattle.std.specs.Prelude.{◌≡◌, ◌*◌, ◌≤◌};
ghost use Rattle.hf_correlate.specs.Tiles.{LeastTiles, span as span_of, tiles_of, tile_area};

use grid::{Area, Shape};

/// How many tiles span a width or height of n samples.
fn tiles(n: usize) -> usize
    ensures { LeastTiles n result }
{
    n.div_ceil(64)
}

/// How many tiles span a width or height of so many cells.
pub fn tiles_over(cells: usize) -> usize
    requires { cells ≤ 128 }
    ensures { result ≡ tiles_of (8 * cells) }
{
    tiles(8 * cells)
}

/// How many of n samples lie in a tile that begins at `start`.
fn span(n: usize, start: usize) -> usize
    requires { start ≤ n }
    ensures { result ≡ span_of n start }
{
    (n - start).min(64)
}

/// The samples of the tile (tx, ty).
pub fn tile_area(shape: Shape, tx: usize, ty: usize) -> Area
    requires across { 64 * tx ≤ shape.width }
    requires down { 64 * ty ≤ shape.height }
    ensures { result ≡ tile_area shape tx ty }
{
    let (x, y) = (64 * tx, 64 * ty);
    Area {
        x,
        y,
        width: span(shape.width, x),
        height: span(shape.height, y),
    }
}
