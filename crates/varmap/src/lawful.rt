//! Whether a map is lawful.

ghost use Rattle.std.specs.Prelude.{◌≡◌, ℕ, ◌+◌, ◌-◌, ◌*◌, ◌<◌, ◌≤◌, ◌&&◌};
ghost use Rattle.grid.specs.Index.{Inside};
ghost use Rattle.kinds.specs.Kinds.{size_of};
ghost use Rattle.varmap.specs.Cells.{cells};
ghost use Rattle.varmap.specs.Map.{points_back, in_range, all_back, lead_of, covered_ok, cell_ok, map_checked};

use crate::cells::{Cell, Record};
use grid::Raster;
use kinds::{Size, kind_size};
use refusal::{Reason, Refusal};

/// Whether the cell, (i, j) from a lead, is that lead itself or points back to it.
fn is_back(cell: Cell, i: usize, j: usize) -> bool
    ensures { result ≡ points_back cell.holds i j }
{
    let here = (i == 0) & (j == 0);
    match cell.holds {
        Record::Covered { dx, dy } => here | ((dx as usize == i) & (dy as usize == j)),
        _ => here,
    }
}

/// Whether each cell of the rectangle but its first points back to (x, y).
fn points_back(map: Raster<'_, Cell>, x: usize, y: usize, size: Size) -> bool
    requires across { x + size.width ≤ map.shape.width }
    requires down { y + size.height ≤ map.shape.height }
    ensures { result ≡ all_back (cells map.entry.shape map.entry.list.now) x y size }
{
    // counted: a cell is asked how far it lies from its lead
    for j in 0..size.height {
        for i in 0..size.width {
            if !is_back(map.get(x + i, y + j), i, j) {
                return false;
            }
        }
    }
    true
}

/// Whether a lead at (x, y) is lawful.
fn lead_is_lawful(map: Raster<'_, Cell>, x: usize, y: usize, kind: u32, hf_mul: u32) -> bool
    requires { Inside map.shape x y }
    ensures { result ≡ lead_of map.entry.shape.width map.entry.shape.height (cells map.entry.shape map.entry.list.now) x y hf_mul (size_of kind) }
{
    match kind_size(kind) {
        None => false,
        Some(size) => {
            hf_mul_in_range(hf_mul)
                && size.width <= map.shape.width - x
                && size.height <= map.shape.height - y
                && points_back(map, x, y, size)
        }
    }
}

/// Whether a lead may have this multiplier.
// a range of its own: the two bounds are the rule
pub fn hf_mul_in_range(hf_mul: u32) -> bool
    ensures { result ≡ in_range hf_mul }
{
    (1 <= hf_mul) & (hf_mul <= 255)
}

/// Whether a cell at (x, y) that points back by (dx, dy) is lawful.
fn covered_is_lawful(map: Raster<'_, Cell>, x: usize, y: usize, dx: usize, dy: usize) -> bool
    requires { Inside map.shape x y }
    ensures { result ≡ covered_ok (cells map.entry.shape map.entry.list.now) x y dx dy }
{
    if dx > x || dy > y {
        return false;
    }
    let Record::Lead { kind, .. } = map.get(x - dx, y - dy).holds else {
        return false;
    };
    match kind_size(kind) {
        Some(size) => (dx < size.width) & (dy < size.height),
        None => false,
    }
}

/// Whether the cell (x, y) is lawful.
fn cell_is_lawful(map: Raster<'_, Cell>, x: usize, y: usize) -> bool
    requires { Inside map.shape x y }
    ensures { result ≡ cell_ok map.entry.shape.width map.entry.shape.height (cells map.entry.shape map.entry.list.now) x y }
{
    match map.get(x, y).holds {
        Record::Empty => true,
        Record::Lead { kind, hf_mul } => lead_is_lawful(map, x, y, kind, hf_mul),
        Record::Covered { dx, dy } => covered_is_lawful(map, x, y, dx as usize, dy as usize),
    }
}

/// Refuses a map for its first unlawful cell in row order.
pub fn check_cells(map: Raster<'_, Cell>) -> Result<(), Refusal>
    ensures { result ≡ map_checked map.entry.shape.width map.entry.shape.height (cells map.entry.shape map.entry.list.now) }
{
    // nested row and column loops, left by a label with the place: a rule of the project
    'search: {
        for y in 0..map.shape.height {
            for x in 0..map.shape.width {
                if !cell_is_lawful(map, x, y) {
                    break 'search Err(Refusal::at(Reason::Map, 0, x, y));
                }
            }
        }
        Ok(())
    }
}
