//! The leaf that finds leads. Nothing else looks for them.

ghost use Rattle.std.specs.Prelude.{◌≡◌, ◌+◌, ◌^◌, ◌<◌};
ghost use Rattle.varmap.specs.Cells.{cells};
ghost use Rattle.blocks.specs.Leads.{number, NextLead};

use grid::Raster;
use varmap::{Cell, Record};

/// A varblock, by the place of its lead and what the lead carries.
#[derive(Clone, Copy)]
pub struct Varblock {
    pub x: usize,
    pub y: usize,
    // a number, as the map holds it: docs/DECISIONS.md says why kinds stay numbers
    pub kind: u32,
    pub hf_mul: u32,
}

impl Varblock {
    /// The number of the cell that follows the lead, in row order in a map of this width.
    pub fn next_cell(self, width: usize) -> usize
        requires { number width self + 1 < 2 ^ 64 }
        ensures { result ≡ number width self + 1 }
    {
        self.y * width + self.x + 1
    }
}

/// The varblock of the first lead whose cell has the number `from` or a higher one. Cells are numbered in row order.
pub fn next_lead(map: Raster<'_, Cell>, from: usize) -> Option<Varblock>
    ensures { NextLead map.entry.shape.width map.entry.shape.height (cells map.entry.shape map.entry.list.now) from result }
{
    let width = map.shape.width;
    let count = width * map.shape.height;
    // counted: leads are found by the numbers of cells, and the list of a map has gaps between its rows
    for k in from..count {
        let (x, y) = (k % width, k / width);
        if let Record::Lead { kind, hf_mul } = map.get(x, y).holds {
            return Some(Varblock { x, y, kind, hf_mul });
        }
    }
    None
}
