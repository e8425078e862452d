//! A map that is known to be lawful.

ghost use Rattle.std.specs.Prelude.{◌≡◌, length};
ghost use Rattle.varmap.specs.Cells.{cells};
ghost use Rattle.varmap.specs.Map.{LawfulMap};

use crate::cells::Cell;
use crate::lawful::check_cells;
use grid::Raster;
use refusal::Refusal;

/// A lawful map: each of its cells is lawful.
#[derive(Clone, Copy)]
pub struct Map<'a> {
    pub grid: Raster<'a, Cell>,
    pub ghost lawful: { LawfulMap grid.shape.width grid.shape.height (cells grid.shape grid.list.now) },
}

impl<'a> Map<'a> {
    ghost use Rattle.grid.specs.Plane.{seen};
    ghost use Rattle.varmap.specs.Checked.{IsMap};

    /// The map over these cells; it is refused for its first unlawful cell in row order.
    pub fn checked(grid: Raster<'a, Cell>) -> Result<Map<'a>, Refusal>
        ensures { IsMap (seen grid.entry) result }
    {
        check_cells(grid)?;
        Ok(Map { grid })
    }
}
