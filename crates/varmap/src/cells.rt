//! A cell of the map.

ghost use Rattle.std.specs.Prelude.{◌≡◌};
ghost use Rattle.varmap.specs.Cells.{is_empty};

/// What the map holds for one cell.
#[derive(Clone, Copy, PartialEq, Eq, Debug)]
pub struct Cell {
    pub holds: Record,
}

#[derive(Clone, Copy, PartialEq, Eq, Debug)]
pub enum Record {
    /// No varblock lies here.
    Empty,
    /// The top left cell of a varblock.
    // any number, since a host lends the map; its check refuses a kind that is not carried
    Lead { kind: u32, hf_mul: u32 },
    /// Another cell of a varblock, whose lead is `dx` cells left and `dy` cells up.
    Covered { dx: u32, dy: u32 },
}

impl Cell {
    pub const EMPTY: Cell = Cell {
        holds: Record::Empty,
    };

    pub fn is_empty(self) -> bool
        ensures { result ≡ is_empty self.holds }
    {
        matches!(self.holds, Record::Empty)
    }
}
