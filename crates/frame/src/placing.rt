//! `open` and `place`.

ghost use Rattle.std.specs.Prelude.{◌≡◌, ℕ, ◌+◌, ◌<◌, ◌≤◌, true, ◌&&◌, length, nat_le};
ghost use Rattle.grid.specs.Became.{Became};
ghost use Rattle.refusal.specs.Verdicts.{kept_or};
ghost use Rattle.kinds.specs.Kinds.{size_of};
ghost use Rattle.varmap.specs.Cells.{cells};
ghost use Rattle.frame.specs.Placing.{cells_ok, open_judged, Opened, emptied, stamp, free_checked, sized_placing, place_judged, place_answer, placed};

use crate::frame::Frame;
use crate::stages::Stage;
use grid::{Area, Brush, Grid, Raster, View};
use kinds::{Size, kind_size};
use refusal::{Reason, Refusal, require};
use varmap::{Cell, Map, Record, hf_mul_in_range};

impl Frame {
    /// Empties the map, and gives a frame of w8 × h8 cells in which nothing is placed yet.
    pub fn open(w8: usize, h8: usize, map: &mut Grid<Cell>) -> Result<Frame, Refusal>
        ensures answer { Opened w8 h8 (open_judged w8 h8 map.old.shape (length map.old.list.now)) result }
        ensures after { Became map.old map.new (kept_or result map.old.list.now (emptied map.old.shape map.old.list.now)) }
    {
        let sides = is_cells(w8) & is_cells(h8);
        require(sides & map.fits(w8, h8), Reason::Shape)?;
        map.fill_with(Cell::EMPTY);
        Ok(Frame {
            w8,
            h8,
            stage: Stage::Placing,
        })
    }

    /// Places a varblock of the kind, with its lead at (x, y).
    // a kind is a number here and below, so that one that is not carried can be passed and refused
    pub fn place(
        &self,
        map: &mut Grid<Cell>,
        kind: u32,
        x: usize,
        y: usize,
        hf_mul: u32,
    ) -> Result<u32, Refusal>
        ensures answer { result ≡ place_answer self.now.w8 self.now.h8 self.now.stage map.old.shape map.old.list.now kind x y hf_mul }
        ensures after { Became map.old map.new (kept_or result map.old.list.now (placed map.old.shape kind x y hf_mul map.old.list.now)) }
    {
        let Size { width, height } = self.judge(map.view(), kind, x, y, hf_mul)?;
        let area = Area {
            x,
            y,
            width,
            height,
        };
        map.paint(area, &Placing { kind, hf_mul });
        Ok(0)
    }

    /// The size of the varblock, if it may be placed.
    fn judge(
        &self,
        map: View<'_, Cell>,
        kind: u32,
        x: usize,
        y: usize,
        hf_mul: u32,
    ) -> Result<Size, Refusal>
        ensures { result ≡ place_judged self.now.w8 self.now.h8 self.now.stage map.entry.shape map.entry.list.now kind x y hf_mul }
    {
        require(self.stage.is_placing(), Reason::Turn)?;
        let grid = map.sized(self.w8, self.h8).ok_or(Reason::Shape)?;
        let map = Map::checked(grid)?;
        self.judge_block(map, kind, x, y, hf_mul)
    }

    /// The size of the varblock, if it may be placed in this map of the frame.
    fn judge_block(
        &self,
        map: Map<'_>,
        kind: u32,
        x: usize,
        y: usize,
        hf_mul: u32,
    ) -> Result<Size, Refusal>
        requires width { map.grid.shape.width ≡ self.now.w8 }
        requires height { map.grid.shape.height ≡ self.now.h8 }
        ensures { result ≡ sized_placing self.now.w8 self.now.h8 (cells map.entry.grid.shape map.entry.grid.list.now) x y hf_mul (size_of kind) }
    {
        let size = kind_size(kind).ok_or(Reason::Kind)?;
        let inside = reaches(self.w8, x, size.width) & reaches(self.h8, y, size.height);
        require(inside, Reason::Place)?;
        check_free(map.grid, x, y, size)?;
        require(hf_mul_in_range(hf_mul), Reason::Range)?;
        Ok(size)
    }
}

/// Whether a frame may have so many cells across or down.
// a range of its own, as `hf_mul_in_range` and `is_scale`: the two bounds are the rule
fn is_cells(n: usize) -> bool
    ensures { result ≡ cells_ok n }
{
    (1 <= n) & (n <= 128)
}

/// Whether `len` cells from `start` on end by `end`.
fn reaches(end: usize, start: usize, len: usize) -> bool
    ensures { result ≡ nat_le (start + len) end }
{
    len <= end && start <= end - len
}

/// Refuses a rectangle of the map for its first cell in row order that is not empty.
fn check_free(map: Raster<'_, Cell>, x: usize, y: usize, size: Size) -> Result<(), Refusal>
    requires wide { 1 ≤ size.width }
    requires across { x + size.width ≤ map.shape.width }
    requires down { y + size.height ≤ map.shape.height }
    ensures { result ≡ free_checked (cells map.entry.shape map.entry.list.now) x y size }
{
    // counted: the refusal names the place
    for j in 0..size.height {
        for i in 0..size.width {
            if !map.get(x + i, y + j).is_empty() {
                return Err(Refusal::at(Reason::Taken, 0, x + i, y + j));
            }
        }
    }
    Ok(())
}

/// Makes the cells of a varblock.
#[derive(Drop)]
struct Placing {
    kind: u32,
    hf_mul: u32,
}

impl Brush<Cell> for Placing {
    ghost ready = { λ _ i j. (i < 32) × (j < 32) };

    ghost made = { λ s. stamp s.kind s.hf_mul };

    fn stroke(&self, i: usize, j: usize, _old: Cell) -> Cell {
        let holds = if (i == 0) & (j == 0) {
            Record::Lead {
                kind: self.kind,
                hf_mul: self.hf_mul,
            }
        } else {
            Record::Covered {
                dx: i as u32,
                dy: j as u32,
            }
        };
        Cell { holds }
    }
}
