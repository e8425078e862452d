//! Varblocks with their sizes.

ghost use Rattle.std.specs.Prelude.{◌≡◌, ◌+◌, ◌*◌, ◌^◌, ◌<◌, Some};
ghost use Rattle.kinds.specs.Kinds.{size_of};

use crate::leads::Varblock;
use grid::Area;
use kinds::Size;

/// The block of a varblock whose kind is carried: the varblock, and its size in cells.
#[derive(Clone, Copy)]
pub struct Block {
    pub varblock: Varblock,
    pub size: Size,
    pub ghost carried: { size_of varblock.kind ≡ Some size },
}

impl Block {
    ghost use Rattle.blocks.specs.Areas.{area_of, corner_of};

    /// Its samples.
    pub fn area(self) -> Area
        requires across { 8 * self.varblock.x + 8 * self.size.width < 2 ^ 64 }
        requires down { 8 * self.varblock.y + 8 * self.size.height < 2 ^ 64 }
        ensures { result ≡ area_of self }
    {
        Area {
            x: 8 * self.varblock.x,
            y: 8 * self.varblock.y,
            width: 8 * self.size.width,
            height: 8 * self.size.height,
        }
    }

    /// Its corner: the top left samples, as many as the varblock has cells.
    pub fn corner(self) -> Area
        requires across { 8 * self.varblock.x < 2 ^ 64 }
        requires down { 8 * self.varblock.y < 2 ^ 64 }
        ensures { result ≡ corner_of self }
    {
        Area {
            x: 8 * self.varblock.x,
            y: 8 * self.varblock.y,
            width: self.size.width,
            height: self.size.height,
        }
    }
}
