//! Two calls as a host makes them, and what it then knows of its own lists.

ghost use Rattle.std.specs.Prelude.{◌≡◌, ◌+◌, ◌≤◌, true, length};
ghost use Rattle.grid.specs.Index.{Lawful};
ghost use Rattle.grid.specs.Plane.{viewed};
ghost use Rattle.refusal.specs.Verdicts.{kept_or};
ghost use Rattle.kernel.specs.Maps.{maps, side, imaged};
ghost use Rattle.rebuild.specs.Rebuilt.{rebuilt};

use frame::Frame;
use grid::{Area, Grid, Shape, View, Xyb};
use kernel::{Kernel, forward_patch};
use rebuild::rebuild;
use refusal::Refusal;
use varmap::Cell;

/// rebuild over three lists of one shape.
// each grid is made behind a reference of its own: what a call leaves of a list two structs deep is not known afterwards
pub fn rebuild_lists<K: Kernel>(
    frame: &mut Frame,
    kernel: &K,
    map: View<Cell>,
    lf: Xyb<View<f32>>,
    x: &mut [f32],
    y: &mut [f32],
    b: &mut [f32],
    shape: Shape,
    scratch: &mut [f32],
) -> Result<u32, Refusal>
    ensures x { x.new ≡ kept_or result x.old (rebuilt (maps K.Kernel.fwd K.Kernel.inv) (viewed map.entry) (viewed lf.entry.x) (record { shape = shape; list = x.old })) }
    ensures y { y.new ≡ kept_or result y.old (rebuilt (maps K.Kernel.fwd K.Kernel.inv) (viewed map.entry) (viewed lf.entry.y) (record { shape = shape; list = y.old })) }
    ensures b { b.new ≡ kept_or result b.old (rebuilt (maps K.Kernel.fwd K.Kernel.inv) (viewed map.entry) (viewed lf.entry.b) (record { shape = shape; list = b.old })) }
{
    let x = &mut Grid { list: x, shape };
    let y = &mut Grid { list: y, shape };
    let b = &mut Grid { list: b, shape };
    rebuild(frame, kernel, map, lf, x, y, b, scratch)
}

/// The kernel's forward map, over an area of a grid.
pub fn forward_area<K: Kernel>(kernel: &K, grid: &mut Grid<f32>, area: Area, scratch: &mut [f32])
    requires lawful { Lawful grid.old.shape (length grid.old.list.now) }
    requires wide { side area.width ≡ true }
    requires tall { side area.height ≡ true }
    requires across { area.x + area.width ≤ grid.old.shape.width }
    requires down { area.y + area.height ≤ grid.old.shape.height }
    requires room { 512 ≤ length scratch.old }
    ensures { grid.new.list.now ≡ imaged grid.old.shape area (K.Kernel.fwd area.width area.height) grid.old.list.now }
{
    let shape = grid.shape;
    forward_patch(kernel, grid.list, shape, area, scratch);
}
