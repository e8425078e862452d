//! What rebuild refuses, and what an accepted call works with.

ghost use Rattle.std.specs.Prelude.{◌≡◌, ◌*◌, nat_le};
ghost use Rattle.grid.specs.Plane.{viewed, seen};
ghost use Rattle.grid.specs.Channels.{all_viewed, all_seen, all_fit};
ghost use Rattle.varmap.specs.Cells.{cells};
ghost use Rattle.varmap.specs.Map.{map_checked};
ghost use Rattle.rebuild.specs.Answer.{rebuild_turn, rebuild_judged};
ghost use Rattle.rebuild.specs.Checked.{IsChecked};

use frame::{Frame, Stage};
use grid::{Raster, View, Xyb};
use refusal::{Reason, Refusal, require};
use varmap::{Cell, Map};

/// What an accepted call works with.
#[derive(Clone, Copy)]
pub struct Checked<'m, 'l> {
    pub map: Map<'m>,
    pub lf: Xyb<Raster<'l, f32>>,
}

/// Whether rebuild is accepted in this stage.
fn is_turn(stage: Stage) -> bool
    ensures { result ≡ rebuild_turn stage }
{
    matches!(stage, Stage::HfDequantised | Stage::HfCorrelated)
}

/// Whether so many numbers of scratch are enough.
fn is_enough(room: usize) -> bool
    ensures { result ≡ nat_le 512 room }
{
    room >= 512
}

/// What the call works with, if it is accepted; scratch has `room` numbers.
pub fn judge<'m, 'l>(
    frame: &Frame,
    samples: Xyb<View<'_, f32>>,
    map: View<'m, Cell>,
    lf: Xyb<View<'l, f32>>,
    room: usize,
) -> Result<Checked<'m, 'l>, Refusal>
    ensures { IsChecked (rebuild_judged frame.now.w8 frame.now.h8 frame.now.stage (all_fit (8 * frame.now.w8) (8 * frame.now.h8) (all_viewed samples.entry)) (viewed map.entry) (all_viewed lf.entry) room) (viewed map.entry) (all_viewed lf.entry) result }
{
    let (w8, h8) = (frame.w8(), frame.h8());
    require(is_turn(frame.stage()), Reason::Turn)?;
    require(samples.fit(8 * w8, 8 * h8), Reason::Shape)?;
    let map = map.sized(w8, h8).ok_or(Reason::Shape)?;
    let lf = lf.sized(w8, h8).ok_or(Reason::Shape)?;
    require(is_enough(room), Reason::Scratch)?;
    judge_map(map, lf)
}

/// The same, where only the cells of the map are left to check.
fn judge_map<'m, 'l>(
    map: Raster<'m, Cell>,
    lf: Xyb<Raster<'l, f32>>,
) -> Result<Checked<'m, 'l>, Refusal>
    ensures { IsChecked (map_checked map.entry.shape.width map.entry.shape.height (cells map.entry.shape map.entry.list.now)) (seen map.entry) (all_seen lf.entry) result }
{
    let map = Map::checked(map)?;
    Ok(Checked { map, lf })
}
