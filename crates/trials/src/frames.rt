//! Frames to begin with.

ghost use Rattle.std.specs.Prelude.{◌≡◌, ◌*◌, ◌<◌, ◌≤◌, IfOk, length, is_err};
ghost use Rattle.frame.specs.Placing.{open_judged, emptied};
ghost use Rattle.refusal.specs.Verdicts.{kept_or};

use crate::source::Source;
use frame::{Frame, Stage};
use grid::{Grid, Shape};
use refusal::Refusal;
use varmap::Cell;

/// A frame over an empty map of this shape, in a stage.
pub fn opened(list: &mut [Cell], shape: Shape, stage: Stage) -> Result<Frame, Refusal>
    ensures size { IfOk result (λ f. (f.w8 ≡ shape.width) × (f.h8 ≡ shape.height)) }
    ensures stage { IfOk result (λ f. f.stage ≡ stage) }
    ensures refused { is_err result ≡ is_err (open_judged shape.width shape.height shape (length list.old)) }
    ensures after { list.new ≡ kept_or result list.old (emptied shape list.old) }
{
    let map = &mut Grid { list, shape };
    let mut frame = Frame::open(shape.width, shape.height, map)?;
    frame.lead_to(stage);
    Ok(frame)
}

/// Places varblocks at random in row order, of the first `kinds` kinds that are carried, and none at one cell of `odds`; counts
/// those that are accepted.
pub fn lay_out(
    source: &mut Source,
    frame: &Frame,
    map: &mut Grid<Cell>,
    kinds: u32,
    odds: u32,
) -> u32
    requires some { 1 ≤ kinds }
    requires carried { kinds ≤ 23 }
    requires odds { 1 ≤ odds }
    ensures { result ≤ frame.now.w8 * frame.now.h8 }
{
    let mut leads = 0;
    // counted: a varblock is placed at a place
    for y in 0..frame.h8() {
        for x in 0..frame.w8() {
            let kind = carried(source.draw(kinds));
            let hf_mul = 1 + source.draw(255);
            if source.draw(odds) > 0 && frame.place(map, kind, x, y, hf_mul).is_ok() {
                leads += 1;
            }
        }
    }
    leads
}

/// The kind that `pick` others that are carried come before.
fn carried(pick: u32) -> u32
    requires { pick < 23 }
{
    if pick < 14 { pick } else { pick + 4 }
}
