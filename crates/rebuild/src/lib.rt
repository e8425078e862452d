//! rebuild, over any kernel.

#![tactic(auto)]

mod judge;
mod work;

ghost use Rattle.std.specs.Prelude.{◌≡◌, ◌≤◌, true, length, is_err};
ghost use Rattle.grid.specs.Became.{Became};
ghost use Rattle.grid.specs.Plane.{viewed, seen, lent};
ghost use Rattle.grid.specs.Channels.{planes, all_viewed};
ghost use Rattle.refusal.specs.Verdicts.{kept_or};
ghost use Rattle.frame.specs.declared.stages.Stage.TheVariants as stage;
ghost use Rattle.frame.specs.Stages.{InStage};
ghost use Rattle.blocks.specs.Walk.{leads_of};
ghost use Rattle.kernel.specs.Maps.{maps};
ghost use Rattle.rebuild.specs.Rebuilt.{Rebuildable, rebuilt};
ghost use Rattle.rebuild.specs.Answer.{rebuild_answer};

use blocks::each_block;
use frame::{Frame, Stage};
use grid::{Grid, Raster, View, Xyb, views};
use judge::{Checked, judge};
use kernel::Kernel;
use refusal::Refusal;
use varmap::{Cell, Map};
use work::Rebuilding;

/// One channel, and how many varblocks it has.
fn rebuild_channel<K: Kernel>(
    map: Map,
    out: &mut Grid<f32>,
    kernel: &K,
    lf: Raster<f32>,
    scratch: &mut [f32],
) -> usize
    requires { Rebuildable map (seen lf) (lent out.old) (length scratch.old) }
    ensures samples { Became out.old out.new (rebuilt (maps K.Kernel.fwd K.Kernel.inv) (seen map.entry.grid) (seen lf.entry) (lent out.old)) }
    ensures count { result ≡ length (leads_of map.entry) }
{
    let shape = out.shape;
    let work = Rebuilding { kernel, lf };
    each_block(map, out.list, shape, &work, scratch)
}

/// The three channels, and how many varblocks there are.
fn rebuild_channels<K: Kernel>(
    checked: Checked,
    kernel: &K,
    x: &mut Grid<f32>,
    y: &mut Grid<f32>,
    b: &mut Grid<f32>,
    scratch: &mut [f32],
) -> usize
    requires x { Rebuildable checked.map (seen checked.lf.x) (lent x.old) (length scratch.old) }
    requires y { Rebuildable checked.map (seen checked.lf.y) (lent y.old) (length scratch.old) }
    requires b { Rebuildable checked.map (seen checked.lf.b) (lent b.old) (length scratch.old) }
    ensures x { Became x.old x.new (rebuilt (maps K.Kernel.fwd K.Kernel.inv) (seen checked.entry.map.grid) (seen checked.entry.lf.x) (lent x.old)) }
    ensures y { Became y.old y.new (rebuilt (maps K.Kernel.fwd K.Kernel.inv) (seen checked.entry.map.grid) (seen checked.entry.lf.y) (lent y.old)) }
    ensures b { Became b.old b.new (rebuilt (maps K.Kernel.fwd K.Kernel.inv) (seen checked.entry.map.grid) (seen checked.entry.lf.b) (lent b.old)) }
    ensures count { result ≡ length (leads_of checked.entry.map) }
{
    let Checked { map, lf } = checked;
    let count = rebuild_channel(map, x, kernel, lf.x, scratch);
    let _ = rebuild_channel(map, y, kernel, lf.y, scratch);
    let _ = rebuild_channel(map, b, kernel, lf.b, scratch);
    count
}

/// The number of leads as the answer.
// a conversion with its bound, which `as` has not
fn answer_of(count: usize) -> u32
    requires { count ≤ 16384 }
    ensures { result ≡ count }
{
    count as u32
}

/// Each varblock's samples become the kernel's image of them, with the corner made of the LF samples; all other
/// samples stay. Answers the number of leads.
// a grid for each channel and no `Xyb` of them: of a list that is lent in a struct of structs a host would know nothing afterwards
pub fn rebuild<K: Kernel>(
    frame: &mut Frame,
    kernel: &K,
    map: View<Cell>,
    lf: Xyb<View<f32>>,
    x: &mut Grid<f32>,
    y: &mut Grid<f32>,
    b: &mut Grid<f32>,
    scratch: &mut [f32],
) -> Result<u32, Refusal>
    ensures answer { result ≡ rebuild_answer frame.old.w8 frame.old.h8 frame.old.stage (viewed map.entry) (planes (viewed lf.entry.x) (viewed lf.entry.y) (viewed lf.entry.b)) (planes (lent x.old) (lent y.old) (lent b.old)) (length scratch.old) }
    ensures frame { InStage frame.old frame.new (kept_or result frame.old.stage stage.Rebuilt) }
    ensures x { Became x.old x.new (kept_or result x.old.list.now (rebuilt (maps K.Kernel.fwd K.Kernel.inv) (viewed map.entry) (viewed lf.entry.x) (lent x.old))) }
    ensures y { Became y.old y.new (kept_or result y.old.list.now (rebuilt (maps K.Kernel.fwd K.Kernel.inv) (viewed map.entry) (viewed lf.entry.y) (lent y.old))) }
    ensures b { Became b.old b.new (kept_or result b.old.list.now (rebuilt (maps K.Kernel.fwd K.Kernel.inv) (viewed map.entry) (viewed lf.entry.b) (lent b.old))) }
    ensures scratch { is_err result ≡ true → scratch.new ≡ scratch.old }
{
    let checked = judge(frame, views(x, y, b), map, lf, scratch.len())?;
    let count = rebuild_channels(checked, kernel, x, y, b, scratch);
    frame.lead_to(Stage::Rebuilt);
    Ok(answer_of(count))
}
