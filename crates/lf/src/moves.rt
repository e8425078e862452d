//! What LF smooth lays out in scratch, and a channel that moves by it.

ghost use Rattle.std.specs.Float.{float_max};
ghost use Rattle.std.specs.Prelude.{◌≡◌, ◌+◌, ◌-◌, ◌^◌, ◌<◌, length, Float};
ghost use Rattle.grid.specs.Index.{Inside, Lawful};
ghost use Rattle.grid.specs.Became.{Became};
ghost use Rattle.grid.specs.Plane.{Plane, lent, laid, seen};
ghost use Rattle.grid.specs.Channels.{planes};
ghost use Rattle.lf.specs.Smooth.{change as change_of, gap as gap_of, share as share_of, shared, moved, Holds, SameSize, Fits, AllFit, Around, lf_smoothed};

use crate::around::{change, sample_at};
use grid::{Area, Brush, Canvas, Grid, Raster, Shape, Xyb};

/// A lawful grid, for reading alone.
pub fn raster<'a>(grid: &'a Grid<'_, f32>) -> Raster<'a, f32>
    requires { Lawful grid.now.shape (length grid.now.list.now) }
    ensures list { result.list.now ≡ grid.now.list.now }
    ensures shape { result.shape ≡ grid.now.shape }
{
    Raster {
        list: grid.list,
        shape: grid.shape,
    }
}

/// Scratch in three parts: the changes of X and later of B, those of Y, and how much of its changes each cell makes.
#[derive(Drop)]
pub struct Parts<'a> {
    pub changes: Canvas<'a, f32>,
    pub y_changes: Canvas<'a, f32>,
    pub shares: Canvas<'a, f32>,
    ghost alike: { (changes.shape ≡ shares.shape) × (y_changes.shape ≡ shares.shape) },
}

/// The changes of X and of Y, and how much of its changes each cell makes.
pub fn look_around(x: &Grid<f32>, y: &Grid<f32>, b: &Grid<f32>, steps: Xyb<f32>, parts: &mut Parts)
    requires { AllFit (planes (lent x.now) (lent y.now) (lent b.now)) parts.old.shares.shape }
    ensures shape { parts.new.shares.shape ≡ parts.old.shares.shape }
    ensures x { Holds parts.old.shares.shape.width parts.old.shares.shape.height (laid parts.new.changes) (change_of (lent x.now)) }
    ensures y { Holds parts.old.shares.shape.width parts.old.shares.shape.height (laid parts.new.y_changes) (change_of (lent y.now)) }
    ensures share { Holds parts.old.shares.shape.width parts.old.shares.shape.height (laid parts.new.shares) (share_of (planes (lent x.now) (lent y.now) (lent b.now)) steps) }
{
    write_changes(raster(x), &mut parts.changes);
    write_changes(raster(y), &mut parts.y_changes);
    let share = Share {
        x: parts.changes.raster(),
        y: parts.y_changes.raster(),
        b: raster(b),
        steps,
    };
    write_shares(&share, &mut parts.shares);
}

/// All but the border.
fn inner(shape: Shape) -> Area
    ensures { result ≡ record { x = 1; y = 1; width = shape.width - 2; height = shape.height - 2 } }
{
    Area {
        x: 1,
        y: 1,
        width: shape.width.saturating_sub(2),
        height: shape.height.saturating_sub(2),
    }
}

/// The changes of a channel, into `changes`.
pub fn write_changes(samples: Raster<f32>, changes: &mut Canvas<f32>)
    requires { SameSize samples.shape changes.old.shape }
    ensures shape { changes.new.shape ≡ changes.old.shape }
    ensures holds { Holds changes.old.shape.width changes.old.shape.height (laid changes.new) (change_of (seen samples.entry)) }
{
    changes.paint(inner(changes.shape), &Change { samples });
}

/// How much of its change each cell makes, into `shares`.
fn write_shares(share: &Share, shares: &mut Canvas<f32>)
    requires x { SameSize share.now.x.shape shares.old.shape }
    requires y { SameSize share.now.y.shape shares.old.shape }
    requires b { SameSize share.now.b.shape shares.old.shape }
    ensures shape { shares.new.shape ≡ shares.old.shape }
    ensures holds { (x y : Plane Float) → Holds shares.old.shape.width shares.old.shape.height (seen share.now.x) (change_of x) → Holds shares.old.shape.width shares.old.shape.height (seen share.now.y) (change_of y) → Holds shares.old.shape.width shares.old.shape.height (laid shares.new) (share_of (planes x y (seen share.now.b)) share.now.steps) }
{
    shares.paint(inner(shares.shape), share);
}

/// A channel moves by its changes, as much of them as `shares` says.
pub fn move_channel(samples: &mut Grid<f32>, changes: Raster<f32>, shares: Raster<f32>)
    requires fits { Fits (lent samples.old) changes.shape }
    requires shares { SameSize shares.shape changes.shape }
    ensures fits { Fits (lent samples.new) changes.entry.shape }
    ensures smoothed { (lf : Xyb (Plane Float)) (steps : Xyb Float) → Holds changes.entry.shape.width changes.entry.shape.height (seen changes.entry) (change_of (lent samples.old)) → Holds changes.entry.shape.width changes.entry.shape.height (seen shares.entry) (share_of lf steps) → Became samples.old samples.new (lf_smoothed changes.entry.shape.width changes.entry.shape.height lf steps (lent samples.old)) }
{
    samples.paint(inner(changes.shape), &Moved { changes, shares });
}

/// The change of a cell: the area begins at (1, 1), so it is the cell (i + 1, j + 1).
#[derive(Clone, Copy)]
struct Change<'a> {
    samples: Raster<'a, f32>,
}

impl<'a> Brush<f32> for Change<'a> {
    ghost ready = { λ s i j. Around s.samples.shape 1 1 (i + 1) (j + 1) × (j + 1 < 2 ^ 64) };

    ghost made = { λ s i j old. change_of (seen s.samples) (i + 1) (j + 1) };

    fn stroke(&self, i: usize, j: usize, _old: f32) -> f32 {
        change(self.samples, i + 1, j + 1)
    }
}

/// How much of its change a cell makes, from the changes of X and Y and the samples of B.
#[derive(Clone, Copy)]
struct Share<'x, 'y, 'b> {
    x: Raster<'x, f32>,
    y: Raster<'y, f32>,
    b: Raster<'b, f32>,
    steps: Xyb<f32>,
}

impl<'x, 'y, 'b> Brush<f32> for Share<'x, 'y, 'b> {
    ghost ready = { λ s i j. Inside s.x.shape (i + 1) (j + 1) × Inside s.y.shape (i + 1) (j + 1) × Around s.b.shape 1 1 (i + 1) (j + 1) × (j + 1 < 2 ^ 64) };

    ghost made = { λ s i j old. shared s.steps (seen s.x) (seen s.y) (seen s.b) (i + 1) (j + 1) };

    fn stroke(&self, i: usize, j: usize, _old: f32) -> f32 {
        let (x, y) = (i + 1, j + 1);
        let x_gap = gap(self.steps.x, sample_at(self.x, x, y));
        let y_gap = gap(self.steps.y, sample_at(self.y, x, y));
        let b_gap = gap(self.steps.b, change(self.b, x, y));
        let most_gap = larger(larger(larger(0.5, x_gap), y_gap), b_gap);
        larger(3.0 - 4.0 * most_gap, 0.0)
    }
}

/// The larger of two: the first where they compare equal, the other where one is NaN.
fn larger(a: f32, b: f32) -> f32
    ensures { result ≡ float_max a b }
{
    if (b <= a) | b.is_nan() { a } else { b }
}

/// A change in steps.
fn gap(step: f32, change: f32) -> f32
    ensures { result ≡ gap_of step change }
{
    change.abs() / step
}

/// Adds a part of the change.
#[derive(Clone, Copy)]
struct Moved<'c, 's> {
    changes: Raster<'c, f32>,
    shares: Raster<'s, f32>,
}

impl<'c, 's> Brush<f32> for Moved<'c, 's> {
    ghost ready = { λ s i j. Inside s.changes.shape (i + 1) (j + 1) × Inside s.shares.shape (i + 1) (j + 1) × (j + 1 < 2 ^ 64) };

    ghost made = { λ s i j. moved (seen s.changes) (seen s.shares) (i + 1) (j + 1) };

    fn stroke(&self, i: usize, j: usize, old: f32) -> f32 {
        let (x, y) = (i + 1, j + 1);
        sample_at(self.changes, x, y) * sample_at(self.shares, x, y) + old
    }
}
