//! Three channels that a test or a program owns.

ghost use Rattle.std.specs.Prelude.{◌≡◌, ◌*◌, IfOk};
ghost use Rattle.trials.specs.Lists.{EachLong};

use crate::channels::{grids, views};
use crate::lists::filled;
use grid::{Grid, Shape, View, Xyb};
use std::alloc::Global;
use std::io;
use std::num::f32_to_bits_with_nan;

/// A list for each channel, in grids of one shape.
#[derive(Drop)]
pub struct Picture<T> {
    pub lists: Xyb<Vec<T>>,
    pub shape: Shape,
}

impl<T: Copy> Picture<T> {
    /// The elements of X, Y and B within the width as they are drawn, and the others `beyond`.
    pub fn drawn<F: FnMut() -> anyhow::Result<T> + Drop>(
        alloc: Global,
        shape: Shape,
        beyond: T,
        mut draw: F,
    ) -> anyhow::Result<Self>
        requires { (state : F) → F.pre state }
        ensures shape { IfOk result (λ p. p.shape ≡ shape) }
        ensures lists { IfOk result (λ p. EachLong p.lists (shape.height * shape.stride)) }
    {
        let lists = Xyb {
            x: filled(alloc, shape, beyond, &mut draw)?,
            y: filled(alloc, shape, beyond, &mut draw)?,
            b: filled(alloc, shape, beyond, &mut draw)?,
        };
        Ok(Picture { lists, shape })
    }

    /// The three grids, for reading alone.
    pub fn views(&self) -> Xyb<View<'_, T>>
        ensures x { (result.x.list.now ≡ self.now.lists.x.items) × (result.x.shape ≡ self.now.shape) }
        ensures y { (result.y.list.now ≡ self.now.lists.y.items) × (result.y.shape ≡ self.now.shape) }
        ensures b { (result.b.list.now ≡ self.now.lists.b.items) × (result.b.shape ≡ self.now.shape) }
    {
        let Xyb { x, y, b } = &self.lists;
        views(x.as_slice(), y.as_slice(), b.as_slice(), self.shape)
    }

    /// The three grids.
    pub fn grids(&mut self) -> Xyb<Grid<'_, T>>
        ensures x { (result.x.list.now ≡ self.old.lists.x.items) × (result.x.shape ≡ self.old.shape) }
        ensures y { (result.y.list.now ≡ self.old.lists.y.items) × (result.y.shape ≡ self.old.shape) }
        ensures b { (result.b.list.now ≡ self.old.lists.b.items) × (result.b.shape ≡ self.old.shape) }
    {
        let shape = self.shape;
        let Xyb { x, y, b } = &mut self.lists;
        grids(x.as_mut_slice(), y.as_mut_slice(), b.as_mut_slice(), shape)
    }
}

impl Picture<f32> {
    /// Prints the three channels, each with its name behind `prefix`.
    pub fn show(&self, rt: &HostRuntime, prefix: &str) -> io::Result<()> {
        let stride = self.shape.stride;
        let Xyb { x, y, b } = &self.lists;
        show(rt, prefix, "x", stride, x.as_slice())?;
        show(rt, prefix, "y", stride, y.as_slice())?;
        show(rt, prefix, "b", stride, b.as_slice())
    }
}

/// Prints a line for each row: the bits of its first number, and a sum over the bits of all.
fn show(rt: &HostRuntime, prefix: &str, name: &str, stride: usize, list: &[f32]) -> io::Result<()> {
    for (row, samples) in list.chunks(stride.max(1)).enumerate() {
        let first = samples.first().map_or(0, |v| f32_to_bits_with_nan(*v));
        let sum = samples.iter().fold(0u32, |sum, v| {
            sum.wrapping_mul(31).wrapping_add(f32_to_bits_with_nan(*v))
        });
        println!(rt; "{prefix}{name} {row} {first} {sum}")?;
    }
    Ok(())
}
