//! A kernel: a forward map of patches and an inverse map of blocks.

#![tactic(auto)]

ghost use Rattle.std.specs.Prelude.{◌≡◌, ℕ, ◌+◌, ◌≤◌, true, length};
ghost use Rattle.grid.specs.Drawn.{Drawn};
ghost use Rattle.grid.specs.Index.{Lawful, sub, start};
ghost use Rattle.dct_2d.specs.Plane.{Patch};
ghost use Rattle.kernel.specs.Maps.{maps, forwarded, inverted, side, BlockOf, imaged};
ghost use Rattle.kernel.specs.Flat.{Flat};
ghost use Rattle.kernel.specs.Calls.{Replaces};

use grid::{Area, Canvas, Shape};

/// Two maps with the flat law. A call replaces the patch by its image, and writes nothing else but scratch;
/// for another patch or kind, or scratch below 512 numbers, it writes nothing. No call changes the kernel.
pub trait Kernel {
    /// From the width, the height (powers of two up to 32) and a patch to a patch.
    ghost fwd: { ℕ → ℕ → Patch → Patch };

    /// From a kind and its block to a block.
    ghost inv: { ℕ → Patch → Patch };

    // a list and a shape: no `Canvas` is made of a part of another one's list, since nothing is known of that list afterwards
    fn forward(&self, list: &mut [f32], shape: Shape, scratch: &mut [f32])
        ensures { list.new ≡ forwarded fwd shape (length scratch.old) list.old };

    // a kind is a number here and below: another is passed, and nothing is written
    fn inverse(&self, kind: u32, list: &mut [f32], shape: Shape, scratch: &mut [f32])
        ensures { list.new ≡ inverted inv kind shape (length scratch.old) list.old };

    ghost flat: { Flat (maps fwd inv) };
}

/// Where the numbers of an area begin in the list of its grid.
#[tactic(auto, using(crate::proofs::Patches::part_below))]
fn start_of(canvas: &Canvas<f32>, area: Area) -> usize
    requires wide { 1 ≤ area.width }
    requires tall { 1 ≤ area.height }
    requires across { area.x + area.width ≤ canvas.now.shape.width }
    requires down { area.y + area.height ≤ canvas.now.shape.height }
    ensures place { result ≡ start canvas.now.shape area.x area.y area.height }
    ensures within { result ≤ length canvas.now.list.now }
{
    canvas.shape.start(area.x, area.y, area.height)
}

/// The numbers of an area become what a call makes of them as a patch of their own.
// an area within a canvas is a fact on two values, here and below, and scratch of 512 numbers one on a slice that is only handed on: no type of one of them says it
fn over_area<F: FnOnce(&mut [f32], Shape, &mut [f32])>(
    call: F,
    canvas: &mut Canvas<f32>,
    area: Area,
    scratch: &mut [f32],
)
    requires can { F.IsAlwaysCallable call }
    requires wide { 1 ≤ area.width }
    requires tall { 1 ≤ area.height }
    requires across { area.x + area.width ≤ canvas.old.shape.width }
    requires down { area.y + area.height ≤ canvas.old.shape.height }
    ensures { (image : Patch → Patch) → Replaces (F.post call) (sub canvas.old.shape area.width area.height) (length scratch.old) image → Drawn canvas.old canvas.new (imaged canvas.old.shape area image canvas.old.list.now) }
{
    let start = start_of(canvas, area);
    let part = canvas.shape.patch(area.width, area.height);
    call(&mut canvas.list[start..], part, scratch);
}

/// A patch of a canvas becomes its forward image.
fn forward_over<K: Kernel>(kernel: &K, canvas: &mut Canvas<f32>, area: Area, scratch: &mut [f32])
    requires wide { side area.width ≡ true }
    requires tall { side area.height ≡ true }
    requires across { area.x + area.width ≤ canvas.old.shape.width }
    requires down { area.y + area.height ≤ canvas.old.shape.height }
    requires room { 512 ≤ length scratch.old }
    ensures { Drawn canvas.old canvas.new (imaged canvas.old.shape area (K.Kernel.fwd area.width area.height) canvas.old.list.now) }
{
    let call = |list: &mut [f32], part: Shape, scratch: &mut [f32]|
        ensures { list.new ≡ forwarded K.Kernel.fwd part (length scratch.old) list.old }
    {
        kernel.forward(list, part, scratch);
    };
    over_area(call, canvas, area, scratch);
}

/// A patch of a grid becomes its forward image.
// a list and a shape, here and below: a caller that reaches its list through another reference makes no `Canvas` of it, since nothing would be known of that list afterwards
pub fn forward_patch<K: Kernel>(
    kernel: &K,
    list: &mut [f32],
    shape: Shape,
    area: Area,
    scratch: &mut [f32],
)
    requires lawful { Lawful shape (length list.old) }
    requires wide { side area.width ≡ true }
    requires tall { side area.height ≡ true }
    requires across { area.x + area.width ≤ shape.width }
    requires down { area.y + area.height ≤ shape.height }
    requires room { 512 ≤ length scratch.old }
    ensures { list.new ≡ imaged shape area (K.Kernel.fwd area.width area.height) list.old }
{
    let canvas = &mut Canvas { list, shape };
    forward_over(kernel, canvas, area, scratch);
}

/// A block of a canvas becomes its inverse image.
fn inverse_over<K: Kernel>(
    kernel: &K,
    kind: u32,
    canvas: &mut Canvas<f32>,
    area: Area,
    scratch: &mut [f32],
)
    requires block { BlockOf kind area }
    requires wide { 1 ≤ area.width }
    requires tall { 1 ≤ area.height }
    requires across { area.x + area.width ≤ canvas.old.shape.width }
    requires down { area.y + area.height ≤ canvas.old.shape.height }
    requires room { 512 ≤ length scratch.old }
    ensures { Drawn canvas.old canvas.new (imaged canvas.old.shape area (K.Kernel.inv kind) canvas.old.list.now) }
{
    let call = |list: &mut [f32], part: Shape, scratch: &mut [f32]|
        ensures { list.new ≡ inverted K.Kernel.inv kind part (length scratch.old) list.old }
    {
        kernel.inverse(kind, list, part, scratch);
    };
    over_area(call, canvas, area, scratch);
}

/// A block of a grid becomes its inverse image.
pub fn inverse_patch<K: Kernel>(
    kernel: &K,
    kind: u32,
    list: &mut [f32],
    shape: Shape,
    area: Area,
    scratch: &mut [f32],
)
    requires lawful { Lawful shape (length list.old) }
    requires block { BlockOf kind area }
    requires wide { 1 ≤ area.width }
    requires tall { 1 ≤ area.height }
    requires across { area.x + area.width ≤ shape.width }
    requires down { area.y + area.height ≤ shape.height }
    requires room { 512 ≤ length scratch.old }
    ensures { list.new ≡ imaged shape area (K.Kernel.inv kind) list.old }
{
    let canvas = &mut Canvas { list, shape };
    inverse_over(kernel, kind, canvas, area, scratch);
}
