//! What there is once for each channel.

ghost use Rattle.std.specs.Prelude.{◌≡◌, ℕ, Bool, ◌&&◌, [], ◌∷◌};
ghost use Rattle.grid.specs.Plane.{viewed, lent};
ghost use Rattle.grid.specs.Channels.{planes, all_viewed, all_lent, all_fit, AreRasters};

use crate::{Grid, Raster, View};

/// One for each channel.
#[derive(Clone, Copy)]
pub struct Xyb<T> {
    pub x: T,
    pub y: T,
    pub b: T,
}

impl<T> From<[T; 3]> for Xyb<T> {
    ghost from_gives = { λ three r. three ≡ r.x ∷ r.y ∷ r.b ∷ [] };

    fn from(three: [T; 3]) -> Xyb<T> {
        let [x, y, b] = three;
        Xyb { x, y, b }
    }
}

impl<T> Xyb<T> {
    /// Whether the test holds of each.
    pub fn all<F: Fn(T) -> bool>(self, test: F) -> bool
        requires { F.IsAlwaysCallable test }
        ensures { (x y b : Bool) × F.post test self.x x × F.post test self.y y × F.post test self.b b × (result ≡ (x && y && b)) }
    {
        test(self.x) & test(self.y) & test(self.b)
    }
}

/// The grids of X, Y and B, which a call is lent one by one, for reading alone.
pub fn views<'a, T: Copy>(x: &'a Grid<T>, y: &'a Grid<T>, b: &'a Grid<T>) -> Xyb<View<'a, T>>
    ensures { all_viewed result ≡ planes (lent x.now) (lent y.now) (lent b.now) }
{
    Xyb {
        x: x.view(),
        y: y.view(),
        b: b.view(),
    }
}

impl<'a, T: Copy> Xyb<Grid<'a, T>> {
    /// The same grids, for reading alone.
    pub fn views(&self) -> Xyb<View<'_, T>>
        ensures { all_viewed result ≡ all_lent self.now }
    {
        Xyb {
            x: self.x.view(),
            y: self.y.view(),
            b: self.b.view(),
        }
    }
}

impl<'a, T: Copy> Xyb<View<'a, T>> {
    /// Whether each is a lawful grid of w × h elements.
    pub fn fit(self, w: usize, h: usize) -> bool
        ensures { result ≡ all_fit w h (all_viewed self.entry) }
    {
        self.all(|grid| grid.fits(w, h))
    }

    /// The same grids, if each is lawful and has w × h elements.
    pub fn sized(self, w: usize, h: usize) -> Option<Xyb<Raster<'a, T>>>
        ensures { AreRasters w h (all_viewed self.entry) result }
    {
        Some(Xyb {
            x: self.x.sized(w, h)?,
            y: self.y.sized(w, h)?,
            b: self.b.sized(w, h)?,
        })
    }
}
