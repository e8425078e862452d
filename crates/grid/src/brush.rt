//! What makes the elements of a rectangle one by one.

ghost use Rattle.std.specs.Prelude.{◌≡◌, ℕ};
ghost use Rattle.grid.specs.Painted.{solid};

/// A rectangle of a grid.
#[derive(Clone, Copy)]
pub struct Area {
    pub x: usize,
    pub y: usize,
    pub width: usize,
    pub height: usize,
}

/// What an element becomes, from its place in the rectangle and what it was.
pub trait Brush<T> {
    /// where it may be asked
    ghost ready: { Self → ℕ → ℕ → Type 0 };

    ghost made: { Self → ℕ → ℕ → T → T };

    fn stroke(&self, i: usize, j: usize, old: T) -> T
        requires { ready self.now i j }
        ensures { result ≡ made self.now i j old };
}

/// The brush that makes every element the same.
#[derive(Clone, Copy)]
pub struct Solid<T> {
    pub value: T,
}

impl<T: Copy> Brush<T> for Solid<T> {
    ghost ready = { λ _ _ _. Unit {0} };

    ghost made = { λ s. solid s.value };

    fn stroke(&self, _i: usize, _j: usize, _old: T) -> T {
        self.value
    }
}
