//! The kinds of varblock that are carried, with their sizes in cells.

#![tactic(auto)]

ghost use Rattle.std.specs.Prelude.{◌≡◌, ◌-◌, ◌*◌, ◌/◌, ◌^◌, ◌≤◌};
ghost use Rattle.kinds.specs.Kinds.{size_of};

/// A size in cells.
#[derive(Clone, Copy)]
pub struct Size {
    pub width: usize,
    pub height: usize,
}

/// The size of a varblock of this kind, if the kind is carried.
// kinds are numbers, and a match over ranges with guards gives their sizes, by a rule of the project
pub fn kind_size(kind: u32) -> Option<Size>
    ensures { result ≡ size_of kind }
{
    match kind {
        0..=3 | 12..=13 => Some(Size {
            width: 1,
            height: 1,
        }),
        4 => Some(Size {
            width: 2,
            height: 2,
        }),
        5 => Some(Size {
            width: 4,
            height: 4,
        }),
        6 => Some(Size {
            width: 1,
            height: 2,
        }),
        7 => Some(Size {
            width: 2,
            height: 1,
        }),
        8 => Some(Size {
            width: 1,
            height: 4,
        }),
        9 => Some(Size {
            width: 4,
            height: 1,
        }),
        10 => Some(Size {
            width: 2,
            height: 4,
        }),
        11 => Some(Size {
            width: 4,
            height: 2,
        }),
        18..=26 if kind % 3 == 0 => Some(Size {
            width: long_side(kind),
            height: long_side(kind),
        }),
        18..=26 if kind % 3 == 1 => Some(Size {
            width: long_side(kind) / 2,
            height: long_side(kind),
        }),
        18..=26 => Some(Size {
            width: long_side(kind),
            height: long_side(kind) / 2,
        }),
        _ => None,
    }
}

/// The longer side of the kinds 18 to 26, of which three at a time are alike but for their shape.
fn long_side(kind: u32) -> usize
    requires { (18 ≤ kind) × (kind ≤ 26) }
    ensures { result ≡ 8 * 2 ^ ((kind - 18) / 3) }
{
    8 << ((kind - 18) / 3)
}
