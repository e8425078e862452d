//! The names of grids.

use grid::Xyb;

/// A grid that a script can name: its kind and its channel.
#[derive(Clone, Copy)]
pub struct Name(pub GridKind, pub Channel);

/// A kind of grid, of which there is one for each channel.
#[derive(Clone, Copy)]
pub enum GridKind {
    Lf,
    Numbers,
    Samples,
    Coefficients,
    Tiles,
    Weights,
    Starts,
}

#[derive(Clone, Copy)]
pub enum Channel {
    X,
    Y,
    B,
}

impl Name {
    /// The grid that a word as `lf-x` names.
    pub fn of(word: &str) -> Option<Name> {
        let (kind, channel) = word.split_once('-')?;
        Some(Name(GridKind::of(kind)?, Channel::of(channel)?))
    }
}

impl GridKind {
    fn of(word: &str) -> Option<GridKind> {
        match word {
            "lf" => Some(GridKind::Lf),
            "numbers" => Some(GridKind::Numbers),
            "samples" => Some(GridKind::Samples),
            "coefficients" => Some(GridKind::Coefficients),
            "tiles" => Some(GridKind::Tiles),
            "weights" => Some(GridKind::Weights),
            "starts" => Some(GridKind::Starts),
            _ => None,
        }
    }
}

impl Channel {
    fn of(word: &str) -> Option<Channel> {
        match word {
            "x" => Some(Channel::X),
            "y" => Some(Channel::Y),
            "b" => Some(Channel::B),
            _ => None,
        }
    }

    /// The channel's own of three.
    pub fn pick<T>(self, three: &Xyb<T>) -> &T {
        match self {
            Channel::X => &three.x,
            Channel::Y => &three.y,
            Channel::B => &three.b,
        }
    }

    /// The channel's own of three, to be written.
    pub fn pick_mut<T>(self, three: &mut Xyb<T>) -> &mut T {
        match self {
            Channel::X => &mut three.x,
            Channel::Y => &mut three.y,
            Channel::B => &mut three.b,
        }
    }
}
