//! What a call answers that it refuses: a reason and a place.

#![tactic(auto)]

ghost use Rattle.std.specs.Prelude.{◌≡◌, Some};
ghost use Rattle.refusal.specs.Reasons.{number_of, name_of};
ghost use Rattle.refusal.specs.Verdicts.{refusal, demand};

use std::fmt;

/// Why a call is refused, by the number that the host knows it by.
#[derive(Clone, Copy, PartialEq, Eq, Debug)]
pub enum Reason {
    Turn = 1,
    Shape = 2,
    Scratch = 3,
    Map = 4,
    Kind = 5,
    Place = 6,
    Taken = 7,
    Range = 8,
    Float = 9,
    Weight = 10,
}

impl Reason {
    /// The number that the host knows the reason by.
    // a method and no `From`: its name says which number
    pub fn number(self) -> u32
        ensures { result ≡ number_of self }
    {
        self as u32
    }

    /// The name that the documents have for it.
    pub fn name(self) -> &'static str
        ensures { result.now ≡ name_of self }
    {
        match self {
            Reason::Turn => "TURN",
            Reason::Shape => "SHAPE",
            Reason::Scratch => "SCRATCH",
            Reason::Map => "MAP",
            Reason::Kind => "KIND",
            Reason::Place => "PLACE",
            Reason::Taken => "TAKEN",
            Reason::Range => "RANGE",
            Reason::Float => "FLOAT",
            Reason::Weight => "WEIGHT",
        }
    }
}

/// The reason's name.
impl fmt::Display for Reason {
    ghost output = { λ why. Some (name_of why) };

    fn fmt<W: fmt::Write>(&self, f: &mut fmt::Formatter<W>) -> fmt::Result {
        let name = self.name();
        write!(f, "{name}")
    }
}

/// Where a call found what it refuses; all zero where no place is named.
#[derive(Clone, Copy, PartialEq, Eq, Debug)]
pub struct Place {
    // a number, as a host reads it
    pub channel: usize,
    pub x: usize,
    pub y: usize,
}

/// The answer of a call that is refused.
#[derive(Clone, Copy, PartialEq, Eq, Debug)]
pub struct Refusal {
    pub reason: Reason,
    pub place: Place,
}

impl Refusal {
    /// A refusal that names a place.
    pub fn at(reason: Reason, channel: usize, x: usize, y: usize) -> Self
        ensures { result ≡ refusal reason channel x y }
    {
        Refusal {
            reason,
            place: Place { channel, x, y },
        }
    }
}

/// A refusal that names no place.
impl From<Reason> for Refusal {
    ghost from_gives = { λ why r. r ≡ refusal why 0 0 0 };

    fn from(reason: Reason) -> Refusal {
        Refusal::at(reason, 0, 0, 0)
    }
}

/// As `7 TAKEN at 0 3 3`: number, name, channel, x, y.
impl fmt::Display for Refusal {
    fn fmt<W: fmt::Write>(&self, f: &mut fmt::Formatter<W>) -> fmt::Result {
        let reason = self.reason;
        let number = reason.number();
        let Place { channel, x, y } = self.place;
        write!(f, "{number} {reason} at {channel} {x} {y}")
    }
}

/// One row of the table of refusals, where the row names no place: refuses unless `ok`.
// `ok` is the test of the row, and no flag
pub fn require(ok: bool, reason: Reason) -> Result<(), Refusal>
    ensures { result ≡ demand ok reason }
{
    if ok {
        Ok(())
    } else {
        Err(Refusal::from(reason))
    }
}
