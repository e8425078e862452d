//! What the lines of a script came to.

use crate::script::Mistake;
use refusal::Refusal;
use std::fmt;
use thiserror::Error;

/// What a line did.
#[derive(Drop)]
pub enum Done {
    /// Nothing, since nothing stands on it.
    Nothing,
    /// It set elements of a grid.
    Set,
    /// It made a call, which was accepted and answered a number.
    Accepted(u32),
    /// It made a call, which was refused.
    Refused(Refusal),
    /// It made a text of a grid, to be printed.
    Printed(String),
    /// It drew a picture.
    Drawn(Picture),
}

/// A picture to be written to a file.
#[derive(Drop)]
pub struct Picture {
    pub file: String,
    pub text: String,
}

/// What a call answers is what its line did.
impl From<Result<u32, Refusal>> for Done {
    fn from(answer: Result<u32, Refusal>) -> Done {
        match answer {
            Ok(number) => Done::Accepted(number),
            Err(refusal) => Done::Refused(refusal),
        }
    }
}

/// The lines that are printed: for a call `ok N`, or `refused NUMBER NAME at CHANNEL X Y`.
impl fmt::Display for Done {
    fn fmt<W: fmt::Write>(&self, f: &mut fmt::Formatter<W>) -> fmt::Result {
        match self {
            Done::Nothing | Done::Set | Done::Drawn(_) => Ok(()),
            Done::Accepted(number) => writeln!(f, "ok {number}"),
            Done::Refused(refusal) => writeln!(f, "refused {refusal}"),
            Done::Printed(text) => write!(f, "{text}"),
        }
    }
}

/// A line that asks for nothing that can be done.
#[derive(Clone, Copy, Debug, Error)]
#[error("line {number}: {mistake}")]
pub struct BadLine<'a> {
    pub number: u64,
    pub mistake: Mistake<'a>,
}

/// How many lines there were of what.
#[derive(Clone, Copy, Default)]
pub struct Tally {
    pub lines: u64,
    /// Lines that were carried out.
    commands: u64,
    /// Calls that were accepted.
    accepted: u64,
    /// Calls that were refused.
    refused: u64,
    /// Lines that asked for nothing that can be done.
    bad: u64,
}

impl Tally {
    /// Counts a line by what it came to.
    pub fn count(&mut self, played: &Result<Done, Mistake<'_>>) {
        count_up(&mut self.lines);
        match played {
            Ok(Done::Nothing) => {}
            Ok(done) => self.count_command(done),
            Err(_) => count_up(&mut self.bad),
        }
    }

    fn count_command(&mut self, done: &Done) {
        count_up(&mut self.commands);
        match done {
            Done::Accepted(_) => count_up(&mut self.accepted),
            Done::Refused(_) => count_up(&mut self.refused),
            _ => {}
        }
    }
}

fn count_up(counter: &mut u64) {
    *counter = counter.saturating_add(1);
}

/// As `commands 7 accepted 3 refused 2 bad lines 0`.
impl fmt::Display for Tally {
    fn fmt<W: fmt::Write>(&self, f: &mut fmt::Formatter<W>) -> fmt::Result {
        let Tally {
            commands,
            accepted,
            refused,
            bad,
            ..
        } = self;
        write!(f, "commands {commands} accepted {accepted} ")?;
        write!(f, "refused {refused} bad lines {bad}")
    }
}
