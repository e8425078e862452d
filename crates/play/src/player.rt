//! What each line does.

use crate::command::Command;
use crate::done::{BadLine, Done, Tally};
use crate::memory::Memory;
use crate::script::{Mistake, Words};
use crate::sheet::Sheet;
use frame::Frame;
use std::alloc::Global;
use varmap::Cell;

/// The longest side in cells that a map is made for; more than `open` accepts, so that its refusal can be seen.
const LONGEST: usize = 256;

/// Plays a script line by line.
#[derive(Drop)]
pub struct Player {
    heap: Global,
    memory: Option<Memory>,
    tally: Tally,
}

impl Player {
    pub fn new(heap: Global) -> Player {
        Player {
            heap,
            memory: None,
            tally: Tally::default(),
        }
    }

    /// What the script came to.
    pub fn tally(&self) -> Tally {
        self.tally
    }

    /// Does what a line asks for.
    pub fn play_line<'a>(&mut self, line: &'a str) -> Result<Done, BadLine<'a>> {
        let played = self.command(&mut Words::of(line));
        self.tally.count(&played);
        let number = self.tally.lines;
        played.map_err(|mistake| BadLine { number, mistake })
    }

    fn command<'a>(&mut self, words: &mut Words<'a>) -> Result<Done, Mistake<'a>> {
        let Some(word) = words.next() else {
            return Ok(Done::Nothing);
        };
        match Command::of(word).ok_or(Mistake::Unknown(word))? {
            Command::Open => self.open(words),
            Command::OnFrame(command) => {
                let memory = self.memory.as_mut().ok_or(Mistake::NoFrame)?;
                memory.command(command, words)
            }
        }
    }

    /// `open W H`: opens a frame over a new map. An open frame stays where it is refused.
    fn open<'a>(&mut self, words: &mut Words<'a>) -> Result<Done, Mistake<'a>> {
        let w8: usize = words.number("width in cells")?;
        let h8: usize = words.number("height in cells")?;
        words.end()?;
        if w8 > LONGEST || h8 > LONGEST {
            return Err(Mistake::TooManyCells);
        }
        let mut map = Sheet::new(self.heap, w8, h8, Cell::EMPTY)?;
        match Frame::open(w8, h8, &mut map.grid()) {
            Ok(frame) => {
                self.memory = Some(Memory::new(self.heap, frame, map)?);
                Ok(Done::Accepted(0))
            }
            Err(refusal) => Ok(Done::Refused(refusal)),
        }
    }
}
