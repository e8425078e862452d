//! The memory that is lent to the calls on a frame, and the commands on it.

mod calls;

use crate::command::OnFrame;
use crate::done::{Done, Picture};
use crate::draw::{bit_rows, map_rows, picture, sample_rows};
use crate::name::{GridKind, Name};
use crate::script::{Mistake, Words};
use crate::sheet::{Elements, Sheet, sheets};
use frame::Frame;
use grid::{View, Xyb};
use std::alloc::{AllocError, Global};
use varmap::Cell;

/// How many numbers of scratch there are: enough for every call.
const SCRATCH: usize = 49152;

/// How many weights each channel has: enough for the largest kind.
const WEIGHTS: usize = 65536;

/// An open frame, and all that its calls are lent.
#[derive(Drop)]
pub struct Memory {
    heap: Global,
    frame: Frame,
    map: Sheet<Cell>,
    lf: Xyb<Sheet<f32>>,
    numbers: Xyb<Sheet<i32>>,
    samples: Xyb<Sheet<f32>>,
    coefficients: Xyb<Sheet<i32>>,
    tiles: Xyb<Sheet<i32>>,
    weights: Xyb<Sheet<f32>>,
    starts: Xyb<Sheet<u32>>,
    scratch: Vec<f32>,
}

/// A sheet that is lent to be written, by what its elements are.
#[derive(Drop)]
enum Lent<'m> {
    Floats(&'m mut Sheet<f32>),
    Wholes(&'m mut Sheet<i32>),
    Starts(&'m mut Sheet<u32>),
}

impl Memory {
    /// Memory for an opened frame. Every number is 0, but weights are 1.
    pub fn new(heap: Global, frame: Frame, map: Sheet<Cell>) -> Result<Memory, AllocError> {
        let (w8, h8) = (frame.w8(), frame.h8());
        let (w, h) = (8 * w8, 8 * h8);
        Ok(Memory {
            heap,
            frame,
            map,
            lf: sheets(heap, w8, h8, 0.0)?,
            numbers: sheets(heap, w8, h8, 0)?,
            samples: sheets(heap, w, h, 0.0)?,
            coefficients: sheets(heap, w, h, 0)?,
            tiles: sheets(heap, w8.div_ceil(8), h8.div_ceil(8), 0)?,
            weights: sheets(heap, WEIGHTS, 1, 1.0)?,
            starts: sheets(heap, 27, 1, 0)?,
            scratch: vec![in heap; 0.0; SCRATCH]?,
        })
    }

    /// Does what a command asks for.
    pub fn command<'a>(
        &mut self,
        command: OnFrame,
        words: &mut Words<'a>,
    ) -> Result<Done, Mistake<'a>> {
        match command {
            OnFrame::Call(call) => Ok(Done::from(self.call(call, words)?)),
            OnFrame::Map => self.print_map(words),
            OnFrame::Samples => self.print_samples(words, sample_rows),
            OnFrame::Bits => self.print_samples(words, bit_rows),
            OnFrame::Picture => self.draw(words),
            OnFrame::All => self.set_all(words),
            OnFrame::At => self.set_at(words),
        }
    }

    /// `map`
    fn print_map<'a>(&self, words: &mut Words<'a>) -> Result<Done, Mistake<'a>> {
        words.end()?;
        Ok(Done::Printed(map_rows(self.heap, self.map.view())?))
    }

    /// `samples NAME` and `bits NAME`: the samples as what `rows` makes of them.
    fn print_samples<'a, F>(&self, words: &mut Words<'a>, rows: F) -> Result<Done, Mistake<'a>>
    where
        F: Fn(Global, View<'_, f32>) -> Result<String, AllocError>,
        requires { F.IsAlwaysCallable rows }
    {
        let word = words.word("name")?;
        words.end()?;
        let samples = self.samples(word)?;
        Ok(Done::Printed(rows(self.heap, samples)?))
    }

    /// `picture NAME FILE BLACK WHITE`
    fn draw<'a>(&self, words: &mut Words<'a>) -> Result<Done, Mistake<'a>> {
        let word = words.word("name")?;
        let file = words.word("file")?;
        let black = words.float()?;
        let white = words.float()?;
        words.end()?;
        let samples = self.samples(word)?;
        let file = String::from_str(self.heap, file)?;
        let text = picture(self.heap, samples, black, white)?;
        Ok(Done::Drawn(Picture { file, text }))
    }

    /// The samples that a word names.
    fn samples<'a>(&self, word: &'a str) -> Result<View<'_, f32>, Mistake<'a>> {
        match Name::of(word) {
            Some(Name(GridKind::Lf, channel)) => Ok(channel.pick(&self.lf).view()),
            Some(Name(GridKind::Samples, channel)) => Ok(channel.pick(&self.samples).view()),
            _ => Err(Mistake::Wrong(word, "name")),
        }
    }

    /// `all NAME VALUE`: every element becomes the value.
    fn set_all<'a>(&mut self, words: &mut Words<'a>) -> Result<Done, Mistake<'a>> {
        let sheet = self.lend(words)?;
        set(sheet, Elements::All, words)
    }

    /// `at NAME X Y VALUE`: the element (x, y) becomes the value.
    fn set_at<'a>(&mut self, words: &mut Words<'a>) -> Result<Done, Mistake<'a>> {
        let sheet = self.lend(words)?;
        let x = words.number("column")?;
        let y = words.number("row")?;
        set(sheet, Elements::At { x, y }, words)
    }

    /// The sheet that the next word names.
    fn lend<'a>(&mut self, words: &mut Words<'a>) -> Result<Lent<'_>, Mistake<'a>> {
        let word = words.word("name")?;
        let Name(kind, channel) = Name::of(word).ok_or(Mistake::Wrong(word, "name"))?;
        Ok(match kind {
            GridKind::Lf => Lent::Floats(channel.pick_mut(&mut self.lf)),
            GridKind::Samples => Lent::Floats(channel.pick_mut(&mut self.samples)),
            GridKind::Weights => Lent::Floats(channel.pick_mut(&mut self.weights)),
            GridKind::Numbers => Lent::Wholes(channel.pick_mut(&mut self.numbers)),
            GridKind::Coefficients => Lent::Wholes(channel.pick_mut(&mut self.coefficients)),
            GridKind::Tiles => Lent::Wholes(channel.pick_mut(&mut self.tiles)),
            GridKind::Starts => Lent::Starts(channel.pick_mut(&mut self.starts)),
        })
    }
}

/// The elements become the value that the last word stands for.
fn set<'a>(
    sheet: Lent<'_>,
    elements: Elements,
    words: &mut Words<'a>,
) -> Result<Done, Mistake<'a>> {
    match sheet {
        Lent::Floats(sheet) => set_to(sheet, elements, words.float()?, words),
        Lent::Wholes(sheet) => set_to(sheet, elements, words.whole()?, words),
        Lent::Starts(sheet) => set_to(sheet, elements, words.whole()?, words),
    }
}

/// The elements become the value, if nothing stands after it.
fn set_to<'a, T: Copy + Drop>(
    sheet: &mut Sheet<T>,
    elements: Elements,
    value: T,
    words: &mut Words<'a>,
) -> Result<Done, Mistake<'a>> {
    words.end()?;
    sheet.set(elements, value)?;
    Ok(Done::Set)
}
