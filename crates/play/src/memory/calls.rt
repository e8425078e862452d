//! The calls on an open frame.

use super::Memory;
use crate::command::Call;
use crate::script::{Mistake, Words};
use crate::sheet::{Sheet, views};
use grid::Xyb;
use hf::{Quantiser, hf_dequantise};
use hf_correlate::{Correlation as HfCorrelation, hf_correlate};
use kernel::Kernel;
use lf::{Correlation, lf_correlate, lf_dequantise, lf_smooth};
use rebuild::rebuild;
use refusal::Refusal;
use transform::{Mean, Vardct};
use weights::Weights;

/// What a call answers.
type Answer = Result<u32, Refusal>;

impl Memory {
    /// Makes a call, with what stands after its name.
    pub fn call<'a>(&mut self, call: Call, words: &mut Words<'a>) -> Result<Answer, Mistake<'a>> {
        match call {
            Call::Place => self.place(words),
            Call::LfDequantise => self.lf_dequantise(words),
            Call::LfCorrelate => self.lf_correlate(words),
            Call::LfSmooth => self.lf_smooth(words),
            Call::HfDequantise => self.hf_dequantise(words),
            Call::HfCorrelate => self.hf_correlate(words),
            Call::Rebuild => self.rebuild(words),
        }
    }

    /// `place KIND X Y HF_MUL`
    fn place<'a>(&mut self, words: &mut Words<'a>) -> Result<Answer, Mistake<'a>> {
        let kind = words.whole()?;
        let x: u32 = words.whole()?;
        let y: u32 = words.whole()?;
        let hf_mul = words.whole()?;
        words.end()?;
        let (x, y) = (x as usize, y as usize);
        Ok(self.frame.place(&mut self.map.grid(), kind, x, y, hf_mul))
    }

    /// `lf-dequantise SCALE_X SCALE_Y SCALE_B`
    fn lf_dequantise<'a>(&mut self, words: &mut Words<'a>) -> Result<Answer, Mistake<'a>> {
        let scales = words.floats()?;
        words.end()?;
        let Xyb { x, y, b } = &mut self.lf;
        Ok(lf_dequantise(
            &mut self.frame,
            &mut x.grid(),
            &mut y.grid(),
            &mut b.grid(),
            views(&self.numbers),
            scales,
        ))
    }

    /// `lf-correlate COLOUR_FACTOR FACTOR_X FACTOR_B BASE_X BASE_B`
    fn lf_correlate<'a>(&mut self, words: &mut Words<'a>) -> Result<Answer, Mistake<'a>> {
        let by = Correlation {
            colour_factor: words.whole()?,
            x_factor_lf: words.whole()?,
            b_factor_lf: words.whole()?,
            base_correlation_x: words.float()?,
            base_correlation_b: words.float()?,
        };
        words.end()?;
        let Xyb { x, y, b } = &mut self.lf;
        Ok(lf_correlate(&mut self.frame, &mut x.grid(), y.view(), &mut b.grid(), by))
    }

    /// `lf-smooth STEP_X STEP_Y STEP_B ROOM`, with at most so many numbers of scratch
    fn lf_smooth<'a>(&mut self, words: &mut Words<'a>) -> Result<Answer, Mistake<'a>> {
        let steps = words.floats()?;
        let room = words.number("number of scratch")?;
        words.end()?;
        let Xyb { x, y, b } = &mut self.lf;
        Ok(lf_smooth(
            &mut self.frame,
            &mut x.grid(),
            &mut y.grid(),
            &mut b.grid(),
            steps,
            front(&mut self.scratch, room),
        ))
    }

    /// `hf-dequantise GLOBAL_SCALE QM_X QM_Y QM_B BIAS_X BIAS_Y BIAS_B NUMERATOR`
    fn hf_dequantise<'a>(&mut self, words: &mut Words<'a>) -> Result<Answer, Mistake<'a>> {
        let by = Quantiser {
            global_scale: words.number("global scale")?,
            qm_scale: words.floats()?,
            quant_bias: words.floats()?,
            quant_bias_numerator: words.float()?,
        };
        words.end()?;
        let weights = Xyb {
            x: weights_of(&self.weights.x, &self.starts.x),
            y: weights_of(&self.weights.y, &self.starts.y),
            b: weights_of(&self.weights.b, &self.starts.b),
        };
        let Xyb { x, y, b } = &mut self.samples;
        Ok(hf_dequantise(
            &mut self.frame,
            self.map.view(),
            &mut x.grid(),
            &mut y.grid(),
            &mut b.grid(),
            views(&self.coefficients),
            weights,
            by,
        ))
    }

    /// `hf-correlate COLOUR_FACTOR BASE_X BASE_B`
    fn hf_correlate<'a>(&mut self, words: &mut Words<'a>) -> Result<Answer, Mistake<'a>> {
        let by = HfCorrelation {
            colour_factor: words.number("colour factor")?,
            base_correlation_x: words.float()?,
            base_correlation_b: words.float()?,
        };
        words.end()?;
        let Xyb { x, y, b } = &mut self.samples;
        Ok(hf_correlate(
            &mut self.frame,
            &mut x.grid(),
            y.view(),
            &mut b.grid(),
            self.tiles.x.view(),
            self.tiles.b.view(),
            by,
        ))
    }

    /// `rebuild crate ROOM` or `rebuild mean ROOM`, with at most so many numbers of scratch
    fn rebuild<'a>(&mut self, words: &mut Words<'a>) -> Result<Answer, Mistake<'a>> {
        let kernel = words.word("kernel")?;
        let room = words.number("number of scratch")?;
        words.end()?;
        match kernel {
            "crate" => Ok(self.rebuild_by(&Vardct, room)),
            "mean" => Ok(self.rebuild_by(&Mean, room)),
            _ => Err(Mistake::Wrong(kernel, "kernel")),
        }
    }

    fn rebuild_by<K: Kernel>(&mut self, kernel: &K, room: usize) -> Answer {
        let Xyb { x, y, b } = &mut self.samples;
        rebuild(
            &mut self.frame,
            kernel,
            self.map.view(),
            views(&self.lf),
            &mut x.grid(),
            &mut y.grid(),
            &mut b.grid(),
            front(&mut self.scratch, room),
        )
    }
}

/// The first numbers of scratch, at most `room`.
fn front(scratch: &mut [f32], room: usize) -> &mut [f32] {
    let room = room.min(scratch.len());
    &mut scratch[..room]
}

/// The weights of a channel.
fn weights_of<'a>(list: &'a Sheet<f32>, starts: &'a Sheet<u32>) -> Weights<'a> {
    Weights {
        list: list.as_slice(),
        starts: starts.as_slice(),
    }
}
