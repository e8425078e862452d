//! What the tests and the programs that print share: lists in the shape of a grid, made-up numbers, frames to begin with, and the
//! numbers that a host sees of an answer.

#![tactic(auto)]

mod answers;
mod channels;
mod frames;
mod lists;
mod picture;
mod source;

pub use answers::{HostAnswer, told};
pub use channels::{alike, grids, three, views};
pub use frames::{lay_out, opened};
pub use lists::{PADDING, filled, keeps_padding, padded, within};
pub use picture::Picture;
pub use source::Source;
