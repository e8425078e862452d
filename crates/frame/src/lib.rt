//! A frame: its size in cells and its stage; `open`, which begins one, and `place`, which lays out its varblocks.

#![tactic(auto)]

mod frame;
mod placing;
mod stages;

pub use frame::Frame;
pub use stages::Stage;
