//! HF correlate: X and B gain a part of Y, tile by tile.

#![tactic(auto)]

mod correlate;
mod gains;
mod tiles;

pub use channels::Correlation;
pub use correlate::hf_correlate;
