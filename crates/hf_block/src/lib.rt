//! HF dequantise in one channel: what becomes of the samples of its varblocks.

#![tactic(auto)]

mod channel;
mod sample;
mod work;

pub use channel::dequantise_channel;
pub use work::Scales;
