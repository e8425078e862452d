//! HF dequantise: coefficients become samples.

#![tactic(auto)]

mod checks;
mod dequantise;
mod judge;
mod quantiser;

pub use dequantise::hf_dequantise;
pub use quantiser::Quantiser;
