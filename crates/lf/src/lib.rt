//! The stages on LF samples: LF dequantise, LF correlate and LF smooth.

#![tactic(auto)]

mod around;
mod correlate;
mod dequantise;
mod moves;
mod smooth;

pub use correlate::{Correlation, lf_correlate};
pub use dequantise::lf_dequantise;
pub use smooth::lf_smooth;
