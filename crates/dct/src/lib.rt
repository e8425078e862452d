//! The discrete cosine transforms of lists of 1, 2, 4, .. 256 numbers, in place: of one list, or of eight side by side.

#![tactic(auto)]

mod dct;
mod dct_common;
mod strips;

pub use dct::{dct_1d, dct4, inverse4, inverse8, is_side};
pub use dct_common::{DctDirection, scale_f, sec_half};
pub use strips::inverse_eight;
