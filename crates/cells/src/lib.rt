//! The inverse transforms of one cell, over its 64 numbers in row order.

#![tactic(auto)]

mod cell;
mod columns;
mod transform;

pub use cell::{load, store};
pub use columns::{transform_dct4, transform_dct4x8, transform_dct8};
pub use transform::{aux_idct2_in_place, transform_dct2, transform_hornuss};
