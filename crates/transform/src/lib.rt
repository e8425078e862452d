//! The kernels: the crate's own, with the inverse transforms of the 23 kinds, and the mean kernel, for thumbnails.

#![tactic(auto)]

mod mean;
mod patches;
mod vardct;

pub use mean::Mean;
pub use vardct::{Vardct, transform_cell};
