//! The map of a frame: which varblock each cell belongs to, and the check of a map.

#![tactic(auto)]

mod cells;
mod lawful;
mod map;

pub use cells::{Cell, Record};
pub use lawful::hf_mul_in_range;
pub use map::Map;
