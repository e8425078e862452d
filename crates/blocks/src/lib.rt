//! The varblocks of a map: the leaf that finds the next lead, the one walk from lead to lead, and what it does to a grid
//! of samples, for any work that replaces a varblock's samples.

#![tactic(auto)]

mod block;
mod leads;
mod walk;
mod work;

pub use block::Block;
pub use leads::{Varblock, next_lead};
pub use walk::{Walk, varblocks};
pub use work::{Work, each_block};
