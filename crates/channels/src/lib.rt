//! What the stages share: the check of whole numbers, and how X and B go with Y.

#![tactic(auto)]

mod colour;
mod correlation;
mod gained;
mod numbers;
mod three;

pub use colour::ColourFactor;
pub use correlation::{Correlation, gain};
pub use gained::Gained;
pub use numbers::Numbers;
pub use three::check_channels;
