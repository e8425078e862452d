//! Examples of HF dequantise and HF correlate, run; and what a host knows of the lists that it lends.

#![tactic(auto)]

mod host;

pub use host::dequantised_lists;

#[cfg(test)]
mod channel;
#[cfg(test)]
mod correlate;
#[cfg(test)]
mod dequantise;
