//! Parking a machine: what it is at a moment, as a capsule that stands apart from the storage in which it ran.
#![tactic(auto)]

pub mod laws;
mod placing;
mod saving;

pub use placing::{PlaceEnd, place};
pub use saving::{SaveEnd, save, save_root};

#[cfg(test)]
mod tests;
