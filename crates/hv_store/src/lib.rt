//! The bare storage, and what a machine sees of it: pages of 1024 words, each open or refused for each kind of access.
#![tactic(auto)]

mod access;
mod space;
mod steps;
mod store;

pub use access::{Access, Refusal, Slot, Way};
pub use space::Space;
pub use steps::Steps;
pub use store::Store;
