//! Which machines can change what another machine stands on, and which are equal.
#![tactic(auto)]

mod changing;
pub mod laws;

pub use changing::may;
