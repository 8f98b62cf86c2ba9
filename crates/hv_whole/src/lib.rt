//! A machine inside machines can't be told from a bare machine: what holds of it over a whole run, whatever the others do.
#![tactic(auto)]

pub mod laws;
