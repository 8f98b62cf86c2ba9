//! Jobs that are always built: towers that fit the storage, and the generated jobs.
#![tactic(auto)]

pub mod laws;
