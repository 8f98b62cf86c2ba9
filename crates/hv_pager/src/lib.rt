//! Paging on demand: a watched machine whose own map changes while it runs.
#![tactic(auto)]

pub mod laws;
