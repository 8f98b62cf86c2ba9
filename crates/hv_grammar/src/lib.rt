//! What the lines of a job look like: the written forms of its lines, and the places that a text goes through.
#![tactic(auto)]

pub mod laws;
