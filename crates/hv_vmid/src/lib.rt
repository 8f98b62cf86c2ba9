//! Numbers for the paths of machines: each path that was asked for has one, until all are dropped.
#![tactic(auto)]

mod ids;

pub use ids::{IDS, IdEnd, Ids};

#[cfg(test)]
mod tests;
