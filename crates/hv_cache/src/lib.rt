//! Translations that are held: of a machine's page its slot, with the bare pages that it rests on, till one of these is
//! forgotten.
#![tactic(auto)]

mod cache;
mod counts;
mod entries;
mod kept;
pub mod laws;
mod tally;
#[cfg(test)]
mod tests;

pub use cache::MapCache;
pub use hv_map::{Chain, Pages, Slot};
pub use kept::Kept;
