//! The fast engine: paths that are pinned, and translations that are held.
#![tactic(auto)]

mod beside;
mod fast;
mod following;
mod holding;
pub mod laws;
mod marks;
mod memo;
mod pin;
mod riding;
mod translations;

pub use fast::Fast;
pub use translations::{Kept, Translated};
