//! The maps of machines inside machines: how a child's map is composed of its parent's, level by level.
#![tactic(auto)]

mod chain;
mod following;
mod found;
mod gathering;
pub mod laws;
mod lookup;
mod pages;
mod path;
mod pinning;
mod tables;
mod view;
mod ways;

pub use chain::{Chain, ChainItem};
pub use following::trail;
pub use found::{Found, child};
pub use gathering::{page_slot_noting, resolve_noting};
pub use hv_store::{Slot, Way};
pub use lookup::{page_slot, resolve};
pub use pages::{NOTED, Pages};
pub use path::{Path, Watch};
pub use pinning::{child_noting, pin, pin_noting};
pub use tables::TableCache;
pub use view::View;
pub use ways::Trail;
