//! Whether the pages that a machine stands on lie in different bare pages, the places of the words that are its own, and
//! upgrading a machine that stands apart from version 0 to version 2.
#![tactic(auto)]

mod bits;
mod foot;
pub mod laws;
mod marks;
mod pages;
mod standing;
mod upgrading;

pub use foot::Footing;
pub use marks::Marks;
pub use standing::{add_readable, apart, one_to_one, standing_pages};
pub use upgrading::{UpgradeEnd, upgrade};
