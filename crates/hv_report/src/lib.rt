//! The report on a play.
#![tactic(auto)]

mod checking;
mod dumps;
mod machine;
mod puts;
mod reporting;
mod summing;

pub use checking::{has_twin, put_checked};
pub use dumps::read_page;
pub use machine::machine_words;
pub use puts::put_path;
pub use reporting::{put_hart, report};
pub use summing::summary;
