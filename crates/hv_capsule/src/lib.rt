//! A machine that is parked: its registers and its pages, apart from every storage, and its text.
#![tactic(auto)]

mod capsule;
mod ends;
mod pieces;
mod reading;
mod writing;

pub use capsule::Capsule;
pub use ends::{CapsuleEnd, CapsuleKind};
pub use reading::{Front, read_capsule, read_front};
pub use writing::{put_capsule, write_capsule};
