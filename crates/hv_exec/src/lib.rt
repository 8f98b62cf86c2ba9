//! One instruction of a machine.
#![tactic(auto)]

mod answer;
mod arithmetic;
mod instruction;
pub mod laws;
mod memory;
mod rows;
mod system;
mod touched;

pub use instruction::{act, act_telling};
pub use touched::Touched;
