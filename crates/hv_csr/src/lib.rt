//! Control registers, traps and interrupts.
#![tactic(auto)]

mod access;
mod csr;
mod interrupts;
pub mod laws;
mod status;
mod traps;

pub use access::{Illegal, csr_read, csr_write, word_written};
pub use csr::Csr;
pub use interrupts::pending;
pub use traps::{mret, sret, take_trap};
