//! Playing a schedule, and what is told of it.
#![tactic(auto)]

mod counts;
mod fault;
mod faults;
pub mod laws;
mod making;
mod moving;
mod playing;
mod record;
mod running;
mod starting;
mod text;
mod watched;

pub use fault::FaultRow;
pub use moving::Play;
pub use playing::play;
pub use record::{Record, WatchRow};
pub use text::{fault_line, machine_lines, register_lines};
