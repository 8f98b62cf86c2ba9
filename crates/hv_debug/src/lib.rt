//! The debugger of a job: what it writes over the commands.
#![tactic(auto)]

mod answers;
mod counter;
mod cursor;
mod debugger;
mod machines;
mod player;
mod stop;
mod writing;

pub use writing::transcript;
