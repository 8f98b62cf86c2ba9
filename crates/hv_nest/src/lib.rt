//! One step of a machine, with the machines inside it.
#![tactic(auto)]

mod changed;
mod harts;
pub mod laws;
mod line_row;
mod nested;
mod notes;
mod noting;
mod outcome;
mod plain;
mod running;
mod step;
mod touching;

pub use changed::{Changed, ChangedRow, ROWS, rows_are_the_limit};
pub use harts::Harts;
pub use line_row::LineRow;
pub use nested::Nested;
pub use notes::{Note, Notes};
pub use noting::{put_cpu, put_fault};
pub use outcome::{Outcome, StepKind};
pub use plain::Plain;
pub use running::path_of;
pub use step::{host_step, host_step_into};
pub use touching::put_touched;
