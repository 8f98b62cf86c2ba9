//! Traces: the steps of one machine that runs alone, row by row, as a text that anyone can check.
#![tactic(auto)]

mod checking;
mod ends;
mod flat;
mod row;
mod text_lines;
mod text_pieces;
mod text_rows;
mod text_writing;
mod trace;

pub use checking::{Verdict, check_trace};
pub use ends::{TraceEnd, TraceKind};
pub use flat::flat_step_is_the_host_step;
pub use row::TraceRow;
pub use text_lines::read_rows;
pub use text_writing::{put_rows, write_trace};
pub use trace::Trace;

#[cfg(test)]
mod tests;
