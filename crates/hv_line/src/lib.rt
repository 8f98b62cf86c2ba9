//! A line of a job: what a directive or a command of the debugger says by its words, or why the line is refused.
#![tactic(auto)]

mod commands;
mod directives;
mod kinds;
mod limits;
mod lines;
mod name;
mod types;
mod version;
mod words;

pub use commands::{join_words, read_command};
pub use directives::{read_statement, read_storage_line};
pub use kinds::{JobKind, JobLineEnd};
pub use limits::{
    JOB_BREAKS, JOB_COMMANDS, JOB_DEPTH, JOB_DUMPS, JOB_HARTS, JOB_IMAGE_BYTES, JOB_MACHINES,
    JOB_VALUES, JOB_WATCHES, job_limits_are_kept,
};
pub use lines::{begins_with, has_allowed_bytes, has_words, is_only, read_version};
pub use name::{LETTERS, Name};
pub use types::{DebugCommand, Directive, Statement};
pub use version::JobVersion;
