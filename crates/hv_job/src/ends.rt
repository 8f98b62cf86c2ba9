//! Why a text is no job.

use hv_line::JobKind;
use std::fmt::{self, Display, Formatter};
use thiserror::Error;

/// Why a text is no job.
#[derive(Clone, Copy, Debug, PartialEq, Eq, Error)]
pub enum JobEnd {
    /// The line of this number is the first that is refused; lines are numbered from 1.
    #[error("line {line} is refused: {kind}")]
    JobFault { line: u32, kind: JobKind },
    /// Memory is wanting.
    #[error("memory is wanting")]
    Memory,
}
