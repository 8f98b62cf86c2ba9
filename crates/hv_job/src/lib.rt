//! The text of a job: the directives and the commands of the debugger that it has, or the first line that is refused.
#![tactic(auto)]

ghost use Rattle.std.specs.Prelude.{◌+◌, ◌<◌, ◌^◌, length, IfOk};
ghost use Rattle.hv_job.specs.Drafted.{GivesJob};
ghost use Rattle.hv_job.specs.IsJob.{IsJob};
ghost use Rattle.hv_job.specs.JobOf.{job_of};

mod body;
mod commands;
mod draft;
mod ends;
mod images;
mod job;
mod limited;

use body::{read_body, read_header, read_storage};
pub use ends::JobEnd;
pub use hv_line::{DebugCommand, Directive, JobKind, Name};
pub use job::{DebugLine, Job, Placed};
pub use limited::Limited;
use std::alloc::Global;

/// The job of a text, which has at most 2^32 - 2 bytes. A refusal is that of the first line that is refused; a line of
/// the header or the storage that is missing is refused at the number of lines plus one.
#[tactic(auto, unfolding(crate::specs::JobOf::job_of))]
pub fn parse_job(alloc: Global, bytes: &[u8]) -> Result<Job, JobEnd>
    requires { length bytes.now + 1 < 2 ^ 32 }
    ensures job { GivesJob result (job_of bytes.now) }
    ensures limits { IfOk result IsJob }
{
    let (version, header) = read_header(bytes)?;
    let (pages, storage) = read_storage(header.text, header.number)?;
    read_body(alloc, version, pages, storage.text, storage.number)
}
