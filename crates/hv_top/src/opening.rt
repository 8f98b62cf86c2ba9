//! An input that is opened: its text is read as a job, and the job is built.

ghost use Rattle.std.specs.Prelude.{◌≤◌, length, IfOk};
ghost use Rattle.hv_limits.specs.Limits.{input_limit};
ghost use Rattle.hv_job.specs.IsJob.{IsJob};
ghost use Rattle.hv_top.specs.Opening.{IsOpening, IsStarting};

use crate::answer::{Answer, refused};
use hv_job::{Job, JobEnd, parse_job};
use hv_load::{BuildEnd, Start, build};
use std::alloc::{AllocError, Global};

/// A job with the start that it is built to, or the refusal of the first line that is refused.
#[derive(Drop)]
pub enum Opening {
    Ready { job: Job, start: Start },
    Refused(Answer),
}

/// The job that a text is and its start, or the refusal of the first line that is refused: in the text, or else when the job
/// is built.
pub fn opened(alloc: Global, input: &[u8]) -> Result<Opening, AllocError>
    requires { length input.now ≤ input_limit }
    ensures { IfOk result (IsOpening 0 input.now) }
{
    opened_behind(alloc, 0, input)
}

/// The same of a text behind so many lines, which count in a refusal.
#[tactic(auto, unfolding(crate::specs::Run::TextIsPromised))]
pub fn opened_behind(alloc: Global, before: u32, input: &[u8]) -> Result<Opening, AllocError>
    requires { length input.now ≤ input_limit }
    ensures { IfOk result (IsOpening before input.now) }
{
    match parse_job(alloc, input) {
        Ok(job) => started(alloc, before, job),
        Err(JobEnd::JobFault { line, kind }) => {
            let answer = refused(alloc, u64::from(before) + u64::from(line), kind.word())?;
            Ok(Opening::Refused(answer))
        }
        Err(JobEnd::Memory) => Err(AllocError),
    }
}

// A job and its start, or the refusal of the first line that can't be built.
#[tactic(auto, unfolding(crate::specs::Run::JobIsPromised))]
fn started(alloc: Global, before: u32, job: Job) -> Result<Opening, AllocError>
    requires { IsJob job }
    ensures { IfOk result (IsStarting before job) }
{
    match build(alloc, &job) {
        Ok(start) => Ok(Opening::Ready { job, start }),
        Err(BuildEnd::BuildFault { line, kind }) => {
            let answer = refused(alloc, u64::from(before) + u64::from(line), kind.word())?;
            Ok(Opening::Refused(answer))
        }
        Err(BuildEnd::Memory) => Err(AllocError),
    }
}
