//! Building a job: the storage and the harts at its start, and what is watched and shown.
#![tactic(auto)]

ghost use Rattle.hv_job.specs.IsJob.{IsJob};
ghost use Rattle.std.specs.Prelude.{IfOk};
ghost use Rattle.hv_load.specs.Build.{GivesStart, build_of};
ghost use Rattle.hv_load.specs.Ready.{IsReady};

mod builder;
mod ends;
mod finding;
mod generating;
mod levels;
mod making;
mod pages;
mod parts;
mod start;

use builder::Builder;
pub use ends::{BuildEnd, BuildKind};
pub use generating::{DEPTHS, gen_job};
use hv_job::Job;
pub use levels::tower;
use parts::DirectiveEnd;
pub use start::{Dump, Named, Plan, Start};
use std::alloc::Global;

/// Builds a job whose values are in their ranges: its start, or the first line that is refused.
pub fn build(alloc: Global, job: &Job) -> Result<Start, BuildEnd>
    requires { IsJob job.now }
    ensures gives { GivesStart result (build_of job.now) }
    ensures ready { IfOk result (λ start. IsReady job.now start) }
{
    let mut builder = Builder::new(alloc, job.pages, job.harts)?;
    for placed in job.lines.as_slice() {
        match builder.line(alloc, placed.line, &placed.what) {
            Ok(()) => {}
            Err(DirectiveEnd::Fault(kind)) => {
                return Err(BuildEnd::BuildFault {
                    line: placed.line,
                    kind,
                });
            }
            Err(DirectiveEnd::Memory) => return Err(BuildEnd::Memory),
        }
    }
    builder.end(alloc, job.commands.as_slice())
}
