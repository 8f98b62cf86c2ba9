//! The transcript of a job.

ghost use Rattle.std.specs.Prelude.{◌≡◌, ◌<◌, All, IfOk, OnErr, OnOk, length};
ghost use Rattle.hv_irq.specs.Events.{hart_of};
ghost use Rattle.hv_run.specs.Record.{schedule};
ghost use Rattle.hv_debug.specs.Transcript.{IsOnWay, last_state_of, transcript_of};

use crate::debugger::Debugger;
use hv_job::Job;
use hv_load::Plan;
use hv_nest::Nested;
use std::alloc::{AllocError, Global};

/// What a debugger writes over the commands of a job, from the engine's present state, which is the job's start; the plan
/// has the names of its machines. Each hart of the schedule is there. After want of memory some of the schedule was played.
#[tactic(auto, unfolding(crate::specs::Transcript::transcript_of, crate::specs::Transcript::last_state_of))]
pub fn transcript<N: Nested>(
    alloc: Global,
    nested: &mut N,
    job: &Job,
    plan: &Plan,
) -> Result<Vec<u8>, AllocError>
    requires { All (λ event. hart_of event < length (N.state nested.old).harts) (job.now).recording }
    ensures text { IfOk result (λ text. text.items ≡ transcript_of (N.state nested.old) job.now plan.now) }
    ensures state { OnOk result (N.state nested.new ≡ last_state_of (N.state nested.old) job.now plan.now) }
    ensures err { OnErr result (IsOnWay (N.state nested.old) (schedule (job.now).recording) (N.state nested.new)) }
{
    let mut debugger = Debugger::new(alloc, nested, job.recording.events())?;
    for line in job.commands.as_slice() {
        debugger.line(alloc, nested, plan.names.as_slice(), line)?;
    }
    Ok(debugger.out)
}
