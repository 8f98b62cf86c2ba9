//! The command `run`.

ghost use Rattle.std.specs.Prelude.{◌≡◌, ◌≤◌, Ok, length, IfOk, OnOk};
ghost use Rattle.hv_limits.specs.Limits.{input_limit};
ghost use Rattle.hv_job.specs.IsJob.{IsJob};
ghost use Rattle.hv_load.specs.Build.{build_of};
ghost use Rattle.hv_load.specs.Ready.{IsReady};
ghost use Rattle.hv_run.specs.Record.{schedule};
ghost use Rattle.hv_top.specs.Answer.{output_in};
ghost use Rattle.hv_top.specs.Run.{PlayIsPromised, TextIsPromised, report_on, run_output, start_at};

use crate::answer::{Answer, written};
use crate::opening::{Opening, opened};
use crate::playing::play_out;
use hv_fast::Fast;
use hv_job::Job;
use hv_load::{Plan, Start};
use hv_nest::{Nested, Plain};
use hv_report::report;
use std::alloc::{AllocError, Global};

/// The report on a job, or the refusal of the first line that is refused: in its text, or else when it is built. It is the
/// same by the plain engine and by the fast one.
#[tactic(auto, unfolding(crate::specs::Run::run_output, crate::specs::Run::TextIsPromised, crate::specs::Run::JobIsPromised))]
pub fn reported(alloc: Global, input: &[u8], plain: bool) -> Result<Answer, AllocError>
    requires { length input.now ≤ input_limit }
    ensures output { IfOk result (λ answer. output_in answer ≡ run_output input.now) }
    ensures promised { OnOk result (TextIsPromised input.now) }
{
    match opened(alloc, input)? {
        Opening::Ready { job, start } => Ok(written(told(alloc, &job, start, plain)?)),
        Opening::Refused(answer) => Ok(answer),
    }
}

// The report on the start of a job, which is played to the end of the schedule by the plain engine or by the fast one.
fn told(alloc: Global, job: &Job, start: Start, plain: bool) -> Result<Vec<u8>, AllocError>
    requires job { IsJob job.now }
    requires built { build_of job.now ≡ Ok start }
    requires ready { IsReady job.now start }
    ensures text { IfOk result (λ text. text.items ≡ report_on job.now start) }
    ensures promised { OnOk result (PlayIsPromised (schedule job.now.recording) start) }
{
    let Start { store, harts, plan } = start;
    if plain {
        let mut plain = Plain::new(store, harts);
        told_by(alloc, job, &mut plain, &plan)
    } else {
        let mut fast = Fast::new(alloc, store, harts)?;
        told_by(alloc, job, &mut fast, &plan)
    }
}

// The report on a job, which is played to the end of the schedule by an engine that is in the state of the job's start.
fn told_by<N: Nested>(
    alloc: Global,
    job: &Job,
    nested: &mut N,
    plan: &Plan,
) -> Result<Vec<u8>, AllocError>
    requires job { IsJob job.now }
    requires built { build_of job.now ≡ Ok (start_at (N.state nested.old) plan.now) }
    requires ready { IsReady job.now (start_at (N.state nested.old) plan.now) }
    ensures text { IfOk result (λ text. text.items ≡ report_on job.now (start_at (N.state nested.old) plan.now)) }
    ensures promised { OnOk result (PlayIsPromised (schedule job.now.recording) (start_at (N.state nested.old) plan.now)) }
{
    let record = play_out(alloc, job, nested, plan)?;
    report(alloc, nested, &record, plan)
}
