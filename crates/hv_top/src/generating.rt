//! The command `gen`.

ghost use Rattle.std.specs.Prelude.{◌≡◌, false, Ok, IfOk, OnOk};
ghost use Rattle.hv_job.specs.IsJob.{IsJob};
ghost use Rattle.hv_load.specs.Build.{build_of};
ghost use Rattle.hv_load.specs.Generator.{gen_job_of};
ghost use Rattle.hv_load.specs.Ready.{IsReady};
ghost use Rattle.hv_run.specs.Record.{schedule};
ghost use Rattle.hv_top.specs.Answer.{output_in};
ghost use Rattle.hv_top.specs.Gen.{gen_output, summary_on};
ghost use Rattle.hv_top.specs.Run.{PlayIsPromised, JobIsPromised};

use crate::answer::{Answer, written};
use crate::playing::play_out;
use hv_fast::Fast;
use hv_job::Job;
use hv_load::{BuildEnd, DEPTHS, Start, build, gen_job};
use hv_report::summary;
use std::alloc::{AllocError, Global};

/// The summary of the job of a number, which is built and played to the end of its schedule.
#[tactic(auto, unfolding(crate::specs::Gen::gen_output, crate::specs::Run::JobIsPromised))]
pub fn generated(alloc: Global, number: u32) -> Result<Answer, AllocError>
    ensures output { IfOk result (λ answer. output_in answer ≡ gen_output number) }
    ensures accepted { IfOk result (λ answer. answer.refused ≡ false) }
    ensures promised { OnOk result (JobIsPromised (gen_job_of number)) }
{
    let job = gen_job(alloc, number)?;
    match build(alloc, &job) {
        Ok(start) => {
            let text = summed(alloc, number, &job, start)?;
            Ok(written(text))
        }
        // The job of every number is built.
        Err(BuildEnd::BuildFault { .. }) => unreachable!(),
        Err(BuildEnd::Memory) => Err(AllocError),
    }
}

// The summary of the start of a job, which is played to the end of the schedule by the fast engine.
fn summed(alloc: Global, number: u32, job: &Job, start: Start) -> Result<Vec<u8>, AllocError>
    requires job { IsJob job.now }
    requires built { build_of job.now ≡ Ok start }
    requires ready { IsReady job.now start }
    ensures text { IfOk result (λ text. text.items ≡ summary_on number job.now start) }
    ensures promised { OnOk result (PlayIsPromised (schedule job.now.recording) start) }
{
    let Start { store, harts, plan } = start;
    let mut fast = Fast::new(alloc, store, harts)?;
    let record = play_out(alloc, job, &mut fast, &plan)?;
    summary(alloc, &mut fast, &record, number, number % DEPTHS)
}
