//! A job that is played to the end of its schedule.

ghost use Rattle.std.specs.Prelude.{◌≡◌, All, Ok, IfOk, OnOk};
ghost use Rattle.hv_job.specs.IsJob.{IsJob};
ghost use Rattle.hv_load.specs.Build.{build_of};
ghost use Rattle.hv_load.specs.Ready.{IsReady};
ghost use Rattle.hv_nest.specs.Move.{last_of};
ghost use Rattle.hv_report.specs.Report.{AreInState};
ghost use Rattle.hv_run.specs.Record.{schedule};
ghost use Rattle.hv_top.specs.Check.{IsRow};
ghost use Rattle.hv_top.specs.Run.{PlayIsPromised, record_on, start_at};

use hv_job::Job;
use hv_load::Plan;
use hv_nest::Nested;
use hv_run::{Record, play};
use std::alloc::{AllocError, Global};

/// Plays a job to the end of its schedule, by an engine that is in the state of the job's start, and answers what is told of
/// the play.
pub fn play_out<N: Nested>(
    alloc: Global,
    job: &Job,
    nested: &mut N,
    plan: &Plan,
) -> Result<Record, AllocError>
    requires job { IsJob job.now }
    requires built { build_of job.now ≡ Ok (start_at (N.state nested.old) plan.now) }
    requires ready { IsReady job.now (start_at (N.state nested.old) plan.now) }
    ensures state { OnOk result (N.state nested.new ≡ last_of (N.state nested.old) (schedule job.now.recording)) }
    ensures told { IfOk result (λ r. r ≡ record_on (schedule job.now.recording) (start_at (N.state nested.old) plan.now)) }
    ensures there { IfOk result (λ r. AreInState (N.state nested.new) r.watches) }
    ensures rows { IfOk result (λ r. All (IsRow (N.state nested.old)) r.watches) }
    ensures promised { OnOk result (PlayIsPromised (schedule job.now.recording) (start_at (N.state nested.old) plan.now)) }
{
    play(
        alloc,
        nested,
        job.recording.events(),
        plan.watches.as_slice(),
    )
}
