//! The command `save`.

ghost use Rattle.std.specs.Prelude.{◌≡◌, ◌<◌, ◌≤◌, ℕ, Ok, Some, length, map, IfOk, OnOk};
ghost use Rattle.hv_limits.specs.Limits.{input_limit};
ghost use Rattle.hv_job.specs.IsJob.{IsJob};
ghost use Rattle.hv_load.specs.Build.{build_of};
ghost use Rattle.hv_load.specs.Ready.{IsReady};
ghost use Rattle.hv_map.specs.Chain.{pin_of};
ghost use Rattle.hv_map.specs.Links.{syllable_of};
ghost use Rattle.hv_nest.specs.State.{State};
ghost use Rattle.hv_run.specs.Record.{schedule};
ghost use Rattle.hv_top.specs.Answer.{output_in};
ghost use Rattle.hv_top.specs.Run.{PlayIsPromised, TextIsPromised, start_at};
ghost use Rattle.hv_top.specs.Save.{parked_along, parked_in, save_output, saved_answer, saved_on};

use crate::answer::{Answer, refused, written};
use crate::first::{line_behind, watch_line};
use crate::opening::{Opening, opened};
use crate::playing::play_out;
use hv_capsule::{Capsule, write_capsule};
use hv_fast::Fast;
use hv_job::Job;
use hv_limits::PAGES;
use hv_load::{Plan, Start};
use hv_map::{Chain, Watch, pin};
use hv_move::{SaveEnd, save, save_root};
use hv_nest::Nested;
use hv_store::Store;
use std::alloc::{AllocError, Global};

/// The text of a job's first watched machine as it is at the end of the job's schedule, or the refusal of the first line that is
/// refused: in the text, or when the job is built, or else for want of such a machine.
#[tactic(auto, unfolding(crate::specs::Save::save_output, crate::specs::Run::TextIsPromised, crate::specs::Run::JobIsPromised))]
pub fn saved(alloc: Global, input: &[u8]) -> Result<Answer, AllocError>
    requires { length input.now ≤ input_limit }
    ensures output { IfOk result (λ answer. output_in answer ≡ save_output input.now) }
    ensures promised { OnOk result (TextIsPromised input.now) }
{
    match opened(alloc, input)? {
        Opening::Ready { job, start } => saved_on(alloc, input, &job, start),
        Opening::Refused(answer) => Ok(answer),
    }
}

// The same of the start of a job, which is played to the end of the schedule.
fn saved_on(alloc: Global, input: &[u8], job: &Job, start: Start) -> Result<Answer, AllocError>
    requires input { length input.now ≤ input_limit }
    requires job { IsJob job.now }
    requires built { build_of job.now ≡ Ok start }
    requires ready { IsReady job.now start }
    ensures output { IfOk result (λ answer. output_in answer ≡ saved_on input.now job.now start) }
    ensures promised { OnOk result (PlayIsPromised (schedule job.now.recording) start) }
{
    let Start { store, harts, plan } = start;
    let mut fast = Fast::new(alloc, store, harts)?;
    saved_by(alloc, input, job, &mut fast, &plan)
}

// The same by an engine that is in the state of the job's start.
fn saved_by<N: Nested>(
    alloc: Global,
    input: &[u8],
    job: &Job,
    nested: &mut N,
    plan: &Plan,
) -> Result<Answer, AllocError>
    requires input { length input.now ≤ input_limit }
    requires job { IsJob job.now }
    requires built { build_of job.now ≡ Ok (start_at (N.state nested.old) plan.now) }
    requires ready { IsReady job.now (start_at (N.state nested.old) plan.now) }
    ensures output { IfOk result (λ answer. output_in answer ≡ saved_on input.now job.now (start_at (N.state nested.old) plan.now)) }
    ensures promised { OnOk result (PlayIsPromised (schedule job.now.recording) (start_at (N.state nested.old) plan.now)) }
{
    play_out(alloc, job, nested, plan)?;
    match plan.watches.as_slice() {
        [] => refused(alloc, line_behind(input), "watch"),
        [watch, ..] => watch_saved(alloc, job, nested, watch),
    }
}

// The text of a watched machine as it is now, or the refusal of the line that asks for it.
fn watch_saved<N: Nested>(
    alloc: Global,
    job: &Job,
    nested: &N,
    watch: &Watch,
) -> Result<Answer, AllocError>
    requires { (watch.now).hart < length (N.state nested.now).harts }
    ensures { IfOk result (λ answer. output_in answer ≡ saved_answer job.now (N.state nested.now) watch.now) }
{
    match parked(alloc, nested, watch)? {
        Some(capsule) => Ok(written(write_capsule(alloc, &capsule)?)),
        None => refused(alloc, u64::from(watch_line(job)), "absent"),
    }
}

// A watched machine as it is now, where it is there and can be parked.
fn parked<N: Nested>(
    alloc: Global,
    nested: &N,
    watch: &Watch,
) -> Result<Option<Capsule>, AllocError>
    requires { (watch.now).hart < length (N.state nested.now).harts }
    ensures { IfOk result (λ found. found ≡ parked_in (N.state nested.now) watch.now) }
{
    let store = nested.parked();
    let Some(chain) = pin(store, &watch.path) else {
        return Ok(None);
    };
    if chain.len() == 0 {
        let capsule = save_root(alloc, store, &nested.cpu(watch.hart))?;
        return Ok(Some(capsule));
    }
    inner_parked(alloc, store, &chain)
}

// The last machine of a chain, where it can be parked.
fn inner_parked(alloc: Global, store: &Store, chain: &Chain) -> Result<Option<Capsule>, AllocError>
    requires pinned { pin_of store.now (map syllable_of chain.now) ≡ Some chain.now }
    requires inside { 0 < length chain.now }
    ensures { (st : State) (hart : ℕ) → st.storage ≡ store.now
        → IfOk result (λ found. found ≡ parked_along st hart (Some chain.now)) }
{
    if chain.pages(store) > PAGES {
        return Ok(None);
    }
    match save(alloc, store, chain) {
        Ok(capsule) => Ok(Some(capsule)),
        Err(SaveEnd::Absent { .. }) => Ok(None),
        Err(SaveEnd::Memory) => Err(AllocError),
    }
}
