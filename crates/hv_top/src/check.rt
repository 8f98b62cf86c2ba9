//! The command `check`.

ghost use Rattle.std.specs.Option.{option_map};
ghost use Rattle.std.specs.Prelude.{◌≡◌, ◌<◌, ◌≤◌, ◌++◌, All, Ok, Some, length, IfOk, IfSome, IsOk, IsSome, OnOk};
ghost use Rattle.hv_block.specs.Block.{block_of, regs_at};
ghost use Rattle.hv_limits.specs.Limits.{input_limit};
ghost use Rattle.hv_job.specs.IsJob.{IsJob};
ghost use Rattle.hv_load.specs.Build.{build_of};
ghost use Rattle.hv_load.specs.Ready.{IsReady};
ghost use Rattle.hv_map.specs.Chain.{map_of};
ghost use Rattle.hv_map.specs.Seen.{seen as seen_of};
ghost use Rattle.hv_nest.specs.Kinds.{NextBelow};
ghost use Rattle.hv_report.specs.Check.{checked_watch, checked_watches, twin_words as twin_words_of, watched_regs};
ghost use Rattle.hv_run.specs.Record.{schedule};
ghost use Rattle.hv_top.specs.Answer.{output_in};
ghost use Rattle.hv_top.specs.Check.{IsRow, check_on, check_output, start_state};
ghost use Rattle.hv_top.specs.Run.{PlayIsPromised, TextIsPromised, record_on, state_of};
ghost use Rattle.hv_word.specs.Storage.{page_count};

use crate::answer::{Answer, written};
use crate::opening::{Opening, opened};
use crate::playing::play_out;
use hv_block::read_block;
use hv_cpu::Cpu;
use hv_job::Job;
use hv_load::{BuildEnd, Start, build};
use hv_map::pin;
use hv_nest::Plain;
use hv_report::{has_twin, put_checked};
use hv_run::{Record, WatchRow};
use hv_store::Store;
use hv_text::put;
use hv_twin::{bare_run, seen};
use std::alloc::{AllocError, Global};

/// For each watch of a job the bare machine that began with what the watched one saw, and ran alone; or the refusal of the
/// first line that is refused: in its text, or else when it is built.
#[tactic(auto, unfolding(crate::specs::Check::check_output, crate::specs::Run::TextIsPromised, crate::specs::Run::JobIsPromised))]
pub fn checked(alloc: Global, input: &[u8]) -> Result<Answer, AllocError>
    requires { length input.now ≤ input_limit }
    ensures output { IfOk result (λ answer. output_in answer ≡ check_output input.now) }
    ensures promised { OnOk result (TextIsPromised input.now) }
{
    match opened(alloc, input)? {
        Opening::Ready { job, start } => Ok(written(compared(alloc, &job, start)?)),
        Opening::Refused(answer) => Ok(answer),
    }
}

// For each watch of the start of a job, which is played to the end of the schedule, the bare machine beside it.
#[tactic(auto, unfolding(crate::specs::Check::start_state))]
fn compared(alloc: Global, job: &Job, start: Start) -> Result<Vec<u8>, AllocError>
    requires job { IsJob job.now }
    requires built { build_of job.now ≡ Ok start }
    requires ready { IsReady job.now start }
    ensures text { IfOk result (λ text. text.items ≡ check_on job.now start) }
    ensures promised { OnOk result (PlayIsPromised (schedule job.now.recording) start) }
{
    let record = played(alloc, job, start)?;
    let mut text = Vec::new(alloc);
    put(&mut text, b"checked\n")?;
    put_watches(alloc, &mut text, job, record.watches.as_slice())?;
    Ok(text)
}

// What is told of the start of a job, which is played to the end of the schedule by the plain engine. What was played is let
// go: each bare machine begins with the job, built anew.
fn played(alloc: Global, job: &Job, start: Start) -> Result<Record, AllocError>
    requires job { IsJob job.now }
    requires built { build_of job.now ≡ Ok start }
    requires ready { IsReady job.now start }
    ensures told { IfOk result (λ r. r ≡ record_on (schedule job.now.recording) start) }
    ensures rows { IfOk result (λ r. All (IsRow (state_of start)) r.watches) }
    ensures promised { OnOk result (PlayIsPromised (schedule job.now.recording) start) }
{
    let Start { store, harts, plan } = start;
    let mut plain = Plain::new(store, harts);
    play_out(alloc, job, &mut plain, &plan)
}

// Appends each watch, and the lines of the bare machine beside it.
#[tactic(auto, unfolding(hv_report::specs::Check::checked_watches))]
fn put_watches(
    alloc: Global,
    out: &mut Vec<u8>,
    job: &Job,
    watches: &[WatchRow],
) -> Result<(), AllocError>
    requires job { IsJob job.now }
    requires built { IsOk (build_of job.now) }
    requires rows { All (IsRow (start_state job.now)) watches.now }
    ensures { OnOk result (out.new.items ≡ out.old.items ++ checked_watches (start_state job.now) watches.now) }
{
    for watch in watches {
        put_watch(alloc, out, job, watch)?;
    }
    Ok(())
}

// Appends a watch.
fn put_watch(
    alloc: Global,
    out: &mut Vec<u8>,
    job: &Job,
    watch: &WatchRow,
) -> Result<(), AllocError>
    requires job { IsJob job.now }
    requires built { IsOk (build_of job.now) }
    requires row { IsRow (start_state job.now) watch.now }
    ensures { OnOk result (out.new.items ≡ out.old.items ++ checked_watch (start_state job.now) watch.now) }
{
    let words = twin_words(alloc, job, watch)?;
    put_checked(alloc, out, watch, words)
}

// The 50 words of the bare machine beside a watched one, if one is to be run.
fn twin_words(alloc: Global, job: &Job, watch: &WatchRow) -> Result<Option<[u32; 50]>, AllocError>
    requires job { IsJob job.now }
    requires built { IsOk (build_of job.now) }
    requires row { IsRow (start_state job.now) watch.now }
    ensures { IfOk result (λ words. words ≡ twin_words_of (start_state job.now) watch.now) }
{
    if !has_twin(watch) {
        return Ok(None);
    }
    let mut bare = twin(alloc, begun(alloc, job)?, watch)?;
    bare_run(
        &mut bare.store,
        &mut bare.cpu,
        watch.lines.as_slice(),
        watch.count,
    );
    Ok(Some(bare.cpu.words()))
}

// The start of a job that was built before.
#[tactic(auto, unfolding(crate::specs::Check::start_state))]
fn begun(alloc: Global, job: &Job) -> Result<Start, AllocError>
    requires job { IsJob job.now }
    requires built { IsOk (build_of job.now) }
    ensures state { IfOk result (λ start. state_of start ≡ start_state job.now) }
    ensures idle { IfOk result (λ start. All (λ r. r.next ≡ 0) start.harts) }
{
    match build(alloc, job) {
        Ok(start) => Ok(start),
        Err(BuildEnd::BuildFault { .. }) => unreachable!(),
        Err(BuildEnd::Memory) => Err(AllocError),
    }
}

// A bare machine with one hart.
#[derive(Drop)]
struct Bare {
    store: Store,
    cpu: Cpu,
}

// The bare machine that begins with the pages that a watched machine sees at the start, and with its registers.
fn twin(alloc: Global, start: Start, watch: &WatchRow) -> Result<Bare, AllocError>
    requires idle { All (λ r. r.next ≡ 0) start.harts }
    requires row { IsRow (state_of start) watch.now }
    ensures store { IfOk result (λ bare. option_map (seen_of start.store) (map_of start.store (watch.now).path) ≡ Some bare.store) }
    ensures cpu { IfOk result (λ bare. bare.cpu ≡ watched_regs (state_of start) (watch.now).hart (watch.now).block) }
    ensures next { IfOk result (λ bare. NextBelow (page_count bare.store) bare.cpu) }
{
    let cpu = registers(&start, watch);
    let Some(chain) = pin(&start.store, &watch.path) else {
        unreachable!()
    };
    let store = seen(alloc, &start.store, &chain)?;
    Ok(Bare { store, cpu })
}

// The registers of a watched machine at the start: in its block, or of its hart.
fn registers(start: &Start, watch: &WatchRow) -> Cpu
    requires idle { All (λ r. r.next ≡ 0) (start.now).harts }
    requires row { IsRow (state_of start.now) watch.now }
    ensures registers { result ≡ watched_regs (state_of start.now) (watch.now).hart (watch.now).block }
    ensures next { IfSome (map_of (start.now).store (watch.now).path) (λ F. NextBelow (length F) result) }
{
    match watch.block {
        Some(page) => parked(&start.store, page),
        None => start.harts.get(watch.hart),
    }
}

// The registers in a block.
fn parked(store: &Store, page: u32) -> Cpu
    requires page { page < page_count store.now }
    requires block { IsSome (block_of store.now page) }
    ensures registers { result ≡ regs_at store.now page }
    ensures next { IfSome (block_of store.now page) (λ held. result.next < held.pages) }
{
    match read_block(store, page) {
        Some(block) => block.cpu,
        None => unreachable!(),
    }
}
