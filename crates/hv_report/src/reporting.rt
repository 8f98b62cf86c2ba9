//! The text of a report.

ghost use Rattle.std.specs.Prelude.{◌≡◌, ◌++◌, IfOk, OnOk};
ghost use Rattle.hv_report.specs.Report.{AreInState, IsInState, faults_text, hart_line, harts_text, head_line, report_of, watch_line, watch_text, watches_text};

use crate::dumps::put_dumps;
use crate::machine::machine_words;
use crate::puts::{put_answer, put_path};
use hv_load::Plan;
use hv_map::Path;
use hv_nest::Nested;
use hv_run::{FaultRow, Record, WatchRow, fault_line, machine_lines};
use hv_text::{put, put_number};
use std::alloc::{AllocError, Global};

/// The report on a play, which the engine has made to its end: what was told of it, the machines that run, the watches, the
/// faults that are kept, and the pages that the plan shows. The hart of each watch is there, and the bare page of its block
/// too. The state stays, also where memory is wanting.
#[tactic(auto, unfolding(crate::specs::Report::report_of))]
pub fn report<N: Nested>(
    alloc: Global,
    nested: &mut N,
    played: &Record,
    plan: &Plan,
) -> Result<Vec<u8>, AllocError>
    requires { AreInState (N.state nested.old) (played.now).watches }
    ensures text { IfOk result (λ text. text.items ≡ report_of played.now plan.now (N.state nested.old)) }
    ensures same { N.state nested.new ≡ N.state nested.old }
{
    let mut out = Vec::new(alloc);
    put_head(&mut out, played)?;
    put_harts(&mut out, nested)?;
    put_watches(alloc, &mut out, nested, played.watches.as_slice())?;
    put_faults(alloc, &mut out, played.kept.as_slice())?;
    put_dumps(alloc, &mut out, nested.parked(), plan.dumps.as_slice())?;
    Ok(out)
}

// Appends how many steps were made, and how many of them were faults and recalls.
pub(crate) fn put_head(out: &mut Vec<u8>, played: &Record) -> Result<(), AllocError>
    ensures { OnOk result (out.new.items ≡ out.old.items ++ head_line played.now) }
{
    put_number(out, b"ran ", played.steps)?;
    put_number(out, b" faults ", played.faults)?;
    put_number(out, b" recalls ", played.recalls)?;
    put(out, b"\n")
}

// Appends the line of each hart.
#[tactic(auto, unfolding(crate::specs::Report::first_harts), using(crate::proofs::Appending::one_more))]
pub(crate) fn put_harts<N: Nested>(out: &mut Vec<u8>, nested: &mut N) -> Result<(), AllocError>
    ensures text { OnOk result (out.new.items ≡ out.old.items ++ harts_text (N.state nested.old)) }
    ensures same { N.state nested.new ≡ N.state nested.old }
{
    for hart in 0..nested.harts() {
        let running = nested.running(hart);
        put_hart(out, hart, &running)?;
    }
    Ok(())
}

/// Appends the line of a hart and of the machine that it runs.
pub fn put_hart(out: &mut Vec<u8>, hart: u32, running: &Path) -> Result<(), AllocError>
    ensures { OnOk result (out.new.items ≡ out.old.items ++ hart_line hart running.now) }
{
    put_number(out, b"hart ", u64::from(hart))?;
    put(out, b" ")?;
    put_path(out, running)?;
    put(out, b"\n")
}

// Appends each watch.
#[tactic(auto, unfolding(crate::specs::Report::watches_text))]
fn put_watches<N: Nested>(
    alloc: Global,
    out: &mut Vec<u8>,
    nested: &N,
    watches: &[WatchRow],
) -> Result<(), AllocError>
    requires { AreInState (N.state nested.now) watches.now }
    ensures { OnOk result (out.new.items ≡ out.old.items ++ watches_text (N.state nested.now) watches.now) }
{
    for watch in watches {
        put_watch(alloc, out, nested, watch)?;
    }
    Ok(())
}

// Appends one watch.
fn put_watch<N: Nested>(
    alloc: Global,
    out: &mut Vec<u8>,
    nested: &N,
    watch: &WatchRow,
) -> Result<(), AllocError>
    requires { IsInState (N.state nested.now) watch.now }
    ensures { OnOk result (out.new.items ≡ out.old.items ++ watch_text (N.state nested.now) watch.now) }
{
    put_watch_line(out, watch)?;
    let words = machine_words(nested, watch.hart, watch.block);
    let lines = machine_lines(alloc, watch.count, &words, watch.lines.as_slice())?;
    put(out, &lines)
}

// Appends what holds of a watched machine at the start and over the play.
pub(crate) fn put_watch_line(out: &mut Vec<u8>, watch: &WatchRow) -> Result<(), AllocError>
    ensures { OnOk result (out.new.items ≡ out.old.items ++ watch_line watch.now) }
{
    put_number(out, b"watch ", u64::from(watch.hart))?;
    put(out, b" ")?;
    put_path(out, &watch.path)?;
    put_answer(out, b" one=", watch.one)?;
    put_answer(out, b" apart=", watch.apart)?;
    put_answer(out, b" touched=", watch.touched)?;
    put(out, b"\n")
}

// Appends the line of each fault.
#[tactic(auto, unfolding(crate::specs::Report::faults_text))]
fn put_faults(alloc: Global, out: &mut Vec<u8>, faults: &[FaultRow]) -> Result<(), AllocError>
    ensures { OnOk result (out.new.items ≡ out.old.items ++ faults_text faults.now) }
{
    for fault in faults {
        let line = fault_line(alloc, fault)?;
        put(out, &line)?;
    }
    Ok(())
}
