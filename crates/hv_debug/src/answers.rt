//! What commands answer.

ghost use Rattle.std.specs.Prelude.{◌≡◌, ◌++◌, ◌<◌, OnOk, length};
ghost use Rattle.hv_run.specs.Play.{play_record};
ghost use Rattle.hv_map.specs.Chain.{map_along};
ghost use Rattle.hv_report.specs.Report.{faults_text, hart_text};
ghost use Rattle.hv_debug.specs.Answers.{halt_line, echo_line, end_text, map_text, mem_text, page_trail, pages_text, regs_text, stop_text, trail_text};

use crate::machines::{chain_of, page_of};
use crate::stop::Stop;
use hv_block::block_word;
use hv_job::Name;
use hv_load::Named;
use hv_map::{Chain, Path, Way, trail};
use hv_nest::Nested;
use hv_report::{machine_words, put_hart};
use hv_run::{Play, fault_line, register_lines};
use hv_store::Store;
use hv_text::{hex8, put, put_hex8, put_line, put_number};
use std::alloc::{AllocError, Global};

/// Appends the words of a command.
pub(crate) fn put_echo(out: &mut Vec<u8>, words: &[u8]) -> Result<(), AllocError>
    ensures { OnOk result (out.new.items ≡ out.old.items ++ echo_line words.now) }
{
    put(out, b"> ")?;
    put_line(out, words)
}

/// Appends how many steps were made, and why the last ones ended.
pub(crate) fn put_at(out: &mut Vec<u8>, steps: u64, stop: Stop) -> Result<(), AllocError>
    ensures { OnOk result (out.new.items ≡ out.old.items ++ halt_line steps stop) }
{
    put_number(out, b"at ", steps)?;
    put_stop(out, stop)?;
    put(out, b"\n")
}

// Appends why steps ended, where not all of them were made.
fn put_stop(out: &mut Vec<u8>, stop: Stop) -> Result<(), AllocError>
    ensures { OnOk result (out.new.items ≡ out.old.items ++ stop_text stop) }
{
    match stop {
        Stop::Done => Ok(()),
        Stop::AtBreak => put(out, b" break"),
        Stop::AtEnd => put(out, b" end"),
    }
}

/// Appends the registers of a machine, of hart 0 for the bare machine.
pub(crate) fn put_regs<N: Nested>(
    alloc: Global,
    out: &mut Vec<u8>,
    nested: &N,
    names: &[Named],
    name: &Name,
) -> Result<(), AllocError>
    ensures { OnOk result (out.new.items ≡ out.old.items ++ regs_text (N.state nested.now) name.now names.now) }
{
    // There is a hart.
    let _harts = nested.harts();
    let store = nested.parked();
    match chain_of(store, names, name) {
        Some(chain) => {
            let words = machine_words(nested, 0, chain.last_block());
            let lines = register_lines(alloc, &words)?;
            put(out, &lines)
        }
        None => put(out, b"gone\n"),
    }
}

/// Appends a word of a machine, if its page can be read.
pub(crate) fn put_mem(
    out: &mut Vec<u8>,
    store: &Store,
    names: &[Named],
    name: &Name,
    address: u32,
) -> Result<(), AllocError>
    ensures { OnOk result (out.new.items ≡ out.old.items ++ mem_text store.now name.now address names.now) }
{
    match page_of(store, names, name, address / 4096) {
        Some(host) => {
            put_hex8(out, address)?;
            put(out, b" ")?;
            put_line(out, &hex8(block_word(store, host, address % 4096 / 4)))
        }
        None => put(out, b"absent\n"),
    }
}

/// Appends the path of the machine that a hart runs. A hart that isn't there runs the bare machine.
pub(crate) fn put_running<N: Nested>(
    out: &mut Vec<u8>,
    nested: &mut N,
    hart: u32,
) -> Result<(), AllocError>
    ensures text { OnOk result (out.new.items ≡ out.old.items ++ hart_text (N.state nested.old) hart) }
    ensures same { N.state nested.new ≡ N.state nested.old }
{
    let running = if hart < nested.harts() {
        nested.running(hart)
    } else {
        Path::new()
    };
    put_hart(out, hart, &running)
}

/// Appends the trail of a machine's page, if the machine has that page.
pub(crate) fn put_map(
    out: &mut Vec<u8>,
    store: &Store,
    names: &[Named],
    name: &Name,
    page: u32,
) -> Result<(), AllocError>
    ensures { OnOk result (out.new.items ≡ out.old.items ++ map_text store.now name.now page names.now) }
{
    match chain_of(store, names, name) {
        Some(chain) if page < chain.pages(store) => put_trail(out, store, &chain, page),
        _ => put(out, b"absent\n"),
    }
}

// Appends the trail of a page that the chain's machine has.
fn put_trail(out: &mut Vec<u8>, store: &Store, chain: &Chain, page: u32) -> Result<(), AllocError>
    requires { page < length (map_along store.now chain.now) }
    ensures { OnOk result (out.new.items ≡ out.old.items ++ page_trail store.now page (Some chain.now)) }
{
    let trail = trail(store, chain, page);
    put_pages(out, &trail.pages[..trail.len as usize])?;
    put_end(out, trail.end)?;
    put(out, b"\n")
}

// Appends the pages of a trail.
fn put_pages(out: &mut Vec<u8>, pages: &[u32]) -> Result<(), AllocError>
    ensures { OnOk result (out.new.items ≡ out.old.items ++ trail_text pages.now) }
{
    match pages.split_first() {
        Some((page, pages)) => {
            put_number(out, b"", u64::from(*page))?;
            put_outer(out, pages)
        }
        None => Ok(()),
    }
}

// Appends each page behind an arrow.
#[tactic(auto, unfolding(crate::specs::Answers::pages_text))]
fn put_outer(out: &mut Vec<u8>, pages: &[u32]) -> Result<(), AllocError>
    ensures { OnOk result (out.new.items ≡ out.old.items ++ pages_text pages.now) }
{
    for page in pages {
        put_number(out, b" > ", u64::from(*page))?;
    }
    Ok(())
}

// Appends which map refuses, if one does.
fn put_end(out: &mut Vec<u8>, end: Way) -> Result<(), AllocError>
    ensures { OnOk result (out.new.items ≡ out.old.items ++ end_text end) }
{
    match end {
        Way::Open { .. } => Ok(()),
        Way::Shut { level, cause, .. } => {
            put_number(out, b" refused level ", u64::from(level))?;
            put_number(out, b" cause ", u64::from(cause))
        }
    }
}

/// Appends the lines of the faults that a play keeps.
#[tactic(auto, unfolding(hv_report::specs::Report::faults_text))]
pub(crate) fn put_faults(alloc: Global, out: &mut Vec<u8>, play: &Play) -> Result<(), AllocError>
    ensures { OnOk result (out.new.items ≡ out.old.items ++ faults_text (play_record play.now).kept) }
{
    for i in 0..play.kept_len() {
        let line = fault_line(alloc, &play.kept(i))?;
        put(out, &line)?;
    }
    Ok(())
}
