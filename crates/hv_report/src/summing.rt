//! The summary of a generated job.

ghost use Rattle.std.specs.Prelude.{◌≡◌, ◌%◌, ◌^◌, ◌++◌, IfOk, OnOk, sum};
ghost use Rattle.hv_report.specs.Report.{AreInState, IsInState};
ghost use Rattle.hv_report.specs.Summary.{number_line, sum_lines, checksum_of, summary_of, summed_watch, summed_watches};

use crate::machine::machine_words;
use crate::reporting::{put_harts, put_head, put_watch_line};
use hv_nest::Nested;
use hv_run::{Record, WatchRow};
use hv_text::{put, put_hex8, put_number};
use std::alloc::{AllocError, Global};

/// The summary of the play of the job that a number generates, whose tower has this depth: the steps, the machines that run,
/// and for each watch its count and the sum of its machine's registers. The hart of each watch is there, and the bare page
/// of its block too. The state stays.
#[tactic(auto, unfolding(crate::specs::Summary::summary_of))]
pub fn summary<N: Nested>(
    alloc: Global,
    nested: &mut N,
    played: &Record,
    number: u32,
    depth: u32,
) -> Result<Vec<u8>, AllocError>
    requires { AreInState (N.state nested.old) (played.now).watches }
    ensures text { IfOk result (λ text. text.items ≡ summary_of number depth played.now (N.state nested.old)) }
    ensures same { N.state nested.new ≡ N.state nested.old }
{
    let mut out = Vec::new(alloc);
    put_number_line(&mut out, number, depth)?;
    put_head(&mut out, played)?;
    put_harts(&mut out, nested)?;
    put_summed(&mut out, nested, played.watches.as_slice())?;
    Ok(out)
}

// Appends the number, and the depth of its tower.
fn put_number_line(out: &mut Vec<u8>, number: u32, depth: u32) -> Result<(), AllocError>
    ensures { OnOk result (out.new.items ≡ out.old.items ++ number_line number depth) }
{
    put_number(out, b"gen ", u64::from(number))?;
    put_number(out, b" depth ", u64::from(depth))?;
    put(out, b"\n")
}

// Appends each watch.
#[tactic(auto, unfolding(crate::specs::Summary::summed_watches))]
fn put_summed<N: Nested>(
    out: &mut Vec<u8>,
    nested: &N,
    watches: &[WatchRow],
) -> Result<(), AllocError>
    requires { AreInState (N.state nested.now) watches.now }
    ensures { OnOk result (out.new.items ≡ out.old.items ++ summed_watches (N.state nested.now) watches.now) }
{
    for watch in watches {
        put_sum(out, nested, watch)?;
    }
    Ok(())
}

// Appends one watch.
fn put_sum<N: Nested>(out: &mut Vec<u8>, nested: &N, watch: &WatchRow) -> Result<(), AllocError>
    requires { IsInState (N.state nested.now) watch.now }
    ensures { OnOk result (out.new.items ≡ out.old.items ++ summed_watch (N.state nested.now) watch.now) }
{
    put_watch_line(out, watch)?;
    let words = machine_words(nested, watch.hart, watch.block);
    put_sum_lines(out, watch.count, &words)
}

// Appends a count, and the sum of a machine's registers.
fn put_sum_lines(out: &mut Vec<u8>, count: u64, words: &[u32; 50]) -> Result<(), AllocError>
    ensures { OnOk result (out.new.items ≡ out.old.items ++ sum_lines count words.now) }
{
    put_number(out, b"count ", count)?;
    put(out, b"\nsum ")?;
    put_hex8(out, sum_of_words(words))?;
    put(out, b"\n")
}

// The sum of x1 to x31.
fn sum_of_words(words: &[u32; 50]) -> u32
    ensures { result ≡ checksum_of words.now }
{
    wrapped_sum(&words[1..32])
}

// The sum of words, modulo 2^32.
fn wrapped_sum(words: &[u32]) -> u32
    ensures { result ≡ sum words.now % 2 ^ 32 }
{
    let mut total: u32 = 0;
    for word in words {
        total = total.wrapping_add(*word);
    }
    total
}
