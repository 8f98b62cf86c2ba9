//! The text of a check.

ghost use Rattle.std.specs.Prelude.{◌≡◌, ◌++◌, OnOk};
ghost use Rattle.hv_report.specs.Check.{checked_text, has_twin as has_twin_of};

use crate::reporting::put_watch_line;
use hv_limits::KEPT;
use hv_run::{WatchRow, machine_lines};
use hv_text::put;
use std::alloc::{AllocError, Global};

/// Whether a bare machine is to be run beside a watched one: its pages were one-to-one and lay apart at the start, no other
/// machine touched it, and all changes of its lines are kept.
pub fn has_twin(watch: &WatchRow) -> bool
    ensures { result ≡ has_twin_of watch.now }
{
    watch.one && watch.apart && !watch.touched && watch.line_total <= KEPT as u64
}

/// Appends the line of a watch, and the machine lines of the bare machine that was run beside it, whose 50 words are given,
/// or that there is none.
pub fn put_checked(
    alloc: Global,
    out: &mut Vec<u8>,
    watch: &WatchRow,
    words: Option<[u32; 50]>,
) -> Result<(), AllocError>
    ensures { OnOk result (out.new.items ≡ out.old.items ++ checked_text watch.now words) }
{
    put_watch_line(out, watch)?;
    match words {
        Some(words) => {
            let lines = machine_lines(alloc, watch.count, &words, watch.lines.as_slice())?;
            put(out, &lines)
        }
        None => put(out, b"twin none\n"),
    }
}
