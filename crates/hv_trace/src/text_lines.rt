//! The rows and the end of a trace's text, line by line.

ghost use Rattle.std.specs.Prelude.{◌≡◌, ℕ, List, ◌+◌, ◌^◌, ◌<◌, ◌++◌, length, IfOk, IfErr, OnOk};
ghost use Rattle.hv_trace.specs.Text.{rows_text};
ghost use Rattle.hv_trace.specs.declared.ends.TraceKind.{TraceKind};
ghost use Rattle.hv_trace.specs.declared.row.TraceRow.{TraceRow};
ghost use Rattle.hv_trace.specs.TextLines.{AreWordRows, GivesRows, HasNoRow, IfFault, Refuses, StopsHere, StopsInRows, end_line};

use crate::ends::{TraceEnd, TraceKind};
use crate::row::TraceRow;
use crate::text_rows::read_row;
use std::alloc::Global;

// Whether a text that begins with no row, over a storage of so many words, is the end line. This is its first line's
// number.
fn check_end(words: u32, line: u64, text: &[u8]) -> Result<(), TraceEnd>
    requires row { HasNoRow words text.now }
    requires room { line + 1 < 2 ^ 64 }
    ensures ok { OnOk result (text.now ≡ end_line) }
    ensures err { IfErr result (λ e. IfFault (StopsHere words line text.now) e) }
{
    let _words = words;
    if text.is_empty() {
        return fault(line, TraceKind::End);
    }
    if text == b"end".as_slice() {
        return fault(line, TraceKind::End);
    }
    if text == b"end\n".as_slice() {
        return Ok(());
    }
    if text.starts_with(b"end\n".as_slice()) {
        fault(line + 1, TraceKind::End)
    } else {
        fault(line, TraceKind::Row)
    }
}

// A refusal at a line.
fn fault<T>(line: u64, kind: TraceKind) -> Result<T, TraceEnd>
    ensures { result ≡ Err (TraceEnd.TraceFault line kind) }
{
    Err(TraceEnd::TraceFault { line, kind })
}

// The rows of a text, which the end line ends, over a storage of so many words. The first line has the number `first`.
fn read_lines(alloc: Global, words: u32, first: u64, text: &[u8]) -> Result<Vec<TraceRow>, TraceEnd>
    requires { first + length text.now + 1 < 2 ^ 64 }
    ensures ok { IfOk result (λ rows. AreWordRows words rows.items × (text.now ≡ rows_text rows.items ++ end_line)) }
    ensures err { IfErr result (λ e. IfFault (StopsInRows words first text.now) e) }
{
    let mut rows = Vec::new(alloc);
    let mut line = first;
    let mut rest = text;
    loop {
        let Some((row, behind)) = read_row(words, rest) else {
            return match check_end(words, line, rest) {
                Ok(()) => Ok(rows),
                Err(end) => Err(end),
            };
        };
        rows.push(row)?;
        line += 1;
        rest = behind;
    }
}

/// The rows of a text, which the end line ends, over a storage of so many words. The first line has the number `first`.
/// What isn't so is refused at its first line that is neither a row nor the end line, as `Row`; or as `End`, where the
/// text is cut off before a line or before the line feed of its end, or goes on behind its end.
pub fn read_rows(
    alloc: Global,
    words: u32,
    first: u64,
    text: &[u8],
) -> Result<Vec<TraceRow>, TraceEnd>
    requires { first + length text.now + 1 < 2 ^ 64 }
    // What is read is written so.
    ensures ok { IfOk result (λ rows. AreWordRows words rows.items × (text.now ≡ rows_text rows.items ++ end_line)) }
    // What is written so is read.
    ensures read { (rows : List TraceRow) → AreWordRows words rows → text.now ≡ rows_text rows ++ end_line → GivesRows rows result }
    // A refused line is one.
    ensures err { IfErr result (λ e. IfFault (StopsInRows words first text.now) e) }
    // And there is no other.
    ensures refused { (at : ℕ) (kind : TraceKind) → StopsInRows words first text.now at kind → Refuses at kind result }
{
    read_lines(alloc, words, first, text)
}
