//! The rows of a trace's text.

ghost use Rattle.std.specs.Prelude.{◌≡◌, ◌≢◌, ℕ, ◌<◌, ◌-◌, ◌∷◌, List, IfSome, IfNone, take, bit_and};
ghost use Rattle.std.specs.Option.{option_map};
ghost use Rattle.hv_limits.specs.Limits.{lines_mask};
ghost use Rattle.hv_trace.specs.Text.{IsWordRow, ReadsFront, row_line};
ghost use Rattle.hv_trace.specs.TextFronts.{AreFront, IsMask, IsTold, StopsAt, mask_text, next_place, told_text};

use crate::row::TraceRow;
use crate::text_pieces::{after, read_change, read_tail, read_word};
use hv_limits::LINES;

// The changed words of the registers at the front of a text, and what is behind them.
struct Changes<'a> {
    len: u32,
    regs: [(u32, u32); 8],
    rest: &'a [u8],
}

// What a step's row says.
#[derive(Drop)]
struct Told {
    pc: u32,
    len: u32,
    regs: [(u32, u32); 8],
    mem: Option<(u32, u32)>,
}

// As many changed words as stand at the front with rising places, at most eight.
fn read_changes(text: &[u8]) -> Changes<'_>
    ensures front { AreFront text.now result.regs result.len result.rest.now }
    ensures stops { StopsAt (8 - result.len) (next_place 0 (take result.len result.regs)) result.rest.now }
{
    let mut regs = [(0, 0); 8];
    let mut len = 0;
    let mut least = 0;
    let mut rest = text;
    while len < 8 {
        let Some((change, behind)) = read_change(rest) else {
            return Changes { len, regs, rest };
        };
        if change.0 < least {
            return Changes { len, regs, rest };
        }
        regs[len as usize] = change;
        len += 1;
        least = change.0 + 1;
        rest = behind;
    }
    Changes { len, regs, rest }
}

// What a step's row says behind its `s`, over a storage of so many words, and what is behind the row.
fn read_step(words: u32, text: &[u8]) -> Option<(Told, &[u8])>
    ensures { ReadsFront (IsTold words) told_text (option_map (λ found. (found.0, found.1.now)) result) text.now }
{
    let Some((pc, rest)) = read_word(text) else {
        return None;
    };
    let Changes { len, regs, rest } = read_changes(rest);
    let Some((mem, rest)) = read_tail(words, rest) else {
        return None;
    };
    Some((Told { pc, len, regs, mem }, rest))
}

// The mask of a row of lines behind its `l`, and what is behind the row.
fn read_mask(text: &[u8]) -> Option<(u32, &[u8])>
    ensures { ReadsFront IsMask mask_text (option_map (λ found. (found.0, found.1.now)) result) text.now }
{
    let Some((mask, rest)) = read_word(text) else {
        return None;
    };
    let Some(rest) = after(b'\n', rest) else {
        return None;
    };
    if mask & LINES == mask {
        Some((mask, rest))
    } else {
        None
    }
}

// What is behind a row's letter and the blank behind it, where the text begins so.
fn after_kind(letter: u8, text: &[u8]) -> Option<&[u8]>
    ensures some { IfSome result (λ rest. text.now ≡ letter ∷ 32 ∷ rest.now) }
    ensures none { IfNone result ((behind : List ℕ) → text.now ≢ letter ∷ 32 ∷ behind) }
{
    let Some(rest) = after(letter, text) else {
        return None;
    };
    after(b' ', rest)
}

// The row at the front, over a storage of so many words, and what is behind it.
pub(crate) fn read_row(words: u32, text: &[u8]) -> Option<(TraceRow, &[u8])>
    ensures { ReadsFront (IsWordRow words) row_line (option_map (λ found. (found.0, found.1.now)) result) text.now }
{
    if let Some(rest) = after_kind(b'l', text) {
        let Some((mask, rest)) = read_mask(rest) else {
            return None;
        };
        return Some((TraceRow::Lines { mask }, rest));
    }
    let Some(rest) = after_kind(b's', text) else {
        return None;
    };
    let Some((told, rest)) = read_step(words, rest) else {
        return None;
    };
    let regs = told.regs;
    let row = TraceRow::Step {
        pc: told.pc,
        len: told.len,
        regs,
        mem: told.mem,
    };
    Some((row, rest))
}
