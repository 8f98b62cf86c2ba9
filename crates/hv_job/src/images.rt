//! The lines of an image, which are a text of assembly.

ghost use Rattle.std.specs.Prelude.{◌≡◌, ◌+◌, ◌%◌, ◌<◌, ◌≤◌, ◌^◌, false, true, length, IfOk, MatchOption};
ghost use Rattle.std.specs.List.{list_any};
ghost use Rattle.hv_lex.specs.Lines.{lines_of};
ghost use Rattle.hv_job.specs.Drafted.{FitsBehind, GivesDraft, end_at, end_inside};
ghost use Rattle.hv_job.specs.Inside.{IsCut};
ghost use Rattle.hv_job.specs.JobOf.{asm_kind, body_from, image_lines_with, is_end as is_end_of};

use crate::draft::Draft;
use crate::ends::JobEnd;
use hv_asm::{AsmEnd, AsmKind, assemble};
use hv_lex::first_line;
use hv_line::{Directive, JobKind, JobLineEnd, Name, has_allowed_bytes, is_only};
use std::alloc::Global;

/// What is left of a text, and the number of its first line.
#[derive(Clone, Copy)]
pub(crate) struct Rest<'a> {
    pub text: &'a [u8],
    pub number: u32,
}

// A text that was cut at the end of an image: the lines inside and how many they are, the line that ends it, and the
// text behind.
#[derive(Clone, Copy)]
struct Cut<'a> {
    inside: &'a [u8],
    count: u32,
    last: &'a [u8],
    behind: &'a [u8],
}

#[tactic(auto, unfolding(crate::specs::JobOf::is_end))]
fn is_end(line: &[u8]) -> bool
    ensures { result ≡ is_end_of line.now }
{
    is_only(b"end", line)
}

// The lines of an image, unless no line ends it.
fn cut_at_end(text: &[u8]) -> Option<Cut<'_>>
    requires { length text.now + 1 < 2 ^ 32 }
    ensures { MatchOption result (list_any is_end_of (lines_of text.now) ≡ false)
        (λ cut. IsCut text.now cut.inside.now cut.last.now cut.behind.now cut.count) }
{
    let mut rest = text;
    let mut count = 0;
    while !rest.is_empty() {
        let (line, behind) = first_line(rest);
        if is_end(line) {
            let (inside, _) = text.split_at(text.len() - rest.len());
            return Some(Cut {
                inside,
                count,
                last: line,
                behind,
            });
        }
        count += 1;
        rest = behind;
    }
    None
}

fn kind_of(kind: AsmKind) -> JobKind
    ensures { result ≡ asm_kind kind }
{
    match kind {
        AsmKind::Byte => JobKind::Byte,
        AsmKind::Syntax => JobKind::Syntax,
        AsmKind::Repeat => JobKind::Repeat,
        AsmKind::Mnemonic => JobKind::Mnemonic,
        AsmKind::Operand => JobKind::Operand,
        AsmKind::Label => JobKind::Label,
        AsmKind::Range => JobKind::Range,
    }
}

// The end of a text inside an image that begins on this line.
fn inside(end: AsmEnd, number: u32) -> JobEnd
    requires { FitsBehind end number }
    ensures { result ≡ end_inside end number }
{
    match end {
        AsmEnd::AsmFault { line, kind } => JobEnd::JobFault {
            line: number + line,
            kind: kind_of(kind),
        },
        AsmEnd::Memory => JobEnd::Memory,
    }
}

/// The end of a text at a line.
pub(crate) fn at_line(end: JobLineEnd, line: u32) -> JobEnd
    ensures { result ≡ end_at end line }
{
    match end {
        JobLineEnd::Fault(kind) => JobEnd::JobFault { line, kind },
        JobLineEnd::Memory => JobEnd::Memory,
    }
}

/// Appends the image that a line begins, and gives what is behind its end.
#[tactic(auto, unfolding(crate::specs::JobOf::image_lines_with))]
pub(crate) fn read_image<'a>(
    alloc: Global,
    draft: &mut Draft,
    number: u32,
    name: Name,
    base: u32,
    behind: &'a [u8],
) -> Result<Rest<'a>, JobEnd>
    requires aligned { base % 4 ≡ 0 }
    requires length { number + length behind.now + 1 < 2 ^ 32 }
    ensures draft { GivesDraft result (image_lines_with draft.old number name base (lines_of behind.now)) draft.new }
    ensures rest { IfOk result (λ rest. body_from draft.new true (number + 1) (lines_of behind.now)
        ≡ body_from draft.new false rest.number (lines_of rest.text.now)) }
    ensures size { IfOk result (λ rest. rest.number + length rest.text.now ≤ number + 1 + length behind.now) }
    ensures later { IfOk result (λ rest. number < rest.number) }
{
    let Some(cut) = cut_at_end(behind) else {
        return Err(JobEnd::JobFault {
            line: number,
            kind: JobKind::Open,
        });
    };
    let image = match assemble(alloc, cut.inside, base) {
        Ok(image) => image,
        Err(end) => return Err(inside(end, number)),
    };
    let last = number + 1 + cut.count;
    if !has_allowed_bytes(cut.last) {
        return Err(JobEnd::JobFault {
            line: last,
            kind: JobKind::Byte,
        });
    }
    match draft.place(number, Directive::Image { name, image }) {
        Ok(()) => Ok(Rest {
            text: cut.behind,
            number: last + 1,
        }),
        Err(end) => Err(at_line(end, last)),
    }
}
