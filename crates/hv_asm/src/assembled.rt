//! The lines of a text, one after another.

ghost use Rattle.std.specs.Prelude.{◌≡◌, ◌+◌, ◌<◌, true, false};
ghost use Rattle.hv_asm.specs.Assembly.{has_room as has_room_of, line_words, repeats as repeats_of, worked_words};
ghost use Rattle.hv_asm.specs.Emitted.{Appends};
ghost use Rattle.hv_asm.specs.Labels.{place_in};
ghost use Rattle.hv_asm.specs.Operands.{size_of, text_of};
ghost use Rattle.hv_asm.specs.Seen.{deed_in, reading_in};
ghost use Rattle.std.specs.Option.{option_map};

use crate::AsmKind;
use crate::emits::{EmitEnd, push_words};
use crate::labels::Labels;
use crate::limits::IMAGE_BYTES;
use crate::lines::{Body, Line};
use crate::operands::text;
use hv_lex::Token;

/// Where a line stands: the base of its text, its number, and the addresses of its first byte and behind its last.
#[derive(Clone, Copy)]
pub(crate) struct Extent {
    pub base: u32,
    pub number: u32,
    pub at: u64,
    pub end: u64,
}

fn has_room(base: u32, end: u64) -> bool
    ensures { result ≡ has_room_of base end }
{
    end <= u64::from(base) + IMAGE_BYTES && end <= 0x1_0000_0000
}

fn repeats(labels: &Labels, number: u32, line: &[u8], label: Option<Token>) -> bool
    requires { labels.now.distinct ≡ true
        → repeats_of (place_in labels.now) number (option_map (text_of line.now) label) ≡ false }
    ensures { result ≡ repeats_of (place_in labels.now) number (option_map (text_of line.now) label) }
{
    if labels.distinct {
        return false;
    }
    let Some(label) = label else {
        return false;
    };
    match labels.find(text(line, label)) {
        Some(place) => place.line < number,
        None => false,
    }
}

// Appends the words of what a line does.
fn push_work(
    out: &mut Vec<u32>,
    labels: &Labels,
    extent: Extent,
    line: &[u8],
    body: &Body,
) -> Result<(), EmitEnd>
    ensures { Appends result
        (worked_words (place_in labels.now) extent.base extent.at extent.end line.now (deed_in body.now))
        out.old.items out.new.items }
{
    match body {
        Body::Refused(kind) => Err(EmitEnd::Fault(*kind)),
        Body::Nothing => Ok(()),
        Body::Work(None, _) => Err(EmitEnd::Fault(AsmKind::Mnemonic)),
        Body::Work(Some(operation), operands) => {
            push_words(out, labels, extent.at, line, *operation, operands)?;
            if has_room(extent.base, extent.end) {
                Ok(())
            } else {
                Err(EmitEnd::Fault(AsmKind::Range))
            }
        }
    }
}

/// Appends the words of a line.
#[tactic(auto, unfolding(crate::specs::Assembly::line_words))]
pub(crate) fn push_line(
    out: &mut Vec<u32>,
    labels: &Labels,
    extent: Extent,
    line: &[u8],
    read: &Line,
) -> Result<(), EmitEnd>
    requires end { extent.end ≡ extent.at + size_of (deed_in read.now.body) }
    requires distinct { labels.now.distinct ≡ true
        → repeats_of (place_in labels.now) extent.number (reading_in line.now read.now).label ≡ false }
    ensures { Appends result
        (line_words (place_in labels.now) extent.base extent.number extent.at line.now (reading_in line.now read.now))
        out.old.items out.new.items }
{
    if let Body::Refused(kind) = &read.body {
        return Err(EmitEnd::Fault(*kind));
    }
    if repeats(labels, extent.number, line, read.label) {
        return Err(EmitEnd::Fault(AsmKind::Repeat));
    }
    push_work(out, labels, extent, line, &read.body)
}
