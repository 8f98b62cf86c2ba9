//! The assembler: the words of a text of assembly.
#![tactic(auto)]

ghost use Rattle.std.specs.Prelude.{◌≡◌, ℕ, ◌+◌, ◌*◌, ◌%◌, ◌<◌, ◌≤◌, ◌^◌, List, ◌∷◌, true, false, length, IfOk};
ghost use Rattle.hv_asm.specs.Answer.{AppendsLine, GivesImage, GivesWords, ended};
ghost use Rattle.hv_asm.specs.Assembly.{asm_of, line_words, repeats, words_from};
ghost use Rattle.hv_asm.specs.Kinds.{asm_kind_text};
ghost use Rattle.hv_asm.specs.Labels.{place_in};
ghost use Rattle.hv_asm.specs.Limits.{space_limit};
ghost use Rattle.hv_asm.specs.Operands.{Nothing, read_of, size_of};
ghost use Rattle.hv_asm.specs.Outlines.{AreIdle, NoneRepeats};
ghost use Rattle.hv_lex.specs.Lines.{lines_of};

mod amounts;
mod assembled;
mod emits;
mod forms;
mod label_names;
mod labels;
pub mod laws;
mod limits;
mod lines;
mod names;
mod operands;
mod places;
mod rows;

use assembled::{Extent, push_line};
use emits::EmitEnd;
use hv_lex::first_line;
use hv_list::Items;
use labels::Labels;
pub use limits::{IMAGE_BYTES, SPACE_BYTES, asm_limits_are_kept};
use lines::{read_line, size};
use places::{Outline, find_outline};
use std::alloc::{AllocError, Global};
use std::fmt::{self, Display, Formatter};

/// Why a line is refused, in the order of the tests.
#[derive(Clone, Copy, Debug, PartialEq, Eq)]
pub enum AsmKind {
    /// A byte is in no token, or may not stand in a comment.
    Byte,
    /// A number is none, or the tokens make no line.
    Syntax,
    /// The label was defined on an earlier line.
    Repeat,
    /// No operation has this name.
    Mnemonic,
    /// The operands are too few, too many, or of another kind.
    Operand,
    /// A label isn't defined.
    Label,
    /// A number is outside its range, or the words are too many or pass the last address.
    Range,
}

impl AsmKind {
    /// The word that stands for the kind in a refusal.
    pub fn word(self) -> &'static str
        ensures { result.now ≡ asm_kind_text self }
    {
        match self {
            AsmKind::Byte => "byte",
            AsmKind::Syntax => "syntax",
            AsmKind::Repeat => "repeat",
            AsmKind::Mnemonic => "mnemonic",
            AsmKind::Operand => "operand",
            AsmKind::Label => "label",
            AsmKind::Range => "range",
        }
    }
}

impl Display for AsmKind {
    ghost use Rattle.std.specs.Prelude.{Some};
    ghost use Rattle.hv_asm.specs.Kinds.{asm_kind_text};

    ghost output = { λ kind. Some (asm_kind_text kind) };

    fn fmt<W: fmt::Write>(&self, f: &mut Formatter<W>) -> fmt::Result {
        f.write_str(self.word())
    }
}

/// Why a text has no words.
#[derive(Clone, Copy, Debug, PartialEq, Eq)]
pub enum AsmEnd {
    /// The line of this number is refused; lines are numbered from 1.
    AsmFault { line: u32, kind: AsmKind },
    /// Memory is wanting.
    Memory,
}

impl From<AllocError> for AsmEnd {
    ghost use Rattle.std.specs.Prelude.{◌≡◌};
    ghost use Rattle.hv_asm.specs.declared.AsmEnd.TheVariants.{Memory};

    ghost from_gives = { λ _ end. end ≡ Memory };

    fn from(_error: AllocError) -> AsmEnd {
        AsmEnd::Memory
    }
}

/// Words in the order of their addresses, and the address of the first of them.
#[derive(Drop)]
pub struct Image {
    pub base: u32,
    pub words: Items<u32>,
}

/// The words of a text of assembly whose first address is the base, a multiple of 4. A refusal is that of the least
/// line that is refused. A text has at most 2^32 - 2 bytes.
#[tactic(auto, unfolding(crate::specs::Assembly::asm_of))]
pub fn assemble(alloc: Global, text: &[u8], base: u32) -> Result<Image, AsmEnd>
    requires aligned { base % 4 ≡ 0 }
    requires length { length text.now + 1 < 2 ^ 32 }
    ensures { GivesImage base result (asm_of text.now base) }
{
    let outline = find_outline(alloc, text, base)?;
    let words = assemble_lines(alloc, &outline, text, base)?;
    Ok(Image {
        base,
        words: Items::new(words),
    })
}

// The words of the lines of the text that was outlined. An idle line isn't read again where no label repeats another.
fn assemble_lines(
    alloc: Global,
    outline: &Outline,
    text: &[u8],
    base: u32,
) -> Result<Vec<u32>, AsmEnd>
    requires length { length text.now + 1 < 2 ^ 32 }
    requires distinct { outline.now.labels.distinct ≡ true
        → NoneRepeats (place_in outline.now.labels) 1 (lines_of text.now) }
    requires idle { AreIdle outline.now.idle.items (lines_of text.now) }
    ensures { GivesWords result (words_from (place_in outline.now.labels) base 1 base (lines_of text.now)) }
{
    let mut words = Vec::new(alloc);
    let mut rest = text;
    let mut flags = outline.idle.as_slice();
    let mut number = 1;
    let mut at = u64::from(base);
    while !rest.is_empty() {
        let (bytes, behind) = first_line(rest);
        let (idle, others) = first_flag(flags);
        let line = TextLine {
            bytes,
            number,
            at,
            idle,
        };
        let size = assemble_line(alloc, &mut words, &outline.labels, base, line)?;
        at += size;
        number += 1;
        rest = behind;
        flags = others;
    }
    Ok(words)
}

// A line of a text: its number, its address, and whether it is known to be idle.
#[derive(Clone, Copy)]
struct TextLine<'a> {
    bytes: &'a [u8],
    number: u32,
    at: u64,
    idle: bool,
}

// Appends the words of a line, and gives its size.
fn assemble_line(
    alloc: Global,
    words: &mut Vec<u32>,
    labels: &Labels,
    base: u32,
    line: TextLine<'_>,
) -> Result<u64, AsmEnd>
    requires length { length line.bytes.now + 1 < 2 ^ 32 }
    requires at { line.at < 2 ^ 63 }
    requires distinct { labels.now.distinct ≡ true
        → repeats (place_in labels.now) line.number (read_of line.bytes.now).label ≡ false }
    requires idle { line.idle ≡ true → (read_of line.bytes.now).deed ≡ Nothing }
    ensures words { AppendsLine result line.entry.number
        (line_words (place_in labels.now) base line.entry.number line.entry.at line.entry.bytes.now
        (read_of line.entry.bytes.now))
        words.old.items words.new.items }
    ensures size { IfOk result (λ size. size ≡ size_of (read_of line.entry.bytes.now).deed) }
    ensures most { IfOk result (λ size. size ≤ space_limit + 4 * length line.entry.bytes.now) }
{
    if line.idle && labels.distinct {
        return Ok(0);
    }
    let read = read_line(alloc, line.bytes)?;
    let size = size(&read.body);
    let extent = Extent {
        base,
        number: line.number,
        at: line.at,
        end: line.at + size,
    };
    match push_line(words, labels, extent, line.bytes, &read) {
        Ok(()) => Ok(size),
        Err(end) => Err(at_line(end, line.number)),
    }
}

// The flag of the first line, and those of the lines behind. Where no flag is left, none is set.
fn first_flag(flags: &[bool]) -> (bool, &[bool])
    ensures { (line : List ℕ) (lines : List (List ℕ)) → AreIdle flags.now (line ∷ lines)
        → (result.0 ≡ true → (read_of line).deed ≡ Nothing) × AreIdle result.1.now lines }
{
    match flags.split_first() {
        Some((flag, behind)) => (*flag, behind),
        None => (false, flags),
    }
}

// The end of a text at a line.
fn at_line(end: EmitEnd, line: u32) -> AsmEnd
    ensures { result ≡ ended end line }
{
    match end {
        EmitEnd::Fault(kind) => AsmEnd::AsmFault { line, kind },
        EmitEnd::Memory => AsmEnd::Memory,
    }
}
