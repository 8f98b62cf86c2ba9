//! Finding the labels of a text, and the lines without an operation.

ghost use Rattle.std.specs.Prelude.{ℕ, ◌≡◌, ◌+◌, ◌<◌, ◌^◌, List, true, length, IfOk};
ghost use Rattle.hv_lex.specs.Lines.{lines_of};
ghost use Rattle.hv_asm.specs.Assembly.{place_of};
ghost use Rattle.hv_asm.specs.Labels.{place_in};
ghost use Rattle.hv_asm.specs.Operands.{Nothing};
ghost use Rattle.hv_asm.specs.Outlines.{AreIdle, NoneRepeats};
ghost use Rattle.hv_asm.specs.Seen.{deed_in};

use crate::labels::{Labels, Place, note};
use crate::lines::{Body, read_line, size};
use hv_lex::first_line;
use std::alloc::{AllocError, Global};

/// What a first look at a text finds.
#[derive(Drop)]
pub(crate) struct Outline<'a> {
    pub labels: Labels<'a>,
    /// A flag for each line, which is set where the line has a label at most.
    pub idle: Vec<bool>,
}

fn is_idle(body: &Body) -> bool
    ensures { result ≡ true → deed_in body.now ≡ Nothing }
{
    match body {
        Body::Nothing => true,
        Body::Refused(_) | Body::Work(_, _) => false,
    }
}

/// The labels of a text whose first address is the base, and the flags of its lines.
pub(crate) fn find_outline<'a>(
    alloc: Global,
    text: &'a [u8],
    base: u32,
) -> Result<Outline<'a>, AllocError>
    requires { length text.now + 1 < 2 ^ 32 }
    ensures places { IfOk result (λ outline. (q : List ℕ)
        → place_in outline.labels q ≡ place_of base (lines_of text.now) q) }
    ensures distinct { IfOk result (λ outline. outline.labels.distinct ≡ true
        → NoneRepeats (place_in outline.labels) 1 (lines_of text.now)) }
    ensures idle { IfOk result (λ outline. AreIdle outline.idle.items (lines_of text.now)) }
{
    let mut definitions = Vec::new(alloc);
    let mut idle = Vec::new(alloc);
    let mut rest = text;
    let mut line = 1;
    let mut at = u64::from(base);
    while !rest.is_empty() {
        let (bytes, behind) = first_line(rest);
        let read = read_line(alloc, bytes)?;
        note(&mut definitions, bytes, &read, Place { line, at })?;
        idle.push(is_idle(&read.body))?;
        at += size(&read.body);
        line += 1;
        rest = behind;
    }
    let labels = Labels::new(definitions)?;
    Ok(Outline { labels, idle })
}
