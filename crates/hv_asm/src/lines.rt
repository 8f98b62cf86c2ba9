//! Lines as they are read, and their sizes.

ghost use Rattle.std.specs.Prelude.{◌≡◌, ◌≤◌, ◌<◌, ◌^◌, ◌+◌, ◌*◌, None, length, IfOk};
ghost use Rattle.hv_asm.specs.Limits.{space_limit};
ghost use Rattle.hv_asm.specs.Operands.{begins_label as begins_label_of, deed_of, read_of, reading_of, size_of, size_with as size_with_of, space_of};
ghost use Rattle.hv_asm.specs.Seen.{deed_in, operand_count, reading_in};

use crate::AsmKind;
use crate::amounts::Amount;
use crate::limits::SPACE_BYTES;
use crate::names::{Operation, operation_named};
use crate::operands::{Operand, read_operands, text};
use hv_lex::{Kind, LexEnd, Token, tokens};
use std::alloc::{AllocError, Global};

/// What a line does: an operation, if its name is one, with its operands.
#[derive(Drop)]
pub(crate) enum Body {
    Refused(AsmKind),
    Nothing,
    Work(Option<Operation>, Vec<Operand>),
}

/// A line: the name that it defines, and what it does.
#[derive(Drop)]
pub(crate) struct Line {
    pub label: Option<Token>,
    pub body: Body,
}

fn begins_label(first: Kind, second: Kind) -> bool
    ensures { result ≡ begins_label_of first second }
{
    match (first, second) {
        (Kind::Name, Kind::Colon) => true,
        _ => false,
    }
}

// What the tokens behind a label do.
#[tactic(auto, unfolding(crate::specs::Operands::deed_of))]
fn read_body(alloc: Global, line: &[u8], tokens: &[Token]) -> Result<Body, AllocError>
    ensures deed { IfOk result (λ body. deed_in body ≡ deed_of line.now tokens.now) }
    ensures count { IfOk result (λ body. operand_count body ≤ length tokens.now) }
{
    let Some((first, behind)) = tokens.split_first() else {
        return Ok(Body::Nothing);
    };
    match first.kind {
        Kind::Name => {}
        Kind::Number { .. } | Kind::Comma | Kind::Colon | Kind::Open | Kind::Close => {
            return Ok(Body::Refused(AsmKind::Syntax));
        }
    }
    let Some(operands) = read_operands(alloc, behind)? else {
        return Ok(Body::Refused(AsmKind::Syntax));
    };
    Ok(Body::Work(operation_named(text(line, *first)), operands))
}

// A line from its tokens.
#[tactic(auto, unfolding(crate::specs::Operands::reading_of))]
fn read_shape(alloc: Global, line: &[u8], tokens: &[Token]) -> Result<Line, AllocError>
    ensures reading { IfOk result (λ read. reading_in line.now read ≡ reading_of line.now tokens.now) }
    ensures count { IfOk result (λ read. operand_count read.body ≤ length tokens.now) }
{
    if let [first, second, behind @ ..] = tokens {
        if begins_label(first.kind, second.kind) {
            let body = read_body(alloc, line, behind)?;
            return Ok(Line {
                label: Some(*first),
                body,
            });
        }
    }
    let body = read_body(alloc, line, tokens)?;
    Ok(Line { label: None, body })
}

/// Reads a line.
#[tactic(auto, unfolding(crate::specs::Operands::read_of))]
pub(crate) fn read_line(alloc: Global, line: &[u8]) -> Result<Line, AllocError>
    requires { length line.now + 1 < 2 ^ 32 }
    ensures reading { IfOk result (λ read. reading_in line.now read ≡ read_of line.now) }
    ensures count { IfOk result (λ read. operand_count read.body ≤ length line.now) }
{
    let tokens = match tokens(alloc, line) {
        Ok(tokens) => tokens,
        Err(LexEnd::BadByte { .. }) => return Ok(refused(AsmKind::Byte)),
        Err(LexEnd::BadNumber { .. }) => return Ok(refused(AsmKind::Syntax)),
        Err(LexEnd::Memory) => return Err(AllocError),
    };
    read_shape(alloc, line, &tokens)
}

fn refused(kind: AsmKind) -> Line
    ensures { result ≡ record { label = None; body = Body.Refused kind } }
{
    Line {
        label: None,
        body: Body::Refused(kind),
    }
}

// How many bytes `.space` makes.
fn space(operands: &[Operand]) -> u64
    ensures size { result ≡ space_of operands.now }
    ensures most { result ≤ space_limit }
{
    let [Operand::Number(Amount::Plus(size))] = operands else {
        return 0;
    };
    if *size <= SPACE_BYTES && *size % 4 == 0 {
        *size
    } else {
        0
    }
}

fn size_with(operation: Operation, operands: &[Operand]) -> u64
    requires { length operands.now < 2 ^ 32 }
    ensures size { result ≡ size_with_of operation operands.now }
    ensures most { result ≤ space_limit + 4 * length operands.now }
{
    match operation {
        Operation::Li | Operation::La => 8,
        Operation::Words => 4 * operands.len() as u64,
        Operation::Space => space(operands),
        _ => 4,
    }
}

/// How many bytes a line makes, refused or not.
#[tactic(auto, unfolding(crate::specs::Operands::size_of))]
pub(crate) fn size(body: &Body) -> u64
    requires { operand_count body.now < 2 ^ 32 }
    ensures size { result ≡ size_of (deed_in body.now) }
    ensures most { result ≤ space_limit + 4 * operand_count body.now }
{
    match body {
        Body::Work(Some(operation), operands) => size_with(*operation, operands),
        Body::Work(None, _) | Body::Refused(_) | Body::Nothing => 0,
    }
}
