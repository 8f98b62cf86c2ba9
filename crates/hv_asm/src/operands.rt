//! The shape of a line: its label, its operation and its operands.

ghost use Rattle.std.specs.Prelude.{◌≡◌, ℕ, ◌+◌, ◌≤◌, ◌<◌, ◌∷◌, length, slice_index_or, vec_len, IfOk, IfSome};
ghost use Rattle.std.specs.Option.{option_copied, option_map};
ghost use Rattle.hv_lex.specs.declared.Token.{Token};
ghost use Rattle.std.specs.Prelude.{true, false};
ghost use Rattle.hv_asm.specs.Operands.{based as based_of, groups_behind, groups_of, is_comma as is_comma_of, operand_of, operands_of, single as single_of, text_of};

use crate::amounts::{Amount, signed};
use hv_lex::{Kind, Token};
use std::alloc::{AllocError, Global};

/// An operand: a name, a number, or a number and the name in parentheses behind it.
#[derive(Clone, Copy)]
pub(crate) enum Operand {
    Name(Token),
    Number(Amount),
    Based(Amount, Token),
}

/// The bytes of a token.
pub(crate) fn text(line: &[u8], token: Token) -> &[u8]
    ensures { result.now ≡ text_of line.now token }
{
    let (front, _) = line.split_at((token.end as usize).min(line.len()));
    let (_, text) = front.split_at((token.start as usize).min(front.len()));
    text
}

fn is_comma(kind: Kind) -> bool
    ensures { result ≡ is_comma_of kind }
{
    match kind {
        Kind::Comma => true,
        Kind::Name | Kind::Number { .. } | Kind::Colon | Kind::Open | Kind::Close => false,
    }
}

fn single(kind: Kind, token: Token) -> Option<Operand>
    ensures { result ≡ single_of kind token }
{
    match kind {
        Kind::Name => Some(Operand::Name(token)),
        Kind::Number { value } => Some(Operand::Number(signed(value))),
        Kind::Comma | Kind::Colon | Kind::Open | Kind::Close => None,
    }
}

fn based(number: Kind, left: Kind, name: Kind, right: Kind, token: Token) -> Option<Operand>
    ensures { result ≡ based_of number left name right token }
{
    match (number, left, name, right) {
        (Kind::Number { value }, Kind::Open, Kind::Name, Kind::Close) => {
            Some(Operand::Based(signed(value), token))
        }
        _ => None,
    }
}

// The operand that some tokens are.
#[tactic(auto, unfolding(crate::specs::Operands::operand_of))]
fn read_operand(tokens: &[Token]) -> Option<Operand>
    ensures value { result ≡ operand_of tokens.now }
    ensures some { IfSome result (λ _. 0 < length tokens.now) }
{
    match tokens {
        [one] => single(one.kind, *one),
        [number, left, name, right] => based(number.kind, left.kind, name.kind, right.kind, *name),
        _ => None,
    }
}

// The tokens before the first comma, and those behind it, where one is there.
fn first_group(tokens: &[Token]) -> (&[Token], Option<&[Token]>)
    ensures cut { groups_of tokens.now ≡ result.0.now ∷ groups_behind (option_copied result.1) }
    ensures shorter { IfSome result.1 (λ rest. length result.0.now + length rest.now < length tokens.now) }
    ensures within { length result.0.now ≤ length tokens.now }
{
    let end = find_comma(tokens);
    let (group, rest) = tokens.split_at(end);
    match rest.split_first() {
        Some((_, rest)) => (group, Some(rest)),
        None => (group, None),
    }
}

// The place of the first comma, or the length where there is none.
fn find_comma(tokens: &[Token]) -> usize
    ensures within { result ≤ length tokens.now }
    ensures before { (k : ℕ) (d : Token) → k < result → is_comma_of (slice_index_or tokens.now k d).kind ≡ false }
    ensures found { (d : Token) → result < length tokens.now
        → is_comma_of (slice_index_or tokens.now result d).kind ≡ true }
{
    tokens
        .iter()
        .position(|token| is_comma(token.kind))
        .unwrap_or(tokens.len())
}

/// The operands that some tokens are. None where commas and tokens stand otherwise.
pub(crate) fn read_operands(
    alloc: Global,
    tokens: &[Token],
) -> Result<Option<Vec<Operand>>, AllocError>
    ensures value { IfOk result (λ found. option_map (λ v. v.items) found ≡ operands_of tokens.now) }
    ensures count { IfOk result (λ found. IfSome found (λ v. vec_len v ≤ length tokens.now)) }
{
    let mut operands = Vec::new(alloc);
    if tokens.is_empty() {
        return Ok(Some(operands));
    }
    let mut rest = tokens;
    loop {
        let (group, more) = first_group(rest);
        let Some(operand) = read_operand(group) else {
            return Ok(None);
        };
        operands.push(operand)?;
        let Some(more) = more else {
            return Ok(Some(operands));
        };
        rest = more;
    }
}
