//! The tokens of a line of assembly, and the numbers of job lines.
#![tactic(auto)]

ghost use Rattle.std.specs.Prelude.{◌≡◌, ◌+◌, ◌<◌, ◌^◌, ◌++◌, length, option_to_list, IfOk, OnOk};
ghost use Rattle.hv_lex.specs.Lexed.{Gives};
ghost use Rattle.hv_lex.specs.Tokens.{Rise, tokens_of};

mod lines;
mod numbers;
mod pieces;

pub use lines::first_line;
pub use numbers::read_number;
use pieces::first_piece;
use std::alloc::{AllocFailed, Global};

/// What a token is. A number has its sign.
#[derive(Clone, Copy, Debug, PartialEq, Eq)]
pub enum Kind {
    Name,
    Number { value: i64 },
    Comma,
    Colon,
    Open,
    Close,
}

/// A token: the bytes of the line from `start` on that lie before `end`.
#[derive(Clone, Copy, Debug, PartialEq, Eq)]
pub struct Token {
    pub start: u32,
    pub end: u32,
    pub kind: Kind,
}

/// Why a line has no tokens.
#[derive(Clone, Copy, Debug, PartialEq, Eq)]
pub enum LexEnd {
    /// The byte at this place is in no token and is no blank or tab, or may not stand in a comment.
    BadByte { at: u32 },
    /// The word at this place, or behind the minus there, begins with a digit and is no number.
    BadNumber { at: u32 },
    /// Memory is wanting.
    Memory,
}

impl From<AllocFailed<Token>> for LexEnd {
    ghost use Rattle.std.specs.Prelude.{◌≡◌};
    ghost use Rattle.hv_lex.specs.declared.LexEnd.TheVariants.{Memory};

    ghost from_gives = { λ _ end. end ≡ Memory };

    fn from(_failed: AllocFailed<Token>) -> LexEnd {
        LexEnd::Memory
    }
}

/// The tokens of a line, in order; a refusal is that of the first place that is refused. A line has at most
/// 2^32 - 2 bytes.
pub fn tokens(alloc: Global, line: &[u8]) -> Result<Vec<Token>, LexEnd>
    requires { length line.now + 1 < 2 ^ 32 }
    ensures tokens { Gives result (tokens_of line.now) }
    ensures rise { IfOk result (λ tokens. Rise 0 tokens.items (length line.now)) }
{
    let mut tokens = Vec::new(alloc);
    let mut rest = line;
    let mut at: u32 = 0;
    while !rest.is_empty() {
        let piece = first_piece(at, rest)?;
        push_found(&mut tokens, piece.token)?;
        at += piece.size as u32;
        (_, rest) = rest.split_at(piece.size);
    }
    Ok(tokens)
}

// Appends the token, if there is one.
fn push_found(tokens: &mut Vec<Token>, found: Option<Token>) -> Result<(), AllocFailed<Token>>
    ensures { OnOk result (tokens.new.items ≡ tokens.old.items ++ option_to_list found) }
{
    match found {
        Some(token) => tokens.push(token),
        None => Ok(()),
    }
}
