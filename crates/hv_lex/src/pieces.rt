//! The first piece of a text: a word, a number with a minus, a comment, or a byte alone.

ghost use Rattle.std.specs.Prelude.{◌≡◌, ◌≢◌, ℕ, ◌+◌, ◌^◌, ◌<◌, ◌≤◌, [], ◌∷◌, true, false, length, drop, slice_index, option_to_list, IfOk, IfErr, MatchResult};
ghost use Rattle.std.specs.Option.{option_map};
ghost use Rattle.hv_lex.specs.Numbers.{number_of};
ghost use Rattle.hv_lex.specs.Tokens.{StandsAt, begins_number as begins_number_of, comment_from, is_digit as is_digit_of, is_letter as is_letter_of, is_plain as is_plain_of, lexed_at, number_token, sign_token as sign_token_of, value_of, with_front};

use crate::numbers::read_number;
use crate::{Kind, LexEnd, Token};

// How many bytes a piece has, and the token that it is.
#[derive(Drop)]
pub(crate) struct Piece {
    pub size: usize,
    pub token: Option<Token>,
}

// The first piece of a text that is at this place of the line.
pub(crate) fn first_piece(at: u32, text: &[u8]) -> Result<Piece, LexEnd>
    requires some { 0 < length text.now }
    requires fits { at + length text.now < 2 ^ 32 }
    ensures found { IfOk result (λ piece. lexed_at at text.now ≡
        with_front (option_to_list piece.token) (lexed_at (at + piece.size) (drop piece.size text.now))) }
    ensures size { IfOk result (λ piece. (0 < piece.size) × (piece.size ≤ length text.now)) }
    ensures stands { IfOk result (λ piece. StandsAt at piece.size piece.token) }
    ensures refused { IfErr result (λ end. lexed_at at text.now ≡ Err end) }
{
    let first = text[0];
    if is_letter(first) {
        return word(at, text);
    }
    let (_, behind) = text.split_at(1);
    match first {
        b'#' => comment(at, behind),
        b'-' => negative(at, behind),
        _ => sign(at, first, behind),
    }
}

// A word, which is a number where it begins with a digit.
fn word(at: u32, text: &[u8]) -> Result<Piece, LexEnd>
    requires letter { is_letter_of (slice_index text.now 0) ≡ true }
    requires some { 0 < length text.now }
    requires fits { at + length text.now < 2 ^ 32 }
    ensures found { IfOk result (λ piece. lexed_at at text.now ≡
        with_front (option_to_list piece.token) (lexed_at (at + piece.size) (drop piece.size text.now))) }
    ensures size { IfOk result (λ piece. (0 < piece.size) × (piece.size ≤ length text.now)) }
    ensures stands { IfOk result (λ piece. StandsAt at piece.size piece.token) }
    ensures refused { IfErr result (λ end. lexed_at at text.now ≡ Err end) }
{
    let size = letters(text);
    let (word, _) = text.split_at(size);
    let end = at + size as u32;
    if !begins_number(word) {
        let kind = Kind::Name;
        let token = Token {
            start: at,
            end,
            kind,
        };
        return Ok(Piece {
            size,
            token: Some(token),
        });
    }
    let token = number(at, end, false, word)?;
    Ok(Piece {
        size,
        token: Some(token),
    })
}

// What is behind a minus: the digits of a number.
fn negative(at: u32, behind: &[u8]) -> Result<Piece, LexEnd>
    requires { at + 1 + length behind.now < 2 ^ 32 }
    ensures found { IfOk result (λ piece. lexed_at at (45 ∷ behind.now) ≡
        with_front (option_to_list piece.token) (lexed_at (at + piece.size) (drop piece.size (45 ∷ behind.now)))) }
    ensures size { IfOk result (λ piece. (0 < piece.size) × (piece.size ≤ 1 + length behind.now)) }
    ensures stands { IfOk result (λ piece. StandsAt at piece.size piece.token) }
    ensures refused { IfErr result (λ end. lexed_at at (45 ∷ behind.now) ≡ Err end) }
{
    let size = letters(behind);
    let (word, _) = behind.split_at(size);
    if !begins_number(word) {
        return Err(LexEnd::BadByte { at });
    }
    let size = 1 + size;
    let token = number(at, at + size as u32, true, word)?;
    Ok(Piece {
        size,
        token: Some(token),
    })
}

// What is behind a `#`.
fn comment(at: u32, behind: &[u8]) -> Result<Piece, LexEnd>
    requires { at + 1 + length behind.now < 2 ^ 32 }
    ensures found { IfOk result (λ piece. lexed_at at (35 ∷ behind.now) ≡
        with_front (option_to_list piece.token) (lexed_at (at + piece.size) (drop piece.size (35 ∷ behind.now)))) }
    ensures size { IfOk result (λ piece. (0 < piece.size) × (piece.size ≤ 1 + length behind.now)) }
    ensures stands { IfOk result (λ piece. StandsAt at piece.size piece.token) }
    ensures refused { IfErr result (λ end. lexed_at at (35 ∷ behind.now) ≡ Err end) }
{
    check_comment(at + 1, behind)?;
    let size = 1 + behind.len();
    Ok(Piece { size, token: None })
}

// Refuses the first byte that may not stand in a comment.
fn check_comment(at: u32, text: &[u8]) -> Result<(), LexEnd>
    requires { at + length text.now < 2 ^ 32 }
    ensures { MatchResult result (λ _. comment_from at text.now ≡ Ok []) (λ end. comment_from at text.now ≡ Err end) }
{
    for (i, byte) in text.iter().enumerate() {
        if !is_plain(*byte) {
            return Err(LexEnd::BadByte { at: at + i as u32 });
        }
    }
    Ok(())
}

// A byte that is no letter, no minus and no `#`.
fn sign(at: u32, byte: u8, behind: &[u8]) -> Result<Piece, LexEnd>
    requires fits { at + 1 + length behind.now < 2 ^ 32 }
    requires letter { is_letter_of byte ≡ false }
    requires comment { byte ≢ 35 }
    requires minus { byte ≢ 45 }
    ensures found { IfOk result (λ piece. lexed_at at (byte ∷ behind.now) ≡
        with_front (option_to_list piece.token) (lexed_at (at + piece.size) (drop piece.size (byte ∷ behind.now)))) }
    ensures size { IfOk result (λ piece. (0 < piece.size) × (piece.size ≤ 1 + length behind.now)) }
    ensures stands { IfOk result (λ piece. StandsAt at piece.size piece.token) }
    ensures refused { IfErr result (λ end. lexed_at at (byte ∷ behind.now) ≡ Err end) }
{
    let token = sign_token(at, byte)?;
    Ok(Piece { size: 1, token })
}

// The token of a byte alone; a blank or a tab has none.
#[tactic(auto, unfolding(crate::specs::Tokens::sign_token))]
fn sign_token(at: u32, byte: u8) -> Result<Option<Token>, LexEnd>
    requires { at + 1 < 2 ^ 32 }
    ensures value { MatchResult result (λ token. sign_token_of at byte ≡ Ok (option_to_list token))
        (λ end. sign_token_of at byte ≡ Err end) }
    ensures stands { IfOk result (StandsAt at 1) }
{
    let kind = match byte {
        b' ' | b'\t' => return Ok(None),
        b',' => Kind::Comma,
        b':' => Kind::Colon,
        b'(' => Kind::Open,
        b')' => Kind::Close,
        _ => return Err(LexEnd::BadByte { at }),
    };
    let token = Token {
        start: at,
        end: at + 1,
        kind,
    };
    Ok(Some(token))
}

// The token of the number that a word is, with its sign.
#[tactic(auto, unfolding(crate::specs::Tokens::number_token))]
fn number(start: u32, end: u32, minus: bool, word: &[u8]) -> Result<Token, LexEnd>
    ensures value { MatchResult result
        (λ token. number_token start end (option_map (value_of minus) (number_of word.now)) ≡ Ok (token ∷ []))
        (λ fault. number_token start end (option_map (value_of minus) (number_of word.now)) ≡ Err fault) }
    ensures stands { IfOk result (λ token. (token.start ≡ start) × (token.end ≡ end)) }
{
    let Some(magnitude) = read_number(word) else {
        return Err(LexEnd::BadNumber { at: start });
    };
    let magnitude = i64::from(magnitude);
    let value = if minus { -magnitude } else { magnitude };
    let kind = Kind::Number { value };
    Ok(Token { start, end, kind })
}

// How many letters stand at the front.
fn letters(text: &[u8]) -> usize
    ensures within { result ≤ length text.now }
    ensures letters { (k : ℕ) → k < result → is_letter_of (slice_index text.now k) ≡ true }
    ensures ends { result < length text.now → is_letter_of (slice_index text.now result) ≡ false }
{
    text.iter()
        .position(|byte| !is_letter(*byte))
        .unwrap_or(text.len())
}

#[tactic(auto, unfolding(crate::specs::Tokens::begins_number))]
fn begins_number(word: &[u8]) -> bool
    ensures { result ≡ begins_number_of word.now }
{
    match word.split_first() {
        Some((first, _)) => is_digit(*first),
        None => false,
    }
}

#[tactic(auto, unfolding(crate::specs::Tokens::is_digit))]
fn is_digit(byte: u8) -> bool
    ensures { result ≡ is_digit_of byte }
{
    byte >= b'0' && byte <= b'9'
}

#[tactic(auto, unfolding(crate::specs::Tokens::is_letter))]
fn is_letter(byte: u8) -> bool
    ensures { result ≡ is_letter_of byte }
{
    is_digit(byte)
        || (byte >= b'a' && byte <= b'z')
        || (byte >= b'A' && byte <= b'Z')
        || byte == b'_'
        || byte == b'.'
}

#[tactic(auto, unfolding(crate::specs::Tokens::is_plain))]
fn is_plain(byte: u8) -> bool
    ensures { result ≡ is_plain_of byte }
{
    byte == b'\t' || (byte >= b' ' && byte <= b'~')
}
