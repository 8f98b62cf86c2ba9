//! The pieces of a row's text.

ghost use Rattle.std.specs.Prelude.{◌≡◌, ◌≢◌, ℕ, ◌<◌, ◌∷◌, ◌++◌, IfSome, IfNone, List, length, slice_index};
ghost use Rattle.std.specs.Option.{option_map};
ghost use Rattle.hv_text.specs.Text.{hex8 as hex8_of};
ghost use Rattle.hv_trace.specs.Rows.{IsOfWords};
ghost use Rattle.hv_trace.specs.Text.{IsChange, IsStored, IsTail, IsWord, ReadsFront, change_text, number_text, pair_text, stored_text, tail_text};

use hv_lex::read_number;
use hv_text::hex8;
use itoa::Buffer;

// What is behind this byte, where the text begins with it.
pub(crate) fn after(byte: u8, text: &[u8]) -> Option<&[u8]>
    ensures some { IfSome result (λ rest. text.now ≡ byte ∷ rest.now) }
    ensures none { IfNone result ((behind : List ℕ) → text.now ≢ byte ∷ behind) }
{
    match text.split_first() {
        Some((first, rest)) if *first == byte => Some(rest),
        _ => None,
    }
}

// The word of eight digits at the front, with what is behind it.
pub(crate) fn read_word(text: &[u8]) -> Option<(u32, &[u8])>
    ensures { ReadsFront IsWord hex8_of (option_map (λ found. (found.0, found.1.now)) result) text.now }
{
    if text.len() < 8 {
        return None;
    }
    let (front, rest) = text.split_at(8);
    let mut bytes = [0; 4];
    if hex::decode_to_slice(front, &mut bytes).is_err() {
        return None;
    }
    let word = u32::from_be_bytes(bytes);
    if hex8(word).as_slice() == front {
        Some((word, rest))
    } else {
        None
    }
}

// What is before the first colon, and what is behind it.
fn at_colon(text: &[u8]) -> Option<(&[u8], &[u8])>
    ensures cut { IfSome result (λ parts. text.now ≡ parts.0.now ++ 58 ∷ parts.1.now) }
    ensures first { IfSome result (λ parts. (k : ℕ) → k < length parts.0.now → slice_index parts.0.now k ≢ 58) }
    ensures none { IfNone result ((k : ℕ) → k < length text.now → slice_index text.now k ≢ 58) }
{
    let at = text.iter().position(|byte| *byte == b':')?;
    Some((&text[..at], &text[at + 1..]))
}

// The number at the front, before a colon, with what is behind the colon.
pub(crate) fn read_place(text: &[u8]) -> Option<(u32, &[u8])>
    ensures { ReadsFront IsWord number_text (option_map (λ found. (found.0, found.1.now)) result) text.now }
{
    let (front, rest) = at_colon(text)?;
    let Some(number) = read_number(front) else {
        return None;
    };
    if Buffer::new().format(number).as_bytes() == front {
        Some((number, rest))
    } else {
        None
    }
}

// The place or number at the front with what the word there became, and what is behind.
pub(crate) fn read_pair(text: &[u8]) -> Option<((u32, u32), &[u8])>
    ensures { ReadsFront IsOfWords pair_text (option_map (λ found. (found.0, found.1.now)) result) text.now }
{
    let Some((place, rest)) = read_place(text) else {
        return None;
    };
    let Some((word, rest)) = read_word(rest) else {
        return None;
    };
    Some(((place, word), rest))
}

// The changed word of the registers at the front, and what is behind it.
pub(crate) fn read_change(text: &[u8]) -> Option<((u32, u32), &[u8])>
    ensures { ReadsFront IsChange change_text (option_map (λ found. (found.0, found.1.now)) result) text.now }
{
    let Some(rest) = after(b' ', text) else {
        return None;
    };
    let Some((change, rest)) = read_pair(rest) else {
        return None;
    };
    if change.0 < 50 {
        Some((change, rest))
    } else {
        None
    }
}

// The changed word of a storage of so many words, with the line feed behind it, and what is behind that.
fn read_stored(words: u32, text: &[u8]) -> Option<((u32, u32), &[u8])>
    ensures { ReadsFront (IsStored words) stored_text (option_map (λ found. (found.0, found.1.now)) result) text.now }
{
    let Some((change, rest)) = read_pair(text) else {
        return None;
    };
    let Some(rest) = after(b'\n', rest) else {
        return None;
    };
    if change.0 < words {
        Some((change, rest))
    } else {
        None
    }
}

// The end of a step's row at the front: the changed word of a storage of so many words, or none. And what is behind.
pub(crate) fn read_tail(words: u32, text: &[u8]) -> Option<(Option<(u32, u32)>, &[u8])>
    ensures { ReadsFront (IsTail words) tail_text (option_map (λ found. (found.0, found.1.now)) result) text.now }
{
    match text {
        [b'\n', rest @ ..] => Some((None, rest)),
        [b' ', b'm', b' ', rest @ ..] => {
            let Some((change, rest)) = read_stored(words, rest) else {
                return None;
            };
            Some((Some(change), rest))
        }
        _ => None,
    }
}
