//! The pieces of a parked machine's text, read from its front.

ghost use Rattle.std.specs.Prelude.{◌≡◌, ◌≢◌, ℕ, ◌<◌, ◌≤◌, ◌∷◌, ◌++◌, IfSome, IfNone, List, length, slice_index};
ghost use Rattle.std.specs.Fmt.{decimal};
ghost use Rattle.std.specs.List.{AllByRecursion};
ghost use Rattle.hv_block.specs.Block.{fits_hart};
ghost use Rattle.hv_capsule.specs.Lines.{AreRegs, HasNoNext, IsNext, IsSize, IsWord, filled_line, regs_line, size_line};
ghost use Rattle.hv_capsule.specs.Parked.{regs_of_words};
ghost use Rattle.hv_capsule.specs.Text.{word_digits as word_digits_of, words_digits};

use crate::writing::{is_zero, word_digits};
use hv_cpu::mstatus::{MPP, MPP_BITS};
use hv_cpu::{MEDELEG_MASK, MIDELEG_MASK, MIE_MASK, MIP_MASK, MSTATUS_MASK, SATP_MASK};
use hv_lex::read_number;
use hv_limits::PAGES;
use hv_word::field;
use itoa::Buffer;

// What is behind `front`, where the text begins with it.
pub(crate) fn after<'a>(front: &[u8], text: &'a [u8]) -> Option<&'a [u8]>
    ensures some { IfSome result (λ rest. text.now ≡ front.now ++ rest.now) }
    ensures none { IfNone result ((behind : List ℕ) → text.now ≢ front.now ++ behind) }
{
    if text.starts_with(front) {
        Some(&text[front.len()..])
    } else {
        None
    }
}

// The word of eight digits at the front, the lowest byte first, with what is behind it.
fn read_word(text: &[u8]) -> Option<(u32, &[u8])>
    ensures word { IfSome result (λ found. IsWord found.0) }
    ensures some { IfSome result (λ found. text.now ≡ word_digits_of found.0 ++ found.1.now) }
    ensures none { IfNone result ((word : ℕ) (behind : List ℕ) → IsWord word → text.now ≢ word_digits_of word ++ behind) }
{
    if text.len() < 8 {
        return None;
    }
    let (front, rest) = text.split_at(8);
    let mut bytes = [0; 4];
    if hex::decode_to_slice(front, &mut bytes).is_err() {
        return None;
    }
    let word = u32::from_le_bytes(bytes);
    if word_digits(word).as_slice() == front {
        Some((word, rest))
    } else {
        None
    }
}

// Reads as many words as `out` has room for, and answers what is behind them.
fn read_words<'a>(out: &mut [u32], text: &'a [u8]) -> Option<&'a [u8]>
    ensures each { IfSome result (λ _. AllByRecursion IsWord out.new) }
    ensures some { IfSome result (λ rest. text.now ≡ words_digits out.new ++ rest.now) }
    ensures none { IfNone result ((words behind : List ℕ) → length words ≡ length out.old → AllByRecursion IsWord words
        → text.now ≢ words_digits words ++ behind) }
    ensures len { length out.new ≡ length out.old }
{
    let mut rest = text;
    for i in 0..out.len() {
        let Some((word, behind)) = read_word(rest) else {
            return None;
        };
        out[i] = word;
        rest = behind;
    }
    Some(rest)
}

// What is before the first byte `stop`, and what is behind it.
fn cut_at(stop: u8, text: &[u8]) -> Option<(&[u8], &[u8])>
    ensures cut { IfSome result (λ parts. text.now ≡ parts.0.now ++ stop ∷ parts.1.now) }
    ensures first { IfSome result (λ parts. (k : ℕ) → k < length parts.0.now → slice_index parts.0.now k ≢ stop) }
    ensures none { IfNone result ((k : ℕ) → k < length text.now → slice_index text.now k ≢ stop) }
{
    let at = text.iter().position(|byte| *byte == stop)?;
    Some((&text[..at], &text[at + 1..]))
}

// The decimal number at the front, before a byte that is no digit, with what is behind that byte.
fn read_decimal(stop: u8, text: &[u8]) -> Option<(u32, &[u8])>
    requires { stop < 48 }
    ensures word { IfSome result (λ found. IsWord found.0) }
    ensures some { IfSome result (λ found. text.now ≡ decimal found.0 ++ stop ∷ found.1.now) }
    ensures none { IfNone result ((n : ℕ) (behind : List ℕ) → IsWord n → text.now ≢ decimal n ++ stop ∷ behind) }
{
    let Some((front, rest)) = cut_at(stop, text) else {
        return None;
    };
    let Some(number) = read_number(front) else {
        return None;
    };
    if Buffer::new().format(number).as_bytes() == front {
        Some((number, rest))
    } else {
        None
    }
}

// The number of pages in the line at the front, and what is behind it.
pub(crate) fn read_size(text: &[u8]) -> Option<(u32, &[u8])>
    ensures is { IfSome result (λ found. IsSize found.0) }
    ensures some { IfSome result (λ found. text.now ≡ size_line found.0 ++ found.1.now) }
    ensures none { IfNone result ((pages : ℕ) (behind : List ℕ) → IsSize pages → text.now ≢ size_line pages ++ behind) }
{
    let Some(rest) = after(b"pages ", text) else {
        return None;
    };
    let Some((pages, rest)) = read_decimal(b'\n', rest) else {
        return None;
    };
    if pages == 0 {
        return None;
    }
    if pages <= PAGES {
        Some((pages, rest))
    } else {
        None
    }
}

// Whether a hart can have the registers that 50 words spell.
fn is_of_hart(words: &[u32]) -> bool
    requires { length words.now ≡ 50 }
    ensures { result ≡ fits_hart (regs_of_words words.now) }
{
    if words[0] % 4 != 0 || words[32] > 3 || words[32] == 2 {
        return false;
    }
    if words[33] & MSTATUS_MASK != words[33] || field::<MPP, MPP_BITS>(words[33]) == 2 {
        return false;
    }
    if words[34] % 4 > 1 || words[35] % 4 != 0 {
        return false;
    }
    if words[39] & MEDELEG_MASK != words[39] || words[40] & MIDELEG_MASK != words[40] {
        return false;
    }
    if words[41] & MIE_MASK != words[41] || words[42] & MIP_MASK != words[42] {
        return false;
    }
    words[43] % 4 < 2 && words[44] % 4 == 0 && words[48] & SATP_MASK == words[48]
}

// The registers in the line at the front, well formed for so many pages, are read into `words`; answers what is behind.
pub(crate) fn read_regs<'a>(pages: u32, words: &mut [u32], text: &'a [u8]) -> Option<&'a [u8]>
    requires { length words.old ≡ 50 }
    ensures are { IfSome result (λ _. AreRegs pages words.new) }
    ensures some { IfSome result (λ rest. text.now ≡ regs_line words.new ++ rest.now) }
    ensures none { IfNone result ((ws behind : List ℕ) → AreRegs pages ws → text.now ≢ regs_line ws ++ behind) }
    ensures len { length words.new ≡ 50 }
{
    let Some(rest) = after(b"regs ", text) else {
        return None;
    };
    let Some(rest) = read_words(words, rest) else {
        return None;
    };
    let Some(rest) = after(b"\n", rest) else {
        return None;
    };
    if !is_of_hart(words) {
        return None;
    }
    if words[49] == 0 {
        return Some(rest);
    }
    if words[49] < pages { Some(rest) } else { None }
}

// The page in the line at the front, one from `least` on of so many pages: its number, and what is behind the line. The
// words are read into `words`.
pub(crate) fn read_page<'a>(
    pages: u32,
    least: u32,
    words: &mut [u32],
    text: &'a [u8],
) -> Option<(u32, &'a [u8])>
    requires { length words.old ≡ 1024 }
    ensures next { IfSome result (λ found. IsNext pages least found.0 words.new) }
    ensures some { IfSome result (λ found. text.now ≡ filled_line found.0 words.new ++ found.1.now) }
    ensures none { IfNone result (HasNoNext pages least text.now) }
    ensures len { length words.new ≡ 1024 }
{
    let Some(rest) = after(b"page ", text) else {
        return None;
    };
    let Some((page, rest)) = read_decimal(b' ', rest) else {
        return None;
    };
    let Some(rest) = read_words(words, rest) else {
        return None;
    };
    let Some(rest) = after(b"\n", rest) else {
        return None;
    };
    if is_zero(words) {
        return None;
    }
    if page < least {
        return None;
    }
    if page < pages {
        Some((page, rest))
    } else {
        None
    }
}
