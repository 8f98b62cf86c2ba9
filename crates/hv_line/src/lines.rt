//! The words of a line.

ghost use Rattle.std.specs.Prelude.{◌≡◌, ◌≤◌, ◌<◌, ℕ, ◌∷◌, [], true, false, length, nat_lt, slice_index, take, MatchOption};
ghost use Rattle.hv_line.specs.Lines.{begins_with as begins_with_of, is_allowed, is_blank as is_blank_of, is_only as is_only_of, is_word_byte as is_word_byte_of, version_of, words_of};
ghost use Rattle.hv_line.specs.Texts.{texts};

use crate::version::JobVersion;
use crate::words::is;

/// Whether a line has no other bytes than the printable ones of ASCII and tabs.
#[tactic(auto, unfolding(crate::specs::Lines::is_allowed))]
pub fn has_allowed_bytes(line: &[u8]) -> bool
    ensures { result ≡ is_allowed line.now }
{
    line.iter()
        .all(|byte| *byte == b'\t' || (*byte >= b' ' && *byte <= b'~'))
}

/// The first word of a line, and the line behind it, where it has a word.
pub(crate) fn first_word(line: &[u8]) -> Option<(&[u8], &[u8])>
    ensures cut { MatchOption result (words_of line.now ≡ []) (λ cut. words_of line.now ≡ cut.0.now ∷ words_of cut.1.now) }
    ensures behind { MatchOption result (Unit {0}) (λ cut. length cut.1.now < length line.now) }
{
    let (_, text) = line.split_at(blanks(line));
    let (word, rest) = text.split_at(letters(text));
    if word.is_empty() {
        None
    } else {
        Some((word, rest))
    }
}

// How many blanks and tabs stand at the front.
fn blanks(text: &[u8]) -> usize
    ensures within { result ≤ length text.now }
    ensures before { (k : ℕ) → k < result → is_blank_of (slice_index text.now k) ≡ true }
    ensures ends { result < length text.now → is_blank_of (slice_index text.now result) ≡ false }
{
    for (i, byte) in text.iter().enumerate() {
        if !is_blank(*byte) {
            return i;
        }
    }
    text.len()
}

// How many bytes of a word stand at the front.
fn letters(text: &[u8]) -> usize
    ensures within { result ≤ length text.now }
    ensures before { (k : ℕ) → k < result → is_word_byte_of (slice_index text.now k) ≡ true }
    ensures ends { result < length text.now → is_word_byte_of (slice_index text.now result) ≡ false }
{
    for (i, byte) in text.iter().enumerate() {
        if !is_word_byte(*byte) {
            return i;
        }
    }
    text.len()
}

#[tactic(auto, unfolding(crate::specs::Lines::is_blank))]
fn is_blank(byte: u8) -> bool
    ensures { result ≡ is_blank_of byte }
{
    byte == b' ' || byte == b'\t'
}

#[tactic(auto, unfolding(crate::specs::Lines::is_word_byte))]
fn is_word_byte(byte: u8) -> bool
    ensures { result ≡ is_word_byte_of byte }
{
    !(is_blank(byte) || byte == b'#')
}

/// The most words that are kept of a line: one more than any directive has.
pub(crate) const WORDS: usize = 13;

/// The words of a line, without those behind the thirteenth.
#[derive(Drop)]
pub(crate) struct Words<'a> {
    count: usize,
    words: [&'a [u8]; WORDS],
    ghost within: { count ≤ 13 },
}

impl<'a> Words<'a> {
    /// The words in order.
    pub fn as_slice(&self) -> &[&'a [u8]]
        ensures { result.now ≡ take self.now.count self.now.words }
    {
        &self.words[..self.count]
    }
}

/// The words of a line, without those behind the thirteenth.
pub(crate) fn read_words(line: &[u8]) -> Words<'_>
    ensures { texts (take result.count result.words) ≡ take 13 (words_of line.now) }
{
    let mut words = [b"".as_slice(); WORDS];
    let mut count = 0;
    let mut rest = line;
    while count < WORDS {
        let Some((word, behind)) = first_word(rest) else {
            return Words { count, words };
        };
        words[count] = word;
        count += 1;
        rest = behind;
    }
    Words { count, words }
}

/// Whether a line has words.
pub fn has_words(line: &[u8]) -> bool
    ensures { result ≡ nat_lt 0 (length (words_of line.now)) }
{
    first_word(line).is_some()
}

/// The form that a first line says, where its words are exactly `job` and `1`, or `job` and `2`.
#[tactic(auto, unfolding(crate::specs::Lines::version_of))]
pub fn read_version(line: &[u8]) -> Option<JobVersion>
    ensures { result ≡ version_of (words_of line.now) }
{
    let Some((job, rest)) = first_word(line) else {
        return None;
    };
    let Some((number, rest)) = first_word(rest) else {
        return None;
    };
    if has_words(rest) {
        None
    } else if is(job, b"job") && is(number, b"1") {
        Some(JobVersion::One)
    } else if is(job, b"job") && is(number, b"2") {
        Some(JobVersion::Two)
    } else {
        None
    }
}

/// Whether the first word of a line is this text.
#[tactic(auto, unfolding(crate::specs::Lines::begins_with))]
pub fn begins_with(text: &[u8], line: &[u8]) -> bool
    ensures { result ≡ begins_with_of text.now (words_of line.now) }
{
    match first_word(line) {
        Some((word, _)) => is(word, text),
        None => false,
    }
}

/// Whether the only word of a line is this text.
#[tactic(auto, unfolding(crate::specs::Lines::is_only))]
pub fn is_only(text: &[u8], line: &[u8]) -> bool
    ensures { result ≡ is_only_of text.now (words_of line.now) }
{
    match first_word(line) {
        Some((word, rest)) => !has_words(rest) && is(word, text),
        None => false,
    }
}
