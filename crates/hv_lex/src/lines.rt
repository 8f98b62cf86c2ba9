//! Cutting a text into lines.

ghost use Rattle.std.specs.Prelude.{◌≡◌, ◌≢◌, ℕ, ◌+◌, ◌-◌, ◌<◌, ◌≤◌, List, ◌∷◌, ◌++◌, length, take, drop, slice_index};
ghost use Rattle.hv_lex.specs.Lines.{IsLineText, cut_of, lines_of, returned as returned_of};

/// The first line of a text, without its line feed and without a carriage return at its end, and the text behind it.
pub fn first_line(text: &[u8]) -> (&[u8], &[u8])
    requires { 0 < length text.now }
    ensures cut { lines_of text.now ≡ result.0.now ∷ lines_of result.1.now }
    ensures shorter { length result.0.now + length result.1.now ≤ length text.now }
    ensures behind { length result.1.now < length text.now }
    ensures rest { result.1.now ≡ drop (length text.now - length result.1.now) text.now }
    ensures front { 0 < length result.1.now
        → IsLineText result.0.now (take (length text.now - length result.1.now) text.now) }
{
    let (line, rest) = first_cut(text);
    (returned(line), rest)
}

// The first line with its carriage return, and the text behind it.
fn first_cut(text: &[u8]) -> (&[u8], &[u8])
    requires { 0 < length text.now }
    ensures cut { cut_of text.now ≡ result.0.now ∷ cut_of result.1.now }
    ensures shorter { length result.0.now + length result.1.now ≤ length text.now }
    ensures behind { length result.1.now < length text.now }
    ensures rest { result.1.now ≡ drop (length text.now - length result.1.now) text.now }
    ensures front { 0 < length result.1.now → (rest : List ℕ)
        → cut_of (take (length text.now - length result.1.now) text.now ++ rest) ≡ result.0.now ∷ cut_of rest }
{
    let end = find(text, b'\n');
    let (line, rest) = text.split_at(end);
    match rest.split_first() {
        Some((_, rest)) => (line, rest),
        None => (line, rest),
    }
}

// The line without the carriage return at its end.
fn returned(line: &[u8]) -> &[u8]
    ensures value { result.now ≡ returned_of line.now }
    ensures shorter { length result.now ≤ length line.now }
{
    let Some((last, front)) = line.split_last() else {
        return line;
    };
    if *last == b'\r' { front } else { line }
}

// The place of the first byte that is `wanted`, or the length where there is none.
fn find(bytes: &[u8], wanted: u8) -> usize
    ensures within { result ≤ length bytes.now }
    ensures before { (k : ℕ) → k < result → slice_index bytes.now k ≢ wanted }
    ensures found { result < length bytes.now → slice_index bytes.now result ≡ wanted }
{
    bytes
        .iter()
        .position(|byte| *byte == wanted)
        .unwrap_or(bytes.len())
}
