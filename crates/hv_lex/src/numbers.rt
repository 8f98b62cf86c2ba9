//! Reading numbers.

ghost use Rattle.std.specs.Prelude.{◌≡◌, ◌≤◌, ◌<◌, IfSome};
ghost use Rattle.std.specs.Option.{option_copied};
ghost use Rattle.hv_lex.specs.Numbers.{after as after_of, digit_in, number_in as number_in_base, number_of};

/// The number that a word is: decimal digits, or `0x` and hexadecimal digits of either case, with a value
/// below 2^32. None where it is no number.
#[tactic(auto, unfolding(crate::specs::Numbers::number_of))]
pub fn read_number(word: &[u8]) -> Option<u32>
    ensures { result ≡ number_of word.now }
{
    match after(b"0x", word) {
        Some(digits) => number_in(16, digits),
        None => number_in(10, word),
    }
}

// What follows `front`, where the text begins so.
fn after<'a>(front: &[u8], text: &'a [u8]) -> Option<&'a [u8]>
    ensures { option_copied result ≡ after_of front.now text.now }
{
    if text.starts_with(front) {
        Some(&text[front.len()..])
    } else {
        None
    }
}

// The number that digits of a base spell.
fn number_in(base: u32, digits: &[u8]) -> Option<u32>
    requires some { 1 ≤ base }
    requires bound { base ≤ 16 }
    ensures { result ≡ number_in_base base digits.now }
{
    if digits.is_empty() {
        return None;
    }
    let mut value: u64 = 0;
    for byte in digits {
        let digit = digit(base, *byte)?;
        value = value * u64::from(base) + u64::from(digit);
        if value > u64::from(u32::MAX) {
            return None;
        }
    }
    Some(value as u32)
}

// The value of a digit of a base.
fn digit(base: u32, byte: u8) -> Option<u32>
    ensures value { result ≡ digit_in base byte }
    ensures below { IfSome result (λ d. d < base) }
{
    let value = match byte {
        b'0'..=b'9' => byte - b'0',
        b'a'..=b'f' => byte - b'a' + 10,
        b'A'..=b'F' => byte - b'A' + 10,
        _ => return None,
    };
    let value = u32::from(value);
    if value < base { Some(value) } else { None }
}
