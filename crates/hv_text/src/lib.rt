//! Appending pieces of text: bytes, decimal numbers, and words in hexadecimal digits.
#![tactic(auto)]

ghost use Rattle.std.specs.Prelude.{◌≡◌, ◌++◌, OnOk};
ghost use Rattle.std.specs.Fmt.{decimal};
ghost use Rattle.hv_text.specs.Text.{hex8 as hex8_of, line, words_text};

use itoa::Buffer;
use std::alloc::AllocError;

/// Appends a text.
pub fn put(out: &mut Vec<u8>, text: &[u8]) -> Result<(), AllocError>
    ensures { OnOk result (out.new.items ≡ out.old.items ++ text.now) }
{
    out.extend_from_slice(text)
}

/// Appends a text and the line feed that ends it.
pub fn put_line(out: &mut Vec<u8>, text: &[u8]) -> Result<(), AllocError>
    ensures { OnOk result (out.new.items ≡ out.old.items ++ line text.now) }
{
    put(out, text)?;
    put(out, b"\n")
}

/// Appends a number in decimal digits.
pub fn put_decimal(out: &mut Vec<u8>, number: u64) -> Result<(), AllocError>
    ensures { OnOk result (out.new.items ≡ out.old.items ++ decimal number) }
{
    put(out, Buffer::new().format(number).as_bytes())
}

/// Appends a label, and a number behind it in decimal digits.
pub fn put_number(out: &mut Vec<u8>, label: &[u8], number: u64) -> Result<(), AllocError>
    ensures { OnOk result (out.new.items ≡ out.old.items ++ label.now ++ decimal number) }
{
    put(out, label)?;
    put_decimal(out, number)
}

/// Appends a word as eight hexadecimal digits in lower case.
pub fn put_hex8(out: &mut Vec<u8>, word: u32) -> Result<(), AllocError>
    ensures { OnOk result (out.new.items ≡ out.old.items ++ hex8_of word) }
{
    put(out, &hex8(word))
}

/// Appends each word as eight hexadecimal digits behind a space.
#[tactic(auto, unfolding(crate::specs::Text::words_text))]
pub fn put_words(out: &mut Vec<u8>, words: &[u32]) -> Result<(), AllocError>
    ensures { OnOk result (out.new.items ≡ out.old.items ++ words_text words.now) }
{
    for word in words {
        put(out, b" ")?;
        put_hex8(out, *word)?;
    }
    Ok(())
}

/// A word as eight hexadecimal digits in lower case, the highest first.
#[tactic(auto, unfolding(crate::specs::Text::hex8))]
pub fn hex8(word: u32) -> [u8; 8]
    ensures { result ≡ hex8_of word }
{
    let mut digits = [0; 8];
    match hex::encode_to_slice(word.to_be_bytes(), &mut digits) {
        Ok(()) => digits,
        // Four bytes fill eight digits.
        Err(_) => unreachable!(),
    }
}
