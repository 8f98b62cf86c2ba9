//! Writing a parked machine as a text.

ghost use Rattle.std.specs.Prelude.{◌≡◌, ◌++◌, ◌<◌, ◌==◌, IfOk, OnOk};
ghost use Rattle.std.specs.List.{list_all};
ghost use Rattle.hv_word.specs.Storage.{page_count};
ghost use Rattle.hv_capsule.specs.Text.{capsule_text, machine_text, page_line, pages_text, word_digits as word_digits_of, words_digits};

use crate::capsule::Capsule;
use hv_store::Store;
use hv_text::{put, put_decimal};
use std::alloc::{AllocError, Global};

// A word as eight hexadecimal digits in lower case, two for each byte, the lowest byte first.
#[tactic(auto, unfolding(crate::specs::Text::word_digits))]
pub(crate) fn word_digits(word: u32) -> [u8; 8]
    ensures { result ≡ word_digits_of word }
{
    let mut digits = [0; 8];
    match hex::encode_to_slice(word.to_le_bytes(), &mut digits) {
        Ok(()) => digits,
        // Four bytes fill eight digits.
        Err(_) => unreachable!(),
    }
}

// Appends the digits of words.
fn put_words(out: &mut Vec<u8>, words: &[u32]) -> Result<(), AllocError>
    ensures { OnOk result (out.new.items ≡ out.old.items ++ words_digits words.now) }
{
    for word in words {
        put(out, &word_digits(*word))?;
    }
    Ok(())
}

// Appends the line of a page that isn't all zero.
#[tactic(auto, unfolding(crate::specs::Text::page_line))]
fn put_page(out: &mut Vec<u8>, store: &Store, page: u32) -> Result<(), AllocError>
    requires { page < page_count store.now }
    ensures { OnOk result (out.new.items ≡ out.old.items ++ page_line store.now page) }
{
    let _pages = store.pages();
    let words = store.row(1024 * page, 1024);
    if is_zero(words) {
        return Ok(());
    }
    put(out, b"page ")?;
    put_decimal(out, u64::from(page))?;
    put(out, b" ")?;
    put_words(out, words)?;
    put(out, b"\n")
}

// Whether all words are zero.
pub(crate) fn is_zero(words: &[u32]) -> bool
    ensures { result ≡ list_all (λ word. word == 0) words.now }
{
    for word in words {
        if *word != 0 {
            return false;
        }
    }
    true
}

// Appends the lines of all pages that aren't all zero.
fn put_pages(out: &mut Vec<u8>, store: &Store) -> Result<(), AllocError>
    ensures { OnOk result (out.new.items ≡ out.old.items ++ pages_text store.now (page_count store.now)) }
{
    for page in 0..store.pages() {
        put_page(out, store, page)?;
    }
    Ok(())
}

// Appends the text of a machine with these words of its registers and this storage.
fn put_machine(out: &mut Vec<u8>, regs: &[u32], store: &Store) -> Result<(), AllocError>
    ensures { OnOk result (out.new.items ≡ out.old.items ++ machine_text regs.now store.now) }
{
    put(out, b"machine 1\npages ")?;
    put_decimal(out, u64::from(store.pages()))?;
    put(out, b"\nregs ")?;
    put_words(out, regs)?;
    put(out, b"\n")?;
    put_pages(out, store)?;
    put(out, b"end\n")?;
    Ok(())
}

/// Appends the text of a parked machine.
pub fn put_capsule(out: &mut Vec<u8>, capsule: &Capsule) -> Result<(), AllocError>
    ensures { OnOk result (out.new.items ≡ out.old.items ++ capsule_text capsule.now) }
{
    put_machine(out, &capsule.regs, &capsule.store)?;
    Ok(())
}

/// The text of a parked machine.
pub fn write_capsule(alloc: Global, capsule: &Capsule) -> Result<Vec<u8>, AllocError>
    ensures { IfOk result (λ text. text.items ≡ capsule_text capsule.now) }
{
    let mut out = Vec::new(alloc);
    put_capsule(&mut out, capsule)?;
    Ok(out)
}
