//! Reading the text of a parked machine.

ghost use Rattle.std.specs.Prelude.{◌≡◌, ◌≢◌, ℕ, List, ◌+◌, ◌*◌, ◌<◌, ◌≤◌, ◌∷◌, ◌++◌, length, drop, IfOk, IfErr};
ghost use Rattle.std.proofs.Math.Seq.{sets};
ghost use Rattle.hv_limits.specs.Limits.{pages_limit};
ghost use Rattle.hv_word.specs.Storage.{page_count};
ghost use Rattle.hv_store.specs.Zeros.{zeros};
ghost use Rattle.hv_capsule.specs.Parked.{Parked};
ghost use Rattle.hv_capsule.specs.Text.{capsule_text};
ghost use Rattle.hv_capsule.specs.declared.ends.CapsuleKind.{CapsuleKind};
ghost use Rattle.hv_capsule.specs.Lines.{AreRegs, HasNoNext, EndsAt, Holds, IfFault, IsFault, IsWant, IsMachine, IsSize, RefusedAt, Stands, StopsAt, StopsHere, StopsInPages, end_line, opened};

use crate::capsule::Capsule;
use crate::ends::{CapsuleEnd, CapsuleKind};
use crate::pieces::{after, read_page, read_regs, read_size};
use hv_store::Store;
use std::alloc::Global;

/// A parked machine at the front of a text: how many lines its text has there, and how many bytes.
#[derive(Drop)]
pub struct Front {
    pub capsule: Capsule,
    pub lines: u64,
    pub size: usize,
}

// A refusal at a line.
fn fault<T>(line: u64, kind: CapsuleKind) -> Result<T, CapsuleEnd>
    ensures { result ≡ Err (CapsuleEnd.CapsuleFault line kind) }
{
    Err(CapsuleEnd::CapsuleFault { line, kind })
}

// The first three lines of a text: how many pages there are, and what is behind the lines. The registers are read into
// `regs`.
fn read_opening<'a>(regs: &mut [u32], text: &'a [u8]) -> Result<(u32, &'a [u8]), CapsuleEnd>
    requires { length regs.old ≡ 50 }
    ensures size { IfOk result (λ found. IsSize found.0) }
    ensures regs { IfOk result (λ found. AreRegs found.0 regs.new) }
    ensures ok { IfOk result (λ found. text.now ≡ opened found.0 regs.new found.1.now) }
    ensures len { length regs.new ≡ 50 }
    ensures err { IfErr result (λ e. IfFault (StopsAt text.now) e) }
{
    let Some(rest) = after(b"machine 1\n", text) else {
        return fault(1, CapsuleKind::Header);
    };
    let Some((pages, rest)) = read_size(rest) else {
        return fault(2, CapsuleKind::Pages);
    };
    let Some(rest) = read_regs(pages, regs, rest) else {
        return fault(3, CapsuleKind::Regs);
    };
    Ok((pages, rest))
}

// What is behind the last line, where a text begins with it. Its first line has this number.
fn read_end(pages: u32, least: u32, line: u64, text: &[u8]) -> Result<&[u8], CapsuleEnd>
    requires { HasNoNext pages least text.now }
    ensures ok { IfOk result (λ rest. text.now ≡ end_line ++ rest.now) }
    ensures err { IfErr result (λ e. IfFault (StopsHere pages least line text.now) e) }
{
    let _pages = pages;
    let _least = least;
    if text.is_empty() {
        return fault(line, CapsuleKind::End);
    }
    if text == b"end".as_slice() {
        return fault(line, CapsuleKind::End);
    }
    match after(b"end\n", text) {
        Some(rest) => Ok(rest),
        None => fault(line, CapsuleKind::Page),
    }
}

// Writes the words from a place of the storage on.
#[tactic(auto, using(crate::proofs::Filled::edits))]
fn put_words(store: &mut Store, at: u32, words: &[u32])
    requires { at + length words.now ≤ length store.old }
    ensures { store.new ≡ sets store.old at words.now }
{
    let _pages = store.pages();
    let mut place = at;
    for word in words {
        store.put(place, *word);
        place += 1;
    }
}

// Reads the page lines at the front into a storage of zeros, and the last line. The first of them is the fourth line.
pub(crate) fn read_pages<'a>(
    store: &mut Store,
    text: &'a [u8],
) -> Result<(u64, &'a [u8]), CapsuleEnd>
    requires { store.old ≡ zeros (1024 * page_count store.old) }
    ensures ok { IfOk result (λ found. Holds store.new text.now found.0 found.1.now) }
    ensures len { length store.new ≡ length store.old }
    ensures err { IfErr result (λ e. IfFault (StopsInPages (page_count store.old) text.now) e) }
{
    let pages = store.pages();
    let mut words = [0; 1024];
    let mut least = 0;
    let mut line = 4;
    let mut rest = text;
    loop {
        let Some((page, behind)) = read_page(pages, least, &mut words, rest) else {
            return match read_end(pages, least, line, rest) {
                Ok(behind) => Ok((line, behind)),
                Err(end) => Err(end),
            };
        };
        put_words(store, 1024 * page, &words);
        least = page + 1;
        line += 1;
        rest = behind;
    }
}

/// The parked machine at the front of a text: the lines up to the first that is `end`, with its line feed. What has none
/// there is refused at the first line that is missing or another.
pub fn read_front(alloc: Global, text: &[u8]) -> Result<Front, CapsuleEnd>
    // What is read stands there, on so many lines, and the text goes on behind so many bytes.
    ensures ok { IfOk result (λ found. Stands text.now found.capsule found.lines (drop found.size text.now)) }
    ensures ends { IfOk result (λ found. EndsAt text.now found.lines (drop found.size text.now)) }
    ensures within { IfOk result (λ found. found.size ≤ length text.now) }
    ensures few { IfOk result (λ found. found.lines ≤ 4 + pages_limit) }
    // What stands there is read.
    ensures read { (m : Parked) (behind : List ℕ) → IsMachine m → text.now ≡ capsule_text m ++ behind → IfOk result (λ found. found.capsule ≡ m) }
    ensures want { (m : Parked) (behind : List ℕ) → IsMachine m → text.now ≡ capsule_text m ++ behind → IfErr result IsWant }
    // A refused line is one.
    ensures err { IfErr result (λ e. IfFault (StopsAt text.now) e) }
    // And there is no other.
    ensures refused { (at : ℕ) (kind : CapsuleKind) → StopsAt text.now at kind → IfOk result (λ found. ⊥) }
    ensures least { (at : ℕ) (kind : CapsuleKind) → StopsAt text.now at kind → IfErr result (IfFault (IsFault at kind)) }
{
    let mut regs = [0; 50];
    let (pages, rest) = match read_opening(&mut regs, text) {
        Ok(found) => found,
        Err(end) => return Err(end),
    };
    let mut store = Store::new(alloc, pages)?;
    let (lines, rest) = match read_pages(&mut store, rest) {
        Ok(found) => found,
        Err(end) => return Err(end),
    };
    let size = text.len() - rest.len();
    let capsule = Capsule { regs, store };
    Ok(Front {
        capsule,
        lines,
        size,
    })
}

/// The parked machine that a text is. What is none is refused at the first line that is missing or another, or, as `End`,
/// at the line behind its last where it goes on.
pub fn read_capsule(alloc: Global, bytes: &[u8]) -> Result<Capsule, CapsuleEnd>
    // What is read is written so.
    ensures ok { IfOk result (λ capsule. bytes.now ≡ capsule_text capsule) }
    // What is written so is read, and as no other machine.
    ensures read { (m : Parked) → IsMachine m → bytes.now ≡ capsule_text m → IfOk result (λ capsule. capsule ≡ m) }
    ensures want { (m : Parked) → IsMachine m → bytes.now ≡ capsule_text m → IfErr result IsWant }
    // A refused line is one.
    ensures err { IfErr result (λ e. IfFault (RefusedAt bytes.now) e) }
    // And there is no other.
    ensures refused { (at : ℕ) (kind : CapsuleKind) → RefusedAt bytes.now at kind → IfOk result (λ capsule. ⊥) }
    ensures least { (at : ℕ) (kind : CapsuleKind) → RefusedAt bytes.now at kind → IfErr result (IfFault (IsFault at kind)) }
{
    let front = match read_front(alloc, bytes) {
        Ok(front) => front,
        Err(end) => return Err(end),
    };
    let Front {
        capsule,
        lines,
        size,
    } = front;
    if size < bytes.len() {
        return fault(lines + 1, CapsuleKind::End);
    }
    Ok(capsule)
}
