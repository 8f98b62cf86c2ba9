//! Control blocks: how a machine lies in a page of the storage of the machine that runs it.
#![tactic(auto)]

ghost use Rattle.std.specs.Prelude.{◌≡◌, ℕ, ◌+◌, ◌*◌, ◌^◌, ◌<◌, ◌≤◌, ◌==◌, bit_and, IfSome, if◌then◌else◌, Some, None, length, true};
ghost use Rattle.std.specs.Option.{option_map};
ghost use Rattle.hv_word.specs.Storage.{page_count, word_at};
ghost use Rattle.hv_cpu.specs.Regs.{FitsHart, file_of};
ghost use Rattle.hv_block.specs.Block.{fits_size, regs_at, fits_hart, block_of, put_regs, with_fault};
ghost use Rattle.std.proofs.Math.Seq.{sets};
ghost use Rattle.hv_block.specs.Contents.{contents_of};

pub mod laws;

use hv_cpu::mstatus::{MPP, MPP_BITS};
use hv_cpu::{Cpu, MEDELEG_MASK, MIDELEG_MASK, MIE_MASK, MIP_MASK, MSTATUS_MASK, Mode, SATP_MASK};
use hv_store::Store;
use hv_word::field;

/// A machine as its control block says it: its registers, how many pages it has (1 to 2^20), where its table is in its
/// parent's pages (a table in version 0, a directory of tables in version 2), and the version of the block, 0 or 2.
#[derive(Clone, Copy, Debug)]
pub struct Block {
    pub cpu: Cpu,
    pub pages: u32,
    pub table: u32,
    pub version: u32,
}

/// Word `word` (0 to 1023) of bare page `page`.
#[inline(always)]
pub fn block_word(store: &Store, page: u32, word: u32) -> u32
    requires page { page < page_count store.now }
    requires word { word < 1024 }
    ensures { result ≡ word_at store.now page word }
{
    let _pages = store.pages();
    store.get(1024 * page + word)
}

/// The machine whose control block is in bare page `page`; none where its words aren't well formed.
pub fn read_block(store: &Store, page: u32) -> Option<Block>
    requires { page < page_count store.now }
    ensures block { option_map contents_of result ≡ block_of store.now page }
    ensures some { IfSome result (λ b. 1 ≤ b.pages) }
    ensures pages { IfSome result (λ b. b.pages ≤ 2 ^ 20) }
    ensures table { IfSome result (λ b. b.table < 2 ^ 20) }
    ensures next { IfSome result (λ b. b.cpu.next < b.pages) }
{
    let Some(cpu) = read_cpu(store, page) else {
        return None;
    };
    let pages = block_word(store, page, 65);
    let table = block_word(store, page, 66);
    let version = block_word(store, page, 67);
    let next = block_word(store, page, 64);
    if !is_sized(pages, table, version, next) {
        return None;
    }
    Some(Block {
        cpu,
        pages,
        table,
        version,
    })
}

// Whether a machine can have a size, a table, a version and a next.
fn is_sized(pages: u32, table: u32, version: u32, next: u32) -> bool
    ensures exact { result ≡ fits_size pages table version next }
    ensures some { result ≡ true → 1 ≤ pages }
    ensures pages { result ≡ true → pages ≤ 2 ^ 20 }
    ensures table { result ≡ true → table < 2 ^ 20 }
    ensures next { result ≡ true → next < pages }
{
    pages > 0
        && pages <= 1 << 20
        && table < 1 << 20
        && next < pages
        && (version == 0 || version == 2)
}

// The registers in a block; none where a hart can't have them.
fn read_cpu(store: &Store, page: u32) -> Option<Cpu>
    requires { page < page_count store.now }
    ensures { result ≡ (if fits_hart (regs_at store.now page) then Some (regs_at store.now page) else None) }
{
    if !is_of_hart(store, page) {
        return None;
    }
    let mode = Mode::from_word(block_word(store, page, 32))?;
    let next = block_word(store, page, 64);
    Some(Cpu {
        pc: block_word(store, page, 0),
        x: read_x(store, page),
        mode,
        mstatus: block_word(store, page, 33),
        mtvec: block_word(store, page, 34),
        mepc: block_word(store, page, 35),
        mcause: block_word(store, page, 36),
        mtval: block_word(store, page, 37),
        mscratch: block_word(store, page, 38),
        medeleg: block_word(store, page, 39),
        mideleg: block_word(store, page, 40),
        mie: block_word(store, page, 41),
        mip: block_word(store, page, 42),
        stvec: block_word(store, page, 43),
        sepc: block_word(store, page, 44),
        scause: block_word(store, page, 45),
        stval: block_word(store, page, 46),
        sscratch: block_word(store, page, 47),
        satp: block_word(store, page, 48),
        next: if next == 0 { None } else { Some(next) },
    })
}

// Whether a hart can have the registers in a block.
#[tactic(auto, using(crate::proofs::Fits::fits_hart_tells))]
fn is_of_hart(store: &Store, page: u32) -> bool
    requires { page < page_count store.now }
    ensures is { result ≡ fits_hart (regs_at store.now page) }
    ensures fits { result ≡ true → FitsHart (regs_at store.now page) }
{
    let mode = block_word(store, page, 32);
    let mstatus = block_word(store, page, 33);
    if block_word(store, page, 0) % 4 != 0 || mode > 3 || mode == 2 {
        return false;
    }
    if !is_inside(mstatus, MSTATUS_MASK) || field::<MPP, MPP_BITS>(mstatus) == 2 {
        return false;
    }
    if block_word(store, page, 34) % 4 > 1 || block_word(store, page, 35) % 4 != 0 {
        return false;
    }
    if !is_inside(block_word(store, page, 39), MEDELEG_MASK)
        || !is_inside(block_word(store, page, 40), MIDELEG_MASK)
    {
        return false;
    }
    if !is_inside(block_word(store, page, 41), MIE_MASK)
        || !is_inside(block_word(store, page, 42), MIP_MASK)
    {
        return false;
    }
    block_word(store, page, 43) % 4 < 2
        && block_word(store, page, 44) % 4 == 0
        && is_inside(block_word(store, page, 48), SATP_MASK)
}

// Whether a word has no bits but those of a mask.
fn is_inside(word: u32, mask: u32) -> bool
    ensures { result ≡ (bit_and word mask == word) }
{
    word & mask == word
}

// x0 to x31 in a block.
fn read_x(store: &Store, page: u32) -> [u32; 32]
    requires { page < page_count store.now }
    ensures { result ≡ file_of (regs_at store.now page) }
{
    let mut x = [0; 32];
    for i in 1..32u32 {
        x[i as usize] = block_word(store, page, i);
    }
    x
}

/// Writes the registers into the control block in bare page `page`: words 0 to 48 and 64, and no other.
pub fn write_cpu(store: &mut Store, page: u32, cpu: &Cpu)
    requires { page < page_count store.old }
    ensures put { store.new ≡ put_regs store.old page cpu.now }
    ensures same { regs_at store.old page ≡ cpu.now → store.new ≡ store.old }
{
    let _pages = store.pages();
    let words = cpu.words();
    let at = 1024 * page;
    put_words(store, at, &words[..49]);
    store.put(at + 64, words[49]);
}

// Writes the words from a place of the storage on.
#[tactic(auto, using(crate::proofs::Edits::edits))]
fn put_words(store: &mut Store, at: u32, words: &[u32])
    requires { at + length words.now ≤ length store.old }
    ensures { store.new ≡ sets store.old at words.now }
{
    let _pages = store.pages();
    let mut place = at;
    for word in words {
        store.put(place, *word);
        place += 1;
    }
}

/// Tells a fault in the control block in bare page `page`: words 72, 73 and 74, and no other, become the cause, the address
/// and the access (1 read, 2 write, 3 fetch).
pub fn write_fault(store: &mut Store, page: u32, cause: u32, address: u32, access: u32)
    requires { page < page_count store.old }
    ensures { store.new ≡ with_fault store.old page cause address access }
{
    let _pages = store.pages();
    let at = 1024 * page;
    store.put(at + 72, cause);
    store.put(at + 73, address);
    store.put(at + 74, access);
}
