//! What a step writes, with notes of what it changes.

ghost use Rattle.std.specs.Prelude.{◌≡◌, ◌≢◌, ◌+◌, ◌<◌, ◌≤◌, [], true, length, drop, slice_index, slice_set};
ghost use Rattle.std.proofs.Math.Seq.{sets};
ghost use Rattle.hv_word.specs.Storage.{page_count};
ghost use Rattle.hv_cpu.specs.Regs.{file_of};
ghost use Rattle.hv_block.specs.Block.{regs_at, put_regs, with_fault};
ghost use Rattle.hv_exec.specs.Changes.{differing, changed_regs};
ghost use Rattle.hv_nest.specs.Notes.{undone, is_exact};
ghost use Rattle.hv_nest.specs.Noted.{control_of};
ghost use Rattle.hv_nest.specs.Rows.{rows_limit};

use crate::notes::Notes;
use hv_block::block_word;
use hv_cpu::Cpu;
use hv_map::{Chain, View, page_slot};
use hv_store::{Access, Refusal, Space, Store, Way};
use hv_word::{Lane, lane_put};

/// The store as the last machine of a chain sees it, where the words that change are noted.
#[derive(Drop)]
pub(crate) struct Noting<'a> {
    pub(crate) store: &'a mut Store,
    pub(crate) chain: &'a Chain,
    pub(crate) notes: &'a mut Notes,
    ghost exact: { is_exact store.now notes.now ≡ true },
}

impl Space for Noting<'_> {
    ghost use Rattle.std.specs.Prelude.{[], ◌∷◌, ◌-◌, length, map};
    ghost use Rattle.hv_map.specs.Chain.{map_along};
    ghost use Rattle.hv_map.specs.Links.{framed};
    ghost use Rattle.hv_nest.specs.Notes.{undone};

    ghost storage = { λ v. v.store.now };

    ghost slots = { λ v. map_along v.store.now v.chain.now };

    ghost depth = { λ v. length v.chain.now };

    ghost place = { λ v. v.store.ghost_name ∷ v.notes.ghost_name ∷ [] };

    ghost frame = { λ v. map framed v.chain.now };

    ghost origin = { λ v. undone v.store.now v.notes.now };

    ghost room = { λ v. 1 - length v.notes.now };

    fn pages(&self) -> u32 {
        self.chain.pages(self.store)
    }

    fn read(&mut self, page: u32, word: u32, access: Access) -> Result<u32, Refusal> {
        View {
            store: self.store,
            chain: self.chain,
        }
        .read(page, word, access)
    }

    fn write(&mut self, page: u32, word: u32, lane: Lane, value: u32) -> Result<(), Refusal> {
        let Way::Open { host } = page_slot(self.store, self.chain, page).write else {
            return View {
                store: self.store,
                chain: self.chain,
            }
            .write(page, word, lane, value);
        };
        let _pages = self.store.pages();
        let old = block_word(self.store, host, word);
        self.notes
            .put(self.store, 1024 * host + word, lane_put(old, lane, value));
        Ok(())
    }

    fn clear_fault(&mut self, page: u32) -> Result<(), Refusal> {
        let Way::Open { host } = page_slot(self.store, self.chain, page).write else {
            return View {
                store: self.store,
                chain: self.chain,
            }
            .clear_fault(page);
        };
        put_fault(self.store, self.notes, host, 0, 0, 0);
        Ok(())
    }
}

/// The store as the bare machine sees it, where the words that change are noted.
#[derive(Drop)]
pub(crate) struct NotingBare<'a> {
    pub(crate) store: &'a mut Store,
    pub(crate) notes: &'a mut Notes,
    ghost exact: { is_exact store.now notes.now ≡ true },
}

#[tactic(auto, using(hv_store::proofs::Identity::identities))]
impl Space for NotingBare<'_> {
    ghost use Rattle.std.specs.Prelude.{[], ◌∷◌, ◌-◌, length};
    ghost use Rattle.hv_word.specs.Storage.{page_count};
    ghost use Rattle.hv_store.specs.Access.{identity};
    ghost use Rattle.hv_nest.specs.Notes.{undone};

    ghost storage = { λ v. v.store.now };

    ghost slots = { λ v. identity (page_count v.store.now) };

    ghost depth = { λ _. 0 };

    ghost place = { λ v. v.store.ghost_name ∷ v.notes.ghost_name ∷ [] };

    ghost frame = { λ _. [] };

    ghost origin = { λ v. undone v.store.now v.notes.now };

    ghost room = { λ v. 1 - length v.notes.now };

    fn pages(&self) -> u32 {
        self.store.pages()
    }

    fn read(&mut self, page: u32, word: u32, _access: Access) -> Result<u32, Refusal> {
        let _pages = self.store.pages();
        Ok(self.store.get(1024 * page + word))
    }

    fn write(&mut self, page: u32, word: u32, lane: Lane, value: u32) -> Result<(), Refusal> {
        let _pages = self.store.pages();
        let at = 1024 * page + word;
        let old = self.store.get(at);
        self.notes.put(self.store, at, lane_put(old, lane, value));
        Ok(())
    }

    fn clear_fault(&mut self, page: u32) -> Result<(), Refusal> {
        let _pages = self.store.pages();
        put_fault(self.store, self.notes, page, 0, 0, 0);
        Ok(())
    }
}

/// Puts the registers into the control block in bare page `page`, and notes what changes.
#[inline(always)]
pub fn put_cpu(store: &mut Store, notes: &mut Notes, page: u32, cpu: &Cpu)
    requires page { page < page_count store.old }
    requires room { length notes.old + changed_regs (regs_at (undone store.old notes.old) page) cpu.now ≤ rows_limit }
    ensures put { store.new ≡ put_regs store.old page cpu.now }
    ensures origin { undone store.new notes.new ≡ undone store.old notes.old }
    ensures count { length notes.new ≤ length notes.old + changed_regs (regs_at (undone store.old notes.old) page) cpu.now }
{
    let _pages = store.pages();
    let at = 1024 * page;
    notes.put(store, at, cpu.pc);
    put_row(store, notes, at + 1, file(cpu));
    put_row(store, notes, at + 32, &control_words(cpu));
    notes.put(store, at + 64, next_word(cpu));
}

// x1 to x31.
#[inline(always)]
fn file(cpu: &Cpu) -> &[u32]
    ensures { result.now ≡ drop 1 (file_of cpu.now) }
{
    &cpu.x[1..]
}

// The mode and the control registers.
#[inline(always)]
fn control_words(cpu: &Cpu) -> [u32; 17]
    ensures { result ≡ control_of cpu.now }
{
    [
        cpu.mode.word(),
        cpu.mstatus,
        cpu.mtvec,
        cpu.mepc,
        cpu.mcause,
        cpu.mtval,
        cpu.mscratch,
        cpu.medeleg,
        cpu.mideleg,
        cpu.mie,
        cpu.mip,
        cpu.stvec,
        cpu.sepc,
        cpu.scause,
        cpu.stval,
        cpu.sscratch,
        cpu.satp,
    ]
}

// The page of the machine that is to run, 0 for none.
#[inline(always)]
fn next_word(cpu: &Cpu) -> u32
    ensures { result ≡ cpu.now.next }
{
    cpu.next.unwrap_or(0)
}

// Puts words from a place of the storage on, and notes what changes. This is quickest where nothing does.
#[inline(always)]
#[tactic(auto, using(crate::proofs::Changing::rows_put))]
fn put_row(store: &mut Store, notes: &mut Notes, at: u32, words: &[u32])
    requires short { length words.now ≤ 31 }
    requires inside { at + length words.now ≤ length store.old }
    requires room { length notes.old + differing (drop at (undone store.old notes.old)) words.now ≤ rows_limit }
    ensures put { store.new ≡ sets store.old at words.now }
    ensures origin { undone store.new notes.new ≡ undone store.old notes.old }
    ensures count { length notes.new ≤ length notes.old + differing (drop at (undone store.old notes.old)) words.now }
{
    let _pages = store.pages();
    let length = words.len() as u32;
    if count_differing(store.row(at, length), words) > 0 {
        put_words(store, notes, at, words);
    }
}

// The same one by one.
#[inline(never)]
#[tactic(auto, using(crate::proofs::Puts::puts))]
fn put_words(store: &mut Store, notes: &mut Notes, at: u32, words: &[u32])
    requires inside { at + length words.now ≤ length store.old }
    requires room { length notes.old + differing (drop at (undone store.old notes.old)) words.now ≤ rows_limit }
    ensures put { store.new ≡ sets store.old at words.now }
    ensures origin { undone store.new notes.new ≡ undone store.old notes.old }
    ensures count { length notes.new ≤ length notes.old + differing (drop at (undone store.old notes.old)) words.now }
{
    let _pages = store.pages();
    let mut place = at;
    for word in words {
        notes.put(store, place, *word);
        place += 1;
    }
}

// At how many places two rows of one length differ, found without a branch for each word.
#[inline(always)]
#[tactic(auto, using(crate::proofs::Changing::counting))]
fn count_differing(before: &[u32], words: &[u32]) -> u32
    requires long { length before.now ≡ length words.now }
    requires short { length words.now ≤ 31 }
    ensures { result ≡ differing before.now words.now }
{
    let mut count = 0u32;
    for i in 0..words.len() {
        count += u32::from(before[i] != words[i]);
    }
    count
}

/// Tells a fault in the control block in bare page `page`, and notes what changes.
#[tactic(auto, using(crate::proofs::Puts::faults))]
pub fn put_fault(
    store: &mut Store,
    notes: &mut Notes,
    page: u32,
    cause: u32,
    address: u32,
    access: u32,
)
    requires page { page < page_count store.old }
    requires fresh { notes.old ≡ [] }
    ensures put { store.new ≡ with_fault store.old page cause address access }
    ensures origin { undone store.new notes.new ≡ undone store.old notes.old }
    ensures count { length notes.new ≤ 3 }
    ensures exact { is_exact store.new notes.new ≡ true }
{
    let _pages = store.pages();
    let at = 1024 * page;
    notes.put(store, at + 72, cause);
    notes.put(store, at + 73, address);
    notes.put(store, at + 74, access);
}
