//! One instruction of the machine at the end of a pinned path, by translations at hand.

ghost use Rattle.std.specs.Prelude.{◌≡◌, ◌≢◌, ◌<◌, ◌≤◌, [], true, IfOk, OnErr, Some, length};
ghost use Rattle.hv_word.specs.Words.{IsLane, has, lane_with};
ghost use Rattle.hv_word.specs.Storage.{page_count, with_word, word_at};
ghost use Rattle.hv_cpu.specs.Regs.{FitsHart};
ghost use Rattle.hv_block.specs.Block.{pages_at, regs_at};
ghost use Rattle.hv_exec.specs.Act.{act_of, acted};
ghost use Rattle.hv_exec.specs.Touched.{Touches};
ghost use Rattle.hv_map.specs.Chain.{map_along};
ghost use Rattle.hv_nest.specs.Notes.{undone, is_exact};
ghost use Rattle.hv_nest.specs.Noted.{AreNoted, NothingDone};
ghost use Rattle.hv_fast.specs.Memo.{AreOpen, Opens};
ghost use Rattle.hv_fast.specs.Rides.{HasRidden, has_noted_mark};

use crate::marks::Marks;
use crate::memo::Memo;
use hv_block::block_word;
use hv_cache::MapCache;
use hv_cpu::Cpu;
use hv_exec::{Touched, act_telling};
use hv_map::{Chain, View, page_slot};
use hv_nest::{Notes, put_fault, put_touched};
use hv_store::{Access, Refusal, Space, Store, Way};
use hv_word::{Lane, lane_put};

/// A page that was asked for and wasn't at hand, and the access.
#[derive(Clone, Copy)]
pub(crate) struct Miss {
    pub(crate) page: u32,
    pub(crate) access: Access,
}

/// What came of riding: one instruction was made; or it can't be made so, and nothing changed; or something rests on a word that
/// it wrote, and the storage is as before, while the registers at hand are not.
#[derive(Clone, Copy)]
pub(crate) enum Ridden {
    Made,
    Refused,
    Undone,
}

/// The store as the last machine of a chain sees it, where pages are found at hand, if they are there, and the words that change
/// are noted.
#[derive(Drop)]
pub(crate) struct Riding<'a> {
    pub(crate) store: &'a mut Store,
    pub(crate) chain: &'a Chain,
    pub(crate) memo: &'a Memo,
    pub(crate) notes: &'a mut Notes,
    pub(crate) missed: &'a mut Option<Miss>,
    ghost exact: { is_exact store.now notes.now ≡ true },
    ghost right: { AreOpen (undone store.now notes.now) chain.now memo.now },
}

impl Space for Riding<'_> {
    ghost use Rattle.std.specs.Prelude.{[], ◌∷◌, ◌-◌, length, map};
    ghost use Rattle.hv_map.specs.Chain.{map_along};
    ghost use Rattle.hv_map.specs.Links.{framed};
    ghost use Rattle.hv_nest.specs.Notes.{undone};

    ghost storage = { λ v. v.store.now };

    ghost slots = { λ v. map_along v.store.now v.chain.now };

    ghost depth = { λ v. length v.chain.now };

    ghost place = { λ v. v.store.ghost_name ∷ v.notes.ghost_name ∷ [] };

    ghost frame = { λ v. map framed v.chain.now };

    ghost origin = { λ v. undone v.store.now v.notes.now };

    ghost room = { λ v. 1 - length v.notes.now };

    #[inline(always)]
    fn pages(&self) -> u32 {
        self.chain.pages(self.store)
    }

    #[inline(always)]
    fn read(&mut self, page: u32, word: u32, access: Access) -> Result<u32, Refusal> {
        let _pages = self.chain.pages(self.store);
        if let Some(host) = self.memo.get(page, access) {
            return Ok(block_word(self.store, host, word));
        }
        *self.missed = Some(Miss { page, access });
        View {
            store: self.store,
            chain: self.chain,
        }
        .read(page, word, access)
    }

    #[inline(always)]
    fn write(&mut self, page: u32, word: u32, lane: Lane, value: u32) -> Result<(), Refusal> {
        let _pages = self.chain.pages(self.store);
        if let Some(host) = self.memo.get(page, Access::Write) {
            put_lane(self.store, self.notes, host, word, lane, value);
            return Ok(());
        }
        *self.missed = Some(Miss {
            page,
            access: Access::Write,
        });
        let Way::Open { host } = page_slot(self.store, self.chain, page).write else {
            return View {
                store: self.store,
                chain: self.chain,
            }
            .write(page, word, lane, value);
        };
        put_lane(self.store, self.notes, host, word, lane, value);
        Ok(())
    }

    fn clear_fault(&mut self, page: u32) -> Result<(), Refusal> {
        let Way::Open { host } = page_slot(self.store, self.chain, page).write else {
            return View {
                store: self.store,
                chain: self.chain,
            }
            .clear_fault(page);
        };
        put_fault(self.store, self.notes, host, 0, 0, 0);
        Ok(())
    }
}

// Replaces a lane of word `word` (0 to 1023) of bare page `page`, and notes what changes.
#[inline(always)]
fn put_lane(store: &mut Store, notes: &mut Notes, page: u32, word: u32, lane: Lane, value: u32)
    requires page { page < page_count store.old }
    requires word { word < 1024 }
    requires lane { IsLane lane }
    requires fresh { notes.old ≡ [] }
    ensures put { store.new ≡ with_word store.old page word (lane_with (word_at store.old page word) lane value) }
    ensures origin { undone store.new notes.new ≡ undone store.old notes.old }
    ensures exact { is_exact store.new notes.new ≡ true }
{
    let old = block_word(store, page, word);
    let _pages = store.pages();
    notes.put(store, 1024 * page + word, lane_put(old, lane, value));
}

/// Makes one instruction of the last machine of a chain, whose registers `cpu` are those in its block in bare page `block`, and
/// puts its registers into its block. It isn't made where the machine's map refuses, nor where something rests on its block as on
/// a table; and it is undone where something rests on a word that it writes.
#[inline(always)]
pub(crate) fn ride(
    store: &mut Store,
    notes: &mut Notes,
    chain: &Chain,
    memo: &Memo,
    block: u32,
    marks: &Marks,
    cache: &MapCache,
    cpu: &mut Cpu,
    missed: &mut Option<Miss>,
) -> Ridden
    requires fresh { notes.old ≡ [] }
    requires memo { Opens store.old chain.now memo.now }
    requires there { block < page_count store.old }
    requires marked { has block marks.now.blocks ≡ true }
    requires cpu { regs_at store.old block ≡ cpu.old }
    requires next { cpu.old.next ≡ 0 }
    requires pages { length (map_along store.old chain.now) ≡ pages_at store.old block }
    requires some { 0 < pages_at store.old block }
    ensures origin { undone store.new notes.new ≡ store.old }
    ensures len { length store.new ≡ length store.old }
    ensures made { result ≡ Ridden.Made → HasRidden store.old store.new marks.now cache.now.entries chain.now block cpu.old cpu.new }
    ensures refused { result ≡ Ridden.Refused → (store.new ≡ store.old) × (cpu.new ≡ cpu.old) }
    ensures undone { result ≡ Ridden.Undone → store.new ≡ store.old }
{
    if marks.is_table(block) || cache.table_watched(block) {
        return Ridden::Refused;
    }
    let Ok(touched) = act_along(store, notes, chain, memo, cpu, missed) else {
        return Ridden::Refused;
    };
    if any_marked(marks, cache, notes) {
        notes.undo(store);
        return Ridden::Undone;
    }
    fits(cpu);
    put_touched(store, notes, block, cpu, touched);
    Ridden::Made
}

// One instruction of the last machine of a chain, by translations at hand, and what it may have changed of the registers. Where
// it is refused nothing changed.
#[inline(always)]
#[tactic(auto, using(hv_nest::proofs::Counts::counts))]
fn act_along(
    store: &mut Store,
    notes: &mut Notes,
    chain: &Chain,
    memo: &Memo,
    cpu: &mut Cpu,
    missed: &mut Option<Miss>,
) -> Result<Touched, Refusal>
    requires fresh { notes.old ≡ [] }
    requires memo { Opens store.old chain.now memo.now }
    requires next { cpu.old.next ≡ 0 }
    ensures acts { acted result store.new cpu.new ≡ act_of store.old (map_along store.old chain.now) 0 cpu.old }
    ensures touched { IfOk result (λ touched. Touches touched cpu.old cpu.new) }
    ensures next { cpu.new.next ≢ 0 → cpu.new.next < length (map_along store.old chain.now) }
    ensures err { OnErr result (NothingDone store.old store.new cpu.old cpu.new notes.new) }
    ensures noted { AreNoted store.old store.new cpu.old cpu.new notes.new }
    ensures exact { is_exact store.new notes.new ≡ true }
{
    let mut riding = Riding {
        store,
        chain,
        memo,
        notes,
        missed,
    };
    act_telling(cpu, 0, &mut riding)
}

// The registers are such as a hart can have.
#[inline(always)]
fn fits(cpu: &Cpu)
    ensures { FitsHart cpu.now }
{
    let _ = &cpu.pc;
}

// Whether something rests on a page with a noted word.
#[inline(always)]
fn any_marked(marks: &Marks, cache: &MapCache, notes: &Notes) -> bool
    ensures { result ≡ has_noted_mark marks.now cache.now.entries notes.now }
{
    notes.as_slice().iter().any(|note| marks.has_mark(note.at / 1024)
        || cache.watched(note.at / 1024))
}
