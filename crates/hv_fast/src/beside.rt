//! What is kept beside the state: pins, marks on what they rest on, held translations.

ghost use Rattle.std.specs.Prelude.{◌≡◌, ◌≢◌, ◌<◌, ◌/◌, ◌⊎◌, ℕ, List, None, true, false, IfOk, IfSome, Some, length, slice_get, slice_set};
ghost use Rattle.std.specs.List.{AllByRecursion};
ghost use Rattle.hv_word.specs.Storage.{page_count};
ghost use Rattle.hv_cpu.specs.Regs.{Regs};
ghost use Rattle.hv_csr.specs.Interrupts.{pending_of};
ghost use Rattle.hv_store.specs.Access.{way_for};
ghost use Rattle.hv_store.specs.declared.access.Way.TheVariants.{Open};
ghost use Rattle.hv_map.specs.Chain.{running_path};
ghost use Rattle.hv_nest.specs.Changes.{differences};
ghost use Rattle.hv_nest.specs.Kinds.{NextBelow};
ghost use Rattle.hv_nest.specs.Step.{Worked, host_step_of};
ghost use Rattle.hv_cache.specs.Holding.{without_page};
ghost use Rattle.hv_fast.specs.Beside.{IsBlockStill, IsRightBeside, IsSpared, IsUnpinned, NoPins, WordIsSpared};

use crate::following::{entered, follow};
use crate::marks::Marks;
use crate::memo::Memo;
use crate::pin::Pin;
use crate::riding::{Miss, Ridden, ride};
use crate::translations::hold;
use hv_block::read_block;
use hv_cache::MapCache;
use hv_cpu::{Cpu, reset};
use hv_csr::pending;
use hv_map::{Pages, Path};
use hv_nest::{Changed, Notes, path_of};
use hv_store::{Access, Slot, Store, Way};
use hv_vmid::Ids;
use std::alloc::{AllocError, Global};

// How many translations are held at most.
const ENTRIES: usize = 4096;

/// Pins by hart, marks on the pages on which they rest, numbers of paths with held translations, the registers of the machine at
/// the end of the pin of the hart that rode last, and room for the notes of a step.
#[derive(Drop)]
pub(crate) struct Beside {
    pub(crate) pins: Vec<Pin>,
    pub(crate) marks: Marks,
    pub(crate) ids: Ids,
    pub(crate) cache: MapCache,
    pub(crate) rider: Option<u32>,
    pub(crate) inner: Cpu,
    pub(crate) notes: Notes,
}

impl Beside {
    /// Nothing is kept, for so many harts.
    pub(crate) fn new(alloc: Global, harts: u32) -> Result<Beside, AllocError>
        ensures { IfOk result (λ b. (S : List ℕ) (R : List Regs) → length R ≡ harts → IsRightBeside S R b) }
    {
        let mut pins = Vec::with_capacity(alloc, harts as usize)?;
        for _hart in 0..harts {
            pins.push(Pin::new())?;
        }
        Ok(Beside {
            pins,
            marks: Marks::new(alloc)?,
            ids: Ids::new(alloc),
            cache: MapCache::new(alloc, ENTRIES)?,
            rider: None,
            inner: reset(),
            notes: Notes::new(),
        })
    }

    /// Whether a hart with these registers, which runs a machine, can ride: its path is pinned, and the registers of the machine
    /// at its end are at hand.
    #[inline(always)]
    pub(crate) fn ready(&mut self, store: &Store, cpu: &Cpu, hart: u32) -> bool
        requires hart { hart < length self.old.pins.items }
        requires next { NextBelow (page_count store.now) cpu.now }
        ensures right { (R : List Regs) → slice_get R hart ≡ Some cpu.now → IsRightBeside store.now R self.old → IsRightBeside store.now R self.new }
        ensures rider { result ≡ true → self.new.rider ≡ Some hart }
        ensures count { length self.new.pins.items ≡ length self.old.pins.items }
    {
        self.rider == Some(hart) || self.mount(store, cpu, hart)
    }

    // The same where the hart isn't the one that rode last.
    #[inline(never)]
    fn mount(&mut self, store: &Store, cpu: &Cpu, hart: u32) -> bool
        requires hart { hart < length self.old.pins.items }
        requires next { NextBelow (page_count store.now) cpu.now }
        ensures right { (R : List Regs) → slice_get R hart ≡ Some cpu.now → IsRightBeside store.now R self.old → IsRightBeside store.now R self.new }
        ensures rider { result ≡ true → self.new.rider ≡ Some hart }
        ensures count { length self.new.pins.items ≡ length self.old.pins.items }
    {
        if !self.pin(store, cpu, hart) {
            return false;
        }
        let block = self.pins[hart as usize].block;
        if block >= store.pages() {
            return false;
        }
        let Some(found) = read_block(store, block) else {
            return false;
        };
        self.inner = found.cpu;
        self.rider = Some(hart);
        true
    }

    // Pins the path of a hart where it isn't pinned, if that can be done.
    fn pin(&mut self, store: &Store, cpu: &Cpu, hart: u32) -> bool
        requires hart { hart < length self.old.pins.items }
        requires next { NextBelow (page_count store.now) cpu.now }
        ensures right { (R : List Regs) → slice_get R hart ≡ Some cpu.now → IsRightBeside store.now R self.old → IsRightBeside store.now R self.new }
        ensures live { result ≡ true → IfSome (slice_get self.new.pins.items hart) (λ p. p.live ≡ true) }
        ensures count { length self.new.pins.items ≡ length self.old.pins.items }
    {
        if self.pins[hart as usize].live {
            return true;
        }
        let mut tables = Pages::new();
        let Some(chain) = follow(store, cpu, &mut tables) else {
            return false;
        };
        let Some(block) = chain.last_block() else {
            return false;
        };
        if tables.full {
            return false;
        }
        if !self.marks.mark_path(&chain, tables.as_slice()) {
            return false;
        }
        self.rider = None;
        let path = chain.path();
        self.pins[hart as usize] = Pin {
            live: true,
            block,
            path,
            chain,
            memo: Memo::new(),
        };
        true
    }

    /// Makes one instruction of the machine at the end of the pin of a hart, which rode last, and tells the words that it changed
    /// in `changed`. It answers whether that could be done by the pin; else the state stays.
    #[inline(always)]
    pub(crate) fn ride(&mut self, store: &mut Store, hart: u32, changed: &mut Changed) -> bool
        requires hart { hart < length self.old.pins.items }
        requires rider { self.old.rider ≡ Some hart }
        requires right { (R : List Regs) × (r : Regs) × (slice_get R hart ≡ Some r) × IsRightBeside store.old R self.old }
        ensures right { (R : List Regs) (r : Regs) → slice_get R hart ≡ Some r → IsRightBeside store.old R self.old → IsRightBeside store.new R self.new }
        ensures rode { result ≡ true → (R : List Regs) (r : Regs) → slice_get R hart ≡ Some r → IsRightBeside store.old R self.old
            → pending_of r ≡ None → host_step_of store.old hart r ≡ Worked store.new r }
        ensures changed { result ≡ true → changed.new ≡ differences store.old store.new }
        ensures not { result ≡ false → store.new ≡ store.old }
        ensures len { length store.new ≡ length store.old }
        ensures count { length self.new.pins.items ≡ length self.old.pins.items }
    {
        let mut missed = None;
        let rode = self.one(store, hart, changed, &mut missed);
        if let Some(miss) = missed {
            self.fill(store, hart, miss);
        }
        rode
    }

    // The same, with the page that the instruction missed last, if any.
    #[inline(always)]
    #[tactic(auto, using(crate::proofs::Riders::riders))]
    fn one(
        &mut self,
        store: &mut Store,
        hart: u32,
        changed: &mut Changed,
        missed: &mut Option<Miss>,
    ) -> bool
        requires hart { hart < length self.old.pins.items }
        requires rider { self.old.rider ≡ Some hart }
        requires right { (R : List Regs) × (r : Regs) × (slice_get R hart ≡ Some r) × IsRightBeside store.old R self.old }
        ensures right { (R : List Regs) (r : Regs) → slice_get R hart ≡ Some r → IsRightBeside store.old R self.old → IsRightBeside store.new R self.new }
        ensures rode { result ≡ true → (R : List Regs) (r : Regs) → slice_get R hart ≡ Some r → IsRightBeside store.old R self.old
            → pending_of r ≡ None → host_step_of store.old hart r ≡ Worked store.new r }
        ensures changed { result ≡ true → changed.new ≡ differences store.old store.new }
        ensures not { result ≡ false → store.new ≡ store.old }
        ensures len { length store.new ≡ length store.old }
        ensures count { length self.new.pins.items ≡ length self.old.pins.items }
    {
        if pending(&self.inner).is_some() {
            return false;
        }
        let pin = &self.pins[hart as usize];
        self.notes.clear();
        match ride(
            store,
            &mut self.notes,
            &pin.chain,
            &pin.memo,
            pin.block,
            &self.marks,
            &self.cache,
            &mut self.inner,
            missed,
        ) {
            Ridden::Made => {}
            Ridden::Refused => return false,
            Ridden::Undone => {
                self.rider = None;
                return false;
            }
        }
        self.notes.tell(store, changed);
        if entered(&self.inner).is_some() {
            // Another machine runs now, also for other harts that run this one.
            self.drop_pins();
        }
        true
    }

    /// The path of the machine that a hart with these registers runs.
    pub(crate) fn path(&self, store: &Store, cpu: &Cpu, hart: u32) -> Path
        requires hart { hart < length self.now.pins.items }
        requires next { NextBelow (page_count store.now) cpu.now }
        ensures { (R : List Regs) → slice_get R hart ≡ Some cpu.now → IsRightBeside store.now R self.now → result ≡ running_path store.now cpu.now }
    {
        let pin = &self.pins[hart as usize];
        if pin.live {
            pin.path.copied()
        } else {
            path_of(store, cpu)
        }
    }

    /// Whether a hart with these registers runs the machine on a path, or, on the empty path, none.
    #[inline(always)]
    pub(crate) fn runs(&self, store: &Store, cpu: &Cpu, hart: u32, path: &Path) -> bool
        requires hart { hart < length self.now.pins.items }
        requires next { NextBelow (page_count store.now) cpu.now }
        ensures yes { result ≡ true → (R : List Regs) → slice_get R hart ≡ Some cpu.now → IsRightBeside store.now R self.now
            → path.now ≡ running_path store.now cpu.now }
        ensures no { result ≡ false → (R : List Regs) → slice_get R hart ≡ Some cpu.now → IsRightBeside store.now R self.now
            → path.now ≢ running_path store.now cpu.now }
    {
        if entered(cpu).is_none() {
            return path.len() == 0;
        }
        let pin = &self.pins[hart as usize];
        if pin.live {
            return is_same(&pin.path, path);
        }
        is_running(store, cpu, path)
    }

    // Puts a translation at hand that was missed, where it is held or can be.
    #[inline(never)]
    fn fill(&mut self, store: &Store, hart: u32, miss: Miss)
        requires hart { hart < length self.old.pins.items }
        requires right { (R : List Regs) × (r : Regs) × (slice_get R hart ≡ Some r) × IsRightBeside store.now R self.old }
        ensures right { (R : List Regs) (r : Regs) → slice_get R hart ≡ Some r → IsRightBeside store.now R self.old → IsRightBeside store.now R self.new }
        ensures count { length self.new.pins.items ≡ length self.old.pins.items }
    {
        let pin = &self.pins[hart as usize];
        if !pin.live || miss.page >= pin.chain.pages(store) {
            return;
        }
        let path = pin.path.copied();
        hold(&mut self.ids, &mut self.cache, store, &path, miss.page);
        let Some(number) = self.ids.find(&path) else {
            return;
        };
        let Some(kept) = self.cache.entry(number, miss.page) else {
            return;
        };
        let Some(host) = opened(kept.slot(), miss.access) else {
            return;
        };
        if !self.marks.mark_all(kept.tables(), kept.blocks()) {
            return;
        }
        self.pins[hart as usize]
            .memo
            .set(miss.page, miss.access, host);
    }

    /// Drops what doesn't hold any more after a step of a hart that left this storage and changed these words.
    #[inline(always)]
    pub(crate) fn after(&mut self, store: &Store, hart: u32, changed: &Changed)
        requires hart { hart < length self.old.pins.items }
        ensures right { (S : List ℕ) (R : List Regs) (r : Regs) → IsRightBeside S R self.old → length S ≡ length store.now
            → changed.now ≡ differences S store.now → IsRightBeside store.now (slice_set R hart r) self.new }
        ensures count { length self.new.pins.items ≡ length self.old.pins.items }
    {
        self.unpin(hart);
        self.spare_all(store, changed);
    }

    /// Drops what rests on these words, which a step of a hart that has no pin in use changed.
    #[inline(always)]
    pub(crate) fn spare_all(&mut self, store: &Store, changed: &Changed)
        ensures right { (S : List ℕ) (R : List Regs) (h : ℕ) (r : Regs) (b : Beside) → IsUnpinned h b self.old → IsRightBeside S R b
            → length S ≡ length store.now → changed.now ≡ differences S store.now → IsRightBeside store.now (slice_set R h r) self.new }
        ensures count { length self.new.pins.items ≡ length self.old.pins.items }
    {
        for row in changed.as_slice() {
            self.spare(store, row.at);
        }
    }

    // Drops the pin of a hart, if it is in use.
    #[inline(always)]
    fn unpin(&mut self, hart: u32)
        requires hart { hart < length self.old.pins.items }
        ensures gone { (S : List ℕ) (R : List Regs) → IsRightBeside S R self.old → IsUnpinned hart self.old self.new }
        ensures count { length self.new.pins.items ≡ length self.old.pins.items }
    {
        if self.pins[hart as usize].live {
            self.pins[hart as usize].live = false;
            if self.rider == Some(hart) {
                self.rider = None;
            }
        }
    }

    // Drops what rests on a word that changed.
    #[inline(always)]
    fn spare(&mut self, store: &Store, at: u32)
        ensures dropped { WordIsSpared store.now at self.old self.new }
    {
        if self.marks.has_mark(at / 1024) {
            self.drop_pins();
        }
        forget(&mut self.cache, store, at);
    }

    /// Drops all pins.
    #[inline(never)]
    pub(crate) fn drop_pins(&mut self)
        ensures { NoPins self.old self.new }
    {
        self.marks.clear();
        self.rider = None;
        for pin in self.pins.iter_mut() {
            pin.live = false;
        }
    }
}

// Whether two paths are the same, by their syllables one by one: they are short.
#[inline(always)]
fn is_same(path: &Path, other: &Path) -> bool
    ensures yes { result ≡ true → other.now ≡ path.now }
    ensures no { result ≡ false → other.now ≢ path.now }
{
    if path.len() != other.len() {
        return false;
    }
    for i in 0..path.len() {
        if path.at(i) != other.at(i) {
            return false;
        }
    }
    true
}

// Whether the hart with these registers runs the machine on this path, by a path found anew. It needs room for that path, so it
// is no part of what most steps ask.
#[inline(never)]
fn is_running(store: &Store, cpu: &Cpu, path: &Path) -> bool
    requires { NextBelow (page_count store.now) cpu.now }
    ensures yes { result ≡ true → path.now ≡ running_path store.now cpu.now }
    ensures no { result ≡ false → path.now ≢ running_path store.now cpu.now }
{
    is_same(&path_of(store, cpu), path)
}

// Drops the translations that rest on a word that changed.
#[inline(always)]
fn forget(cache: &mut MapCache, store: &Store, at: u32)
    ensures spared { AllByRecursion (IsSpared store.now at) cache.new.entries }
    ensures fewer { (cache.new.entries ≡ cache.old.entries) ⊎ (cache.new.entries ≡ without_page (at / 1024) cache.old.entries) }
{
    let page = at / 1024;
    if cache.watched(page)
        && (cache.table_watched(page) || !is_block_still(store, page, at % 1024))
    {
        cache.forget_page(page);
    }
}

// Whether a block in a page says what it did of its machine after one word in it changed: the word isn't one of those that
// say it, and the block is well formed.
#[inline(never)]
fn is_block_still(store: &Store, page: u32, word: u32) -> bool
    ensures { result ≡ true → IsBlockStill store.now page word }
{
    !(65..68).contains(&word) && page < store.pages() && read_block(store, page).is_some()
}

// The bare page that a slot opens for an access.
fn opened(slot: Slot, access: Access) -> Option<u32>
    ensures { IfSome result (λ g. way_for slot access ≡ Open g) }
{
    let way = match access {
        Access::Read => slot.read,
        Access::Write => slot.write,
        Access::Fetch => slot.fetch,
    };
    match way {
        Way::Open { host } => Some(host),
        Way::Shut { .. } => None,
    }
}
