//! Taking a machine out of the storage in which it runs.

ghost use Rattle.std.specs.Prelude.{◌≡◌, ◌≢◌, ◌<◌, ◌≤◌, Err, IfErr, IfOk, IfSome, None, Some, length, map};
ghost use Rattle.hv_limits.specs.Limits.{pages_limit};
ghost use Rattle.hv_word.specs.Storage.{page_count};
ghost use Rattle.hv_cpu.specs.Regs.{FitsHart};
ghost use Rattle.hv_block.specs.Block.{regs_at};
ghost use Rattle.hv_map.specs.Chain.{map_along, pin_of};
ghost use Rattle.hv_map.specs.Links.{last_block, syllable_of};
ghost use Rattle.hv_map.specs.Seen.{seen as seen_of};
ghost use Rattle.hv_nest.specs.Kinds.{NextBelow};
ghost use Rattle.hv_move.specs.Saved.{can_read, first_absent as first_absent_of};

use hv_block::read_block;
use hv_capsule::Capsule;
use hv_cpu::Cpu;
use hv_map::{Chain, Way, page_slot};
use hv_store::Store;
use hv_twin::seen;
use std::alloc::{AllocError, Global};

/// Why a machine isn't saved.
#[derive(Clone, Copy, Debug, PartialEq, Eq)]
pub enum SaveEnd {
    /// This page of it, the first such one, can't be read.
    Absent { page: u32 },
    /// There is no memory for a copy of its pages.
    Memory,
}

/// Saves the last machine of a chain: the registers that its block says, and its pages as it sees them. It is refused where
/// a page can't be read, with the first such page. The chain is the store's, isn't empty, and its machine has no more pages
/// than a storage can have.
pub fn save(alloc: Global, store: &Store, chain: &Chain) -> Result<Capsule, SaveEnd>
    requires pinned { pin_of store.now (map syllable_of chain.now) ≡ Some chain.now }
    requires inside { 0 < length chain.now }
    requires pages { length (map_along store.now chain.now) ≤ pages_limit }
    ensures absent { IfSome (first_absent_of (map_along store.now chain.now)) (λ page. result ≡ Err (SaveEnd.Absent page)) }
    ensures memory { first_absent_of (map_along store.now chain.now) ≡ None → IfErr result (λ end. end ≡ SaveEnd.Memory) }
    ensures regs { IfOk result (λ capsule. IfSome (last_block chain.now) (λ g. capsule.regs ≡ regs_at store.now g)) }
    ensures storage { IfOk result (λ capsule. capsule.storage ≡ seen_of store.now (map_along store.now chain.now)) }
{
    if let Some(page) = first_absent(store, chain) {
        return Err(SaveEnd::Absent { page });
    }
    let cpu = cpu_of(store, chain);
    match seen(alloc, store, chain) {
        Ok(copy) => Ok(parked(&cpu, copy)),
        Err(_) => Err(SaveEnd::Memory),
    }
}

/// Saves the bare machine as one of its harts sees it: the hart's registers, and a copy of the whole storage. What the hart
/// is to run next, if any, is a page of the storage.
pub fn save_root(alloc: Global, store: &Store, cpu: &Cpu) -> Result<Capsule, AllocError>
    requires next { NextBelow (page_count store.now) cpu.now }
    ensures regs { IfOk result (λ capsule. capsule.regs ≡ cpu.now) }
    ensures storage { IfOk result (λ capsule. capsule.storage ≡ store.now) }
{
    let _pages = store.pages();
    let copy = seen(alloc, store, &Chain::new())?;
    Ok(parked(cpu, copy))
}

// The first page of the chain's machine that can't be read.
fn first_absent(store: &Store, chain: &Chain) -> Option<u32>
    ensures { result ≡ first_absent_of (map_along store.now chain.now) }
{
    for page in 0..chain.pages(store) {
        if !is_readable(store, chain, page) {
            return Some(page);
        }
    }
    None
}

// Whether a page of the chain's machine can be read.
fn is_readable(store: &Store, chain: &Chain, page: u32) -> bool
    requires { page < length (map_along store.now chain.now) }
    ensures { result ≡ can_read (map_along store.now chain.now) page }
{
    match page_slot(store, chain, page).read {
        Way::Open { .. } => true,
        Way::Shut { .. } => false,
    }
}

// The registers that the block of the chain's last machine says.
fn cpu_of(store: &Store, chain: &Chain) -> Cpu
    requires pinned { pin_of store.now (map syllable_of chain.now) ≡ Some chain.now }
    requires inside { 0 < length chain.now }
    ensures regs { IfSome (last_block chain.now) (λ g. result ≡ regs_at store.now g) }
    ensures next { NextBelow (length (map_along store.now chain.now)) result }
{
    let block = chain.last_block().unwrap();
    read_block(store, block).unwrap().cpu
}

// Registers and a storage, as a capsule.
fn parked(cpu: &Cpu, store: Store) -> Capsule
    requires { NextBelow (page_count store) cpu.now }
    ensures regs { result.regs ≡ cpu.now }
    ensures storage { result.storage ≡ store }
{
    fits(cpu);
    Capsule {
        regs: cpu.words(),
        store,
    }
}

// The registers are such as a hart can have.
fn fits(cpu: &Cpu)
    ensures { FitsHart cpu.now }
{
    let _ = &cpu.pc;
}
