//! A machine of two pages that is saved, placed and saved again, with ample memory.

ghost use Rattle.std.specs.Prelude.{◌≡◌, ◌<◌, ◌≤◌, IfSome, Some, length, map};
ghost use Rattle.hv_limits.specs.Limits.{pages_limit};
ghost use Rattle.hv_map.specs.Chain.{map_along, pin_of};
ghost use Rattle.hv_map.specs.Links.{syllable_of};

use super::*;
use hv_capsule::Capsule;
use hv_cpu::reset;
use hv_limits::PAGES;
use hv_map::{Chain, Path, pin};
use hv_store::Store;
use std::alloc::{AllocError, Global};
use std::test::Fail;

// Writes a word where there is one.
fn write(store: &mut Store, page: u32, word: u32, value: u32) {
    if page < store.pages() && word < 1024 {
        store.put(1024 * page + word, value);
    }
}

fn word(store: &Store, page: u32, word: u32) -> Option<u32> {
    if page < store.pages() && word < 1024 {
        Some(store.get(1024 * page + word))
    } else {
        None
    }
}

// A storage with a machine whose block is on a page, and whose table is on page 2 and has two words.
fn storage(alloc: Global, block: u32, first: u32, second: u32) -> Result<Store, AllocError> {
    let mut store = Store::new(alloc, 8)?;
    write(&mut store, block, 32, 3);
    write(&mut store, block, 65, 2);
    write(&mut store, block, 66, 2);
    write(&mut store, 2, 0, first);
    write(&mut store, 2, 1, second);
    Ok(store)
}

// The machine whose block is on a page, if it is there.
fn machine(store: &Store, block: u32) -> Option<Chain>
    ensures pinned { IfSome result (λ items. pin_of store.now (map syllable_of items) ≡ Some items) }
    ensures inside { IfSome result (λ items. 0 < length items) }
    ensures pages { IfSome result (λ items. length (map_along store.now items) ≤ pages_limit) }
{
    let mut path = Path::new();
    path.push(block);
    let chain = pin(store, &path)?;
    if chain.len() == 0 || chain.pages(store) > PAGES {
        return None;
    }
    Some(chain)
}

// A machine on page 1 with some words in its block and its pages, saved.
fn saved(alloc: Global) -> Result<Option<Capsule>, AllocError> {
    let mut store = storage(alloc, 1, 0x3003, 0x4003)?;
    write(&mut store, 1, 1, 5);
    write(&mut store, 1, 42, 0x80);
    write(&mut store, 3, 0, 7);
    write(&mut store, 4, 1023, 9);
    let Some(chain) = machine(&store, 1) else {
        return Ok(None);
    };
    Ok(save(alloc, &store, &chain).ok())
}

// Why it isn't placed on page 1 of a storage with a table of these words.
fn refusal(alloc: Global, first: u32, second: u32) -> Result<Option<PlaceEnd>, AllocError> {
    let mut store = storage(alloc, 1, first, second)?;
    let Some(capsule) = saved(alloc)? else {
        return Ok(None);
    };
    let Some(chain) = machine(&store, 1) else {
        return Ok(None);
    };
    Ok(place(&mut store, &chain, &capsule).err())
}

#[test]
fn a_saved_machine_has_its_registers_and_pages(rt: HostRuntime) -> Result<(), Fail> {
    let Some(capsule) = saved(rt.alloc())? else {
        return Err("not saved")?;
    };
    assert_eq!(rt; capsule.regs[1], 5);
    assert_eq!(rt; capsule.regs[32], 3);
    assert_eq!(rt; capsule.regs[42], 0x80);
    assert_eq!(rt; capsule.store.pages(), 2);
    assert_eq!(rt; word(&capsule.store, 0, 0), Some(7));
    assert_eq!(rt; word(&capsule.store, 1, 1023), Some(9));
    Ok(())
}

#[test]
fn a_page_that_is_not_there_is_told(rt: HostRuntime) -> Result<(), Fail> {
    let store = storage(rt.alloc(), 1, 0x3003, 0)?;
    let Some(chain) = machine(&store, 1) else {
        return Err("no machine")?;
    };
    let Err(end) = save(rt.alloc(), &store, &chain) else {
        return Err("saved")?;
    };
    assert_eq!(rt; end, SaveEnd::Absent { page: 1 });
    Ok(())
}

#[test]
fn a_placed_machine_has_the_registers_and_pages(rt: HostRuntime) -> Result<(), Fail> {
    let Some(capsule) = saved(rt.alloc())? else {
        return Err("not saved")?;
    };
    let mut store = storage(rt.alloc(), 3, 0x7003, 0x5003)?;
    let Some(chain) = machine(&store, 3) else {
        return Err("no machine")?;
    };
    assert_eq!(rt; place(&mut store, &chain, &capsule), Ok(()));
    assert_eq!(rt; word(&store, 3, 1), Some(5));
    assert_eq!(rt; word(&store, 3, 42), Some(0x80));
    assert_eq!(rt; word(&store, 3, 66), Some(2));
    assert_eq!(rt; word(&store, 7, 0), Some(7));
    assert_eq!(rt; word(&store, 5, 1023), Some(9));
    Ok(())
}

#[test]
fn a_machine_that_cannot_be_written_stays(rt: HostRuntime) -> Result<(), Fail> {
    assert_eq!(rt; refusal(rt.alloc(), 0x3003, 0x3003)?, Some(PlaceEnd::Apart));
    assert_eq!(rt;
        refusal(rt.alloc(), 0x3003, 0x4001)?,
        Some(PlaceEnd::Shut { page: 1 })
    );
    Ok(())
}

#[test]
fn the_bare_machine_is_saved_whole(rt: HostRuntime) -> Result<(), Fail> {
    let store = storage(rt.alloc(), 1, 0x3003, 0x4003)?;
    let capsule = save_root(rt.alloc(), &store, &reset())?;
    assert_eq!(rt; capsule.regs[32], 3);
    assert_eq!(rt; capsule.store.pages(), 8);
    assert_eq!(rt; word(&capsule.store, 2, 1), Some(0x4003));
    Ok(())
}
