//! Caches of two entries, over chains of one machine.

ghost use Rattle.std.specs.Prelude.{◌≡◌, ◌<◌, [], ◌∷◌, false};
ghost use Rattle.hv_limits.specs.Limits.{pages_limit};
ghost use Rattle.hv_map.specs.Apart.{blocks_of};
ghost use Rattle.lru.specs.LruCache.{lru_cache, promoted};
ghost use Rattle.hv_cache.specs.Holding.{same};

use super::*;
use hv_block::Block;
use hv_cpu::reset;
use hv_map::{Chain, Pages, Slot, Way};
use std::alloc::AllocError;
use std::test::Fail;

// Every access of a page leads to one bare page.
fn open(host: u32) -> Slot {
    let way = Way::Open { host };
    Slot {
        read: way,
        write: way,
        fetch: way,
    }
}

// The chain of a machine whose block is in a bare page.
fn chain(block: u32) -> Chain
    ensures { blocks_of result ≡ block ∷ [] }
{
    let machine = Block {
        cpu: reset(),
        pages: 4,
        table: 2,
        version: 0,
    };
    Chain::new().deeper(1, block, &machine)
}

fn one_table(page: u32) -> Pages
    ensures pages { result.pages ≡ page ∷ [] }
    ensures full { result.full ≡ false }
{
    let mut tables = Pages::new();
    tables.add(page);
    tables
}

// Holds a page of machine 1, open to a bare page, and resting on the page of a block and that of a table.
fn keep(
    cache: &mut MapCache,
    page: u32,
    host: u32,
    block: u32,
    table: u32,
) -> Result<(), AllocError>
    requires block { block < pages_limit }
    requires table { table < pages_limit }
{
    cache.keep(1, page, open(host), &chain(block), &one_table(table))
}

// How many blocks' pages an entry rests on. The entry becomes the most recently used, as a caller can know.
fn block_count(cache: &mut MapCache, id: u32, page: u32) -> usize
    ensures { cache.new ≡ lru_cache (promoted (same (id, page)) cache.old.entries) cache.old.cap }
{
    match cache.entry(id, page) {
        Some(kept) => kept.blocks().len(),
        None => 0,
    }
}

#[test]
fn what_rests_on_a_page_is_forgotten_with_it(rt: HostRuntime) -> Result<(), Fail> {
    let mut cache = MapCache::new(rt.alloc(), 2)?;
    keep(&mut cache, 0, 9, 1, 2)?;
    keep(&mut cache, 3, 8, 1, 4)?;
    assert_eq!(rt; cache.look(1, 0), Some(open(9)));
    assert_eq!(rt; cache.look(2, 0), None);
    assert!(rt; cache.watched(1) && cache.watched(2) && !cache.watched(9));
    assert!(rt; cache.table_watched(2) && !cache.table_watched(1));
    assert!(rt; !cache.watched(16_384) && !cache.table_watched(u32::MAX));
    cache.forget_page(2);
    assert_eq!(rt; cache.look(1, 0), None);
    assert_eq!(rt; cache.look(1, 3), Some(open(8)));
    assert!(rt; cache.watched(1) && !cache.watched(2));
    cache.forget_page(1);
    assert!(rt; !cache.holds(1, 3) && !cache.watched(1));
    Ok(())
}

#[test]
fn the_least_recently_used_goes_where_there_is_no_room(rt: HostRuntime) -> Result<(), Fail> {
    let mut cache = MapCache::new(rt.alloc(), 2)?;
    keep(&mut cache, 0, 9, 1, 2)?;
    keep(&mut cache, 1, 8, 3, 2)?;
    assert_eq!(rt; cache.look(1, 0), Some(open(9)));
    keep(&mut cache, 2, 7, 1, 2)?;
    assert!(rt; cache.holds(1, 0) && !cache.holds(1, 1) && cache.holds(1, 2));
    assert!(rt; !cache.watched(3));
    keep(&mut cache, 0, 6, 5, 2)?;
    assert_eq!(rt; cache.look(1, 0), Some(open(6)));
    assert!(rt; cache.holds(1, 2));
    Ok(())
}

#[test]
fn all_that_is_kept_can_be_read(rt: HostRuntime) -> Result<(), Fail> {
    let mut cache = MapCache::new(rt.alloc(), 2)?;
    keep(&mut cache, 0, 9, 1, 2)?;
    match cache.entry(1, 0) {
        Some(kept) => {
            assert_eq!(rt; kept.slot(), open(9));
            assert_eq!(rt; kept.blocks(), [1u32].as_slice());
            assert_eq!(rt; kept.tables(), [2u32].as_slice());
        }
        None => Err("no entry")?,
    }
    assert_eq!(rt; block_count(&mut cache, 1, 0), 1);
    cache.forget_all();
    assert_eq!(rt; block_count(&mut cache, 1, 0), 0);
    assert!(rt; !cache.watched(1) && !cache.table_watched(2));
    Ok(())
}
