//! Where a page of a machine lies, with a list of the pages of tables and directories that are read to find it.

ghost use Rattle.std.specs.Prelude.{◌≡◌, ◌+◌, ◌*◌, ◌<◌, ◌≤◌, ◌^◌, ◌==◌, if◌then◌else◌, Some, IfErr, IfSome, length, slice_get};
ghost use Rattle.hv_word.specs.Storage.{page_count};
ghost use Rattle.hv_map.specs.Chain.{map_along};
ghost use Rattle.hv_map.specs.Compose.{reading, look};
ghost use Rattle.hv_map.specs.Levels.{map_at, table_at, entry_at, child_slot_at, reads_at, reads_bound, looked, IsWayWithin, IsSlotWithin};
ghost use Rattle.hv_map.specs.Gathered.{directory_pages, entry_pages, gathered_slot, gathered_along, gathered_at, pages_read, with_pages, word_pages};

use crate::chain::{Chain, Link};
use crate::lookup::{every, granted, pages_at, present, shut};
use crate::pages::Pages;
use hv_store::{Slot, Steps, Store, Way};
use hv_word::field;
use std::marker::Brand;
use std::sync::ledger::{Blank, Ledger};

/// Where page `page` of the chain's machine lies, as `resolve` finds it and with as many table words read at most. The bare
/// pages of tables and directories whose words are read, and that aren't in `tables` yet, are added to it in the order of
/// first reading.
#[tactic(auto, using(crate::proofs::Levels::chains, crate::proofs::GatheredMaps::gathered_chains))]
pub fn resolve_noting<L: Ledger>(
    store: &Store,
    chain: &Chain,
    page: u32,
    tables: &mut Pages,
    steps: &mut Steps<L>,
) -> Slot
    requires { page < length (map_along store.now chain.now) }
    ensures slot { slice_get (map_along store.now chain.now) page ≡ Some result }
    ensures within { IsSlotWithin (page_count store.now) (length chain.now) result }
    ensures ticks { steps.new < steps.old + reads_bound chain.now }
    ensures tables { tables.new ≡ with_pages tables.old (pages_read (gathered_along store.now chain.now) page) }
{
    gather_at(store, chain, chain.len(), page, tables, steps)
}

/// The same where no steps are counted.
pub fn page_slot_noting(store: &Store, chain: &Chain, page: u32, tables: &mut Pages) -> Slot
    requires { page < length (map_along store.now chain.now) }
    ensures slot { slice_get (map_along store.now chain.now) page ≡ Some result }
    ensures within { IsSlotWithin (page_count store.now) (length chain.now) result }
    ensures tables { tables.new ≡ with_pages tables.old (pages_read (gathered_along store.now chain.now) page) }
{
    page_slot_noting_by::<Brand>(store, chain, page, tables, Blank::new(1))
}

fn page_slot_noting_by<L: Ledger>(
    store: &Store,
    chain: &Chain,
    page: u32,
    tables: &mut Pages,
    blank: Blank,
) -> Slot
    requires page { page < length (map_along store.now chain.now) }
    requires name { blank.name ≡ L.name }
    requires parts { blank.parts ≡ L.parts }
    requires some { 0 < blank.parts }
    ensures slot { slice_get (map_along store.now chain.now) page ≡ Some result }
    ensures within { IsSlotWithin (page_count store.now) (length chain.now) result }
    ensures tables { tables.new ≡ with_pages tables.old (pages_read (gathered_along store.now chain.now) page) }
{
    let mut steps = Steps::<L>::new(blank);
    resolve_noting(store, chain, page, tables, &mut steps)
}

// The slot of a page of the machine at a level of the chain.
#[cycle(gathering)]
#[tactic(auto, using(crate::proofs::Levels::levels))]
fn gather_at<L: Ledger>(
    store: &Store,
    chain: &Chain,
    level: u32,
    page: u32,
    tables: &mut Pages,
    steps: &mut Steps<L>,
) -> Slot
    requires level { level ≤ length chain.now }
    requires page { page < length (map_at store.now chain.now level) }
    ensures slot { slice_get (map_at store.now chain.now level) page ≡ Some result }
    ensures within { IsSlotWithin (page_count store.now) (length chain.now) result }
    ensures ticks { steps.new < steps.old + reads_at chain.now level }
    ensures tables { tables.new ≡ with_pages tables.old (pages_read (gathered_at store.now chain.now level) page) }
{
    if level == 0 {
        return every(Way::Open { host: page });
    }
    gather_child(
        store,
        chain,
        level - 1,
        chain.link(level - 1),
        page,
        tables,
        steps,
    )
}

// The same, none where the machine has no such page.
#[cycle(gathering)]
#[tactic(auto, using(crate::proofs::Levels::levels))]
fn gather_page<L: Ledger>(
    store: &Store,
    chain: &Chain,
    level: u32,
    page: u64,
    tables: &mut Pages,
    steps: &mut Steps<L>,
) -> Option<Slot>
    requires level { level ≤ length chain.now }
    ensures slot { result ≡ slice_get (map_at store.now chain.now level) page }
    ensures within { IfSome result (λ s. IsSlotWithin (page_count store.now) (length chain.now) s) }
    ensures ticks { steps.new < steps.old + reads_at chain.now level }
    ensures tables { tables.new ≡ with_pages tables.old (pages_read (gathered_at store.now chain.now level) page) }
{
    if page >= u64::from(pages_at(store, chain, level)) {
        return None;
    }
    Some(gather_at(store, chain, level, page as u32, tables, steps))
}

// The slot of page `page` of a child of the machine at a level, which the link describes.
#[cycle(gathering)]
#[tactic(auto, using(crate::proofs::Levels::levels))]
fn gather_child<L: Ledger>(
    store: &Store,
    chain: &Chain,
    level: u32,
    child: Link,
    page: u32,
    tables: &mut Pages,
    steps: &mut Steps<L>,
) -> Slot
    requires level { level < length chain.now }
    requires page { page < 2 ^ 20 }
    ensures slot { result ≡ child_slot_at store.now chain.now level child page }
    ensures within { IsSlotWithin (page_count store.now) (length chain.now) result }
    ensures ticks { steps.new < steps.old
        + (if child.version == 2 then 3 * reads_at chain.now level else 2 * reads_at chain.now level) }
    ensures tables { tables.new ≡ with_pages tables.old (gathered_slot store.now (gathered_at store.now chain.now level) level child.table child.version page).pages }
{
    match gather_entry(store, chain, level, child, page, tables, steps) {
        Err(way) => every(way),
        Ok(entry) => match gather_page(
            store,
            chain,
            level,
            u64::from(field::<12, 20>(entry)),
            tables,
            steps,
        ) {
            None => every(shut(level, 3, page)),
            Some(slot) => granted(level, child.version, page, entry, slot),
        },
    }
}

// The table word of page `page` of such a child, or the way that is shut before it is reached or by it.
#[cycle(gathering)]
fn gather_entry<L: Ledger>(
    store: &Store,
    chain: &Chain,
    level: u32,
    child: Link,
    page: u32,
    tables: &mut Pages,
    steps: &mut Steps<L>,
) -> Result<u32, Way>
    requires level { level < length chain.now }
    requires page { page < 2 ^ 20 }
    ensures entry { looked result ≡ entry_at store.now chain.now level child page }
    ensures within { IfErr result (λ way. IsWayWithin (page_count store.now) (length chain.now) way) }
    ensures ticks { steps.new ≤ steps.old
        + (if child.version == 2 then 2 * reads_at chain.now level else reads_at chain.now level) }
    ensures tables { tables.new ≡ with_pages tables.old (entry_pages store.now (gathered_at store.now chain.now level) level child.table child.version page) }
{
    let table = gather_table(store, chain, level, child, page, tables, steps)?;
    gather_word(store, chain, level, page, table, page % 1024, tables, steps)
}

// The page of the machine at a level in which that word is: named by the child's directory, or counted from its table.
#[cycle(gathering)]
fn gather_table<L: Ledger>(
    store: &Store,
    chain: &Chain,
    level: u32,
    child: Link,
    page: u32,
    tables: &mut Pages,
    steps: &mut Steps<L>,
) -> Result<u64, Way>
    requires level { level < length chain.now }
    requires page { page < 2 ^ 20 }
    ensures table { looked result ≡ table_at store.now chain.now level child page }
    ensures within { IfErr result (λ way. IsWayWithin (page_count store.now) (length chain.now) way) }
    ensures ticks { steps.new ≤ steps.old + (if child.version == 2 then reads_at chain.now level else 0) }
    ensures tables { tables.new ≡ with_pages tables.old (directory_pages (gathered_at store.now chain.now level) child.table child.version) }
{
    if child.version == 2 {
        let word = gather_word(
            store,
            chain,
            level,
            page,
            u64::from(child.table),
            page / 1024,
            tables,
            steps,
        )?;
        Ok(u64::from(field::<12, 20>(word)))
    } else {
        Ok(u64::from(child.table) + u64::from(page / 1024))
    }
}

// Word `word` of page `table` of the machine at a level, for its child's page `page`.
#[cycle(gathering)]
fn gather_word<L: Ledger>(
    store: &Store,
    chain: &Chain,
    level: u32,
    page: u32,
    table: u64,
    word: u32,
    tables: &mut Pages,
    steps: &mut Steps<L>,
) -> Result<u32, Way>
    requires level { level < length chain.now }
    requires page { page < 2 ^ 20 }
    requires word { word < 1024 }
    ensures word { looked result ≡ look store.now level page word (reading (map_at store.now chain.now level) table) }
    ensures within { IfErr result (λ way. IsWayWithin (page_count store.now) (length chain.now) way) }
    ensures ticks { steps.new ≤ steps.old + reads_at chain.now level }
    ensures tables { tables.new ≡ with_pages tables.old (word_pages (gathered_at store.now chain.now level) table) }
{
    let Some(slot) = gather_page(store, chain, level, table, tables, steps) else {
        return Err(shut(level, 4, page));
    };
    match slot.read {
        Way::Open { host } => {
            tables.add(host);
            // The store has few enough pages for the place to fit.
            let _pages = store.pages();
            present(level, page, store.map_word(1024 * host + word, steps))
        }
        Way::Shut {
            level,
            cause,
            page,
            word: asked,
        } => Err(Way::Shut {
            level,
            cause,
            page,
            word: Some(asked.unwrap_or(word)),
        }),
    }
}
