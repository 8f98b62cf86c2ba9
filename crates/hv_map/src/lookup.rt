//! Where a page of a machine lies: the slots of its map, found through the tables of the machines on its path.

ghost use Rattle.std.specs.Prelude.{◌≡◌, ◌≢◌, ◌+◌, ◌*◌, ◌/◌, ◌<◌, ◌≤◌, ◌^◌, ◌==◌, if◌then◌else◌, Some, IfErr, IfOk, IfSome, length, slice_get};
ghost use Rattle.hv_word.specs.Storage.{page_count};
ghost use Rattle.hv_map.specs.Chain.{map_along};
ghost use Rattle.hv_map.specs.Compose.{reading, present, look, every, granted};
ghost use Rattle.hv_map.specs.Levels.{map_at, table_at, entry_at, child_slot_at, reads_at, reads_bound, looked, IsWayWithin, IsSlotWithin};
ghost use Rattle.hv_store.specs.declared.access.Way.TheVariants.{Shut};

use crate::chain::{Chain, Link};
use hv_store::{Slot, Steps, Store, Way};
use hv_word::field;
use std::marker::Brand;
use std::sync::ledger::{Blank, Ledger};

/// Where page `page` of the chain's machine lies. It opens bare pages of the store alone, and a way of it that is shut is
/// shut at a level below the chain's length. For a chain of `a` blocks of version 0 and `b` of version 2, at most
/// `2^a * 3^b - 1` table words are read.
#[tactic(auto, using(crate::proofs::Levels::chains))]
pub fn resolve<L: Ledger>(store: &Store, chain: &Chain, page: u32, steps: &mut Steps<L>) -> Slot
    requires { page < length (map_along store.now chain.now) }
    ensures slot { slice_get (map_along store.now chain.now) page ≡ Some result }
    ensures within { IsSlotWithin (page_count store.now) (length chain.now) result }
    ensures ticks { steps.new < steps.old + reads_bound chain.now }
{
    resolve_at(store, chain, chain.len(), page, steps)
}

/// The same where no steps are counted.
pub fn page_slot(store: &Store, chain: &Chain, page: u32) -> Slot
    requires { page < length (map_along store.now chain.now) }
    ensures slot { slice_get (map_along store.now chain.now) page ≡ Some result }
    ensures within { IsSlotWithin (page_count store.now) (length chain.now) result }
{
    page_slot_by::<Brand>(store, chain, page, Blank::new(1))
}

fn page_slot_by<L: Ledger>(store: &Store, chain: &Chain, page: u32, blank: Blank) -> Slot
    requires page { page < length (map_along store.now chain.now) }
    requires name { blank.name ≡ L.name }
    requires parts { blank.parts ≡ L.parts }
    requires some { 0 < blank.parts }
    ensures slot { slice_get (map_along store.now chain.now) page ≡ Some result }
    ensures within { IsSlotWithin (page_count store.now) (length chain.now) result }
{
    let mut steps = Steps::<L>::new(blank);
    resolve(store, chain, page, &mut steps)
}

// The number of pages of the machine at a level of the chain.
#[inline(always)]
#[tactic(auto, using(crate::proofs::Levels::levels))]
pub(crate) fn pages_at(store: &Store, chain: &Chain, level: u32) -> u32
    requires { level ≤ length chain.now }
    ensures pages { result ≡ length (map_at store.now chain.now level) }
    ensures bound { result ≤ 2 ^ 20 }
{
    if level == 0 {
        store.pages()
    } else {
        chain.link(level - 1).pages
    }
}

// The slot of a page of the machine at a level of the chain.
#[cycle(resolving)]
#[tactic(auto, using(crate::proofs::Levels::levels))]
fn resolve_at<L: Ledger>(
    store: &Store,
    chain: &Chain,
    level: u32,
    page: u32,
    steps: &mut Steps<L>,
) -> Slot
    requires level { level ≤ length chain.now }
    requires page { page < length (map_at store.now chain.now level) }
    ensures slot { slice_get (map_at store.now chain.now level) page ≡ Some result }
    ensures within { IsSlotWithin (page_count store.now) (length chain.now) result }
    ensures ticks { steps.new < steps.old + reads_at chain.now level }
{
    if level == 0 {
        return every(Way::Open { host: page });
    }
    slot_of_child(store, chain, level - 1, chain.link(level - 1), page, steps)
}

// The same, none where the machine has no such page.
#[cycle(resolving)]
#[tactic(auto, using(crate::proofs::Levels::levels))]
fn slot_at<L: Ledger>(
    store: &Store,
    chain: &Chain,
    level: u32,
    page: u64,
    steps: &mut Steps<L>,
) -> Option<Slot>
    requires level { level ≤ length chain.now }
    ensures slot { result ≡ slice_get (map_at store.now chain.now level) page }
    ensures within { IfSome result (λ s. IsSlotWithin (page_count store.now) (length chain.now) s) }
    ensures ticks { steps.new < steps.old + reads_at chain.now level }
{
    if page >= u64::from(pages_at(store, chain, level)) {
        return None;
    }
    Some(resolve_at(store, chain, level, page as u32, steps))
}

// The slot of page `page` of a child of the machine at a level, which the link describes.
#[cycle(resolving)]
#[tactic(auto, using(crate::proofs::Levels::levels))]
fn slot_of_child<L: Ledger>(
    store: &Store,
    chain: &Chain,
    level: u32,
    child: Link,
    page: u32,
    steps: &mut Steps<L>,
) -> Slot
    requires level { level < length chain.now }
    requires page { page < 2 ^ 20 }
    ensures slot { result ≡ child_slot_at store.now chain.now level child page }
    ensures within { IsSlotWithin (page_count store.now) (length chain.now) result }
    ensures ticks { steps.new < steps.old
        + (if child.version == 2 then 3 * reads_at chain.now level else 2 * reads_at chain.now level) }
{
    match entry_at(store, chain, level, child, page, steps) {
        Err(way) => every(way),
        Ok(entry) => match slot_at(
            store,
            chain,
            level,
            u64::from(field::<12, 20>(entry)),
            steps,
        ) {
            None => every(shut(level, 3, page)),
            Some(slot) => granted(level, child.version, page, entry, slot),
        },
    }
}

// The table word of page `page` of such a child, or the way that is shut before it is reached or by it.
#[cycle(resolving)]
pub(crate) fn entry_at<L: Ledger>(
    store: &Store,
    chain: &Chain,
    level: u32,
    child: Link,
    page: u32,
    steps: &mut Steps<L>,
) -> Result<u32, Way>
    requires level { level < length chain.now }
    requires page { page < 2 ^ 20 }
    ensures entry { looked result ≡ entry_at store.now chain.now level child page }
    ensures within { IfErr result (λ way. IsWayWithin (page_count store.now) (length chain.now) way) }
    ensures ticks { steps.new ≤ steps.old
        + (if child.version == 2 then 2 * reads_at chain.now level else reads_at chain.now level) }
{
    let table = table_at(store, chain, level, child, page, steps)?;
    look_at(store, chain, level, page, table, page % 1024, steps)
}

// The page of the machine at a level in which that word is: named by the child's directory, or counted from its table.
#[cycle(resolving)]
fn table_at<L: Ledger>(
    store: &Store,
    chain: &Chain,
    level: u32,
    child: Link,
    page: u32,
    steps: &mut Steps<L>,
) -> Result<u64, Way>
    requires level { level < length chain.now }
    requires page { page < 2 ^ 20 }
    ensures table { looked result ≡ table_at store.now chain.now level child page }
    ensures within { IfErr result (λ way. IsWayWithin (page_count store.now) (length chain.now) way) }
    ensures ticks { steps.new ≤ steps.old + (if child.version == 2 then reads_at chain.now level else 0) }
{
    if child.version == 2 {
        let word = look_at(
            store,
            chain,
            level,
            page,
            u64::from(child.table),
            page / 1024,
            steps,
        )?;
        Ok(u64::from(field::<12, 20>(word)))
    } else {
        Ok(u64::from(child.table) + u64::from(page / 1024))
    }
}

// Word `word` of page `table` of the machine at a level, for its child's page `page`.
#[cycle(resolving)]
fn look_at<L: Ledger>(
    store: &Store,
    chain: &Chain,
    level: u32,
    page: u32,
    table: u64,
    word: u32,
    steps: &mut Steps<L>,
) -> Result<u32, Way>
    requires level { level < length chain.now }
    requires page { page < 2 ^ 20 }
    requires word { word < 1024 }
    ensures word { looked result ≡ look store.now level page word (reading (map_at store.now chain.now level) table) }
    ensures within { IfErr result (λ way. IsWayWithin (page_count store.now) (length chain.now) way) }
    ensures ticks { steps.new ≤ steps.old + reads_at chain.now level }
{
    let Some(slot) = slot_at(store, chain, level, table, steps) else {
        return Err(shut(level, 4, page));
    };
    match slot.read {
        Way::Open { host } => {
            // The store has few enough pages for the place to fit.
            let _pages = store.pages();
            present(level, page, store.map_word(1024 * host + word, steps))
        }
        Way::Shut {
            level,
            cause,
            page,
            word: asked,
        } => Err(Way::Shut {
            level,
            cause,
            page,
            word: Some(asked.unwrap_or(word)),
        }),
    }
}

// A directory or table word, where it is present.
pub(crate) fn present(level: u32, page: u32, word: u32) -> Result<u32, Way>
    ensures word { looked result ≡ present level page word }
    ensures shut { IfErr result (λ way. way ≡ Shut level 1 page None) }
{
    if word % 2 == 0 {
        return Err(shut(level, 1, page));
    }
    Ok(word)
}

// A way that the machine at a level shuts for its child's page.
pub(crate) fn shut(level: u32, cause: u32, page: u32) -> Way
    ensures { result ≡ Shut level cause page None }
{
    Way::Shut {
        level,
        cause,
        page,
        word: None,
    }
}

// One way for every access.
pub(crate) fn every(way: Way) -> Slot
    ensures { result ≡ every way }
{
    Slot {
        read: way,
        write: way,
        fetch: way,
    }
}

// What an entry of a child's table leaves of the slot of the page that it names.
pub(crate) fn granted(level: u32, version: u32, page: u32, entry: u32, slot: Slot) -> Slot
    ensures { result ≡ granted level version page entry slot }
{
    Slot {
        read: slot.read,
        write: if entry / 2 % 2 == 0 {
            shut(level, 2, page)
        } else {
            slot.write
        },
        fetch: if version == 2 && entry / 4 % 2 == 0 {
            shut(level, 7, page)
        } else {
            slot.fetch
        },
    }
}
