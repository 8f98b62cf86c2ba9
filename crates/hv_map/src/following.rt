//! Following one page outwards.

ghost use Rattle.std.specs.Prelude.{◌≡◌, ◌+◌, ◌<◌, ◌≤◌, ◌^◌, ◌++◌, ℕ, IfSome, length, reverse, slice_index, take};
ghost use Rattle.hv_word.specs.Storage.{page_count};
ghost use Rattle.hv_store.specs.declared.access.Access.TheVariants.{Read};
ghost use Rattle.hv_map.specs.Chain.{map_along};
ghost use Rattle.hv_map.specs.Levels.{map_at, entry_at, pages_from, page_out};
ghost use Rattle.hv_map.specs.Trail.{trail, trail_pages};

use crate::chain::{Chain, Link};
use crate::lookup::{entry_at, page_slot, pages_at};
use crate::ways::Trail;
use hv_limits::LEVELS;
use hv_store::{Steps, Store};
use hv_word::field;
use std::marker::Brand;
use std::sync::ledger::{Blank, Ledger};

/// The trail of page `page` of the last machine of a chain.
#[tactic(auto, using(crate::proofs::Outwards::ends))]
pub fn trail(store: &Store, chain: &Chain, page: u32) -> Trail
    requires { page < length (map_along store.now chain.now) }
    ensures pages { take result.len result.pages ≡ trail_pages store.now (page_count store.now) (reverse chain.now) page }
    ensures len { result.len ≡ length (trail_pages store.now (page_count store.now) (reverse chain.now) page) }
    ensures rest { (k : ℕ) → result.len ≤ k → slice_index result.pages k ≡ 0 }
    ensures end { result.end ≡ trail store.now (page_count store.now) (reverse chain.now) page Read }
{
    // There are fewer machines than places.
    let _level = chain.len();
    let mut pages = [0; LEVELS];
    let len = pages_by::<Brand>(store, chain, page, &mut pages, Blank::new(1));
    Trail {
        len: len as u32,
        pages,
        end: page_slot(store, chain, page).read,
    }
}

// Writes the trail's pages and answers how many they are.
#[tactic(auto, using(crate::proofs::Outwards::ends))]
fn pages_by<L: Ledger>(
    store: &Store,
    chain: &Chain,
    page: u32,
    pages: &mut [u32],
    blank: Blank,
) -> usize
    requires page { page < length (map_along store.now chain.now) }
    requires room { length chain.now < length pages.old }
    requires name { blank.name ≡ L.name }
    requires parts { blank.parts ≡ L.parts }
    requires some { 0 < blank.parts }
    ensures pages { take result pages.new ≡ trail_pages store.now (page_count store.now) (reverse chain.now) page }
    ensures len { result ≤ length pages.old }
    ensures rest { (k : ℕ) → result ≤ k → slice_index pages.new k ≡ slice_index pages.old k }
{
    let mut steps = Steps::<L>::new(blank);
    // The page is below 2^20.
    let _pages = chain.pages(store);
    pages_into(store, chain, chain.len(), page, pages, 0, &mut steps)
}

// Writes the rest of the trail, from page `page` of the machine at a level on, behind the first `len` of `pages`.
#[tactic(auto, using(crate::proofs::Outwards::goes_on))]
fn pages_into<L: Ledger>(
    store: &Store,
    chain: &Chain,
    level: u32,
    page: u32,
    pages: &mut [u32],
    len: usize,
    steps: &mut Steps<L>,
) -> usize
    requires level { level ≤ length chain.now }
    requires page { page < 2 ^ 20 }
    requires room { len + level < length pages.old }
    ensures pages { take result pages.new ≡ take len pages.old ++ pages_from store.now chain.now level page }
    ensures some { len < result }
    ensures len { result ≤ len + level + 1 }
    ensures rest { (k : ℕ) → result ≤ k → slice_index pages.new k ≡ slice_index pages.old k }
{
    pages[len] = page;
    if level == 0 {
        return len + 1;
    }
    match page_out(store, chain, level - 1, chain.link(level - 1), page, steps) {
        None => len + 1,
        Some(outer) => pages_into(store, chain, level - 1, outer, pages, len + 1, steps),
    }
}

// The page of the machine at a level that its child's entry for page `page` names.
fn page_out<L: Ledger>(
    store: &Store,
    chain: &Chain,
    level: u32,
    child: Link,
    page: u32,
    steps: &mut Steps<L>,
) -> Option<u32>
    requires level { level < length chain.now }
    requires page { page < 2 ^ 20 }
    ensures page { result ≡ page_out (length (map_at store.now chain.now level)) (entry_at store.now chain.now level child page) }
    ensures bound { IfSome result (λ outer. outer < 2 ^ 20) }
{
    let entry = entry_at(store, chain, level, child, page, steps).ok()?;
    let outer = field::<12, 20>(entry);
    if outer < pages_at(store, chain, level) {
        Some(outer)
    } else {
        None
    }
}
