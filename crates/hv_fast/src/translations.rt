//! Held translations: where a page of a machine lies, by the number of its path, with what that rests on.

ghost use Rattle.std.specs.Prelude.{◌≡◌, ◌≢◌, ◌↔◌, ◌<◌, ◌+◌, ℕ, List, [], true, false, IfOk, IfSome, MatchOption, Some, is_some, length, slice_get};
ghost use Rattle.hv_limits.specs.Limits.{depth_limit};
ghost use Rattle.hv_store.specs.declared.access.Slot.{Slot};
ghost use Rattle.hv_map.specs.Chain.{map_along, pin_of};
ghost use Rattle.hv_map.specs.Item.{Item};
ghost use Rattle.hv_map.specs.Levels.{reads_bound};
ghost use Rattle.hv_fast.specs.Beside.{EntriesAreRight};
ghost use Rattle.hv_fast.specs.Holds.{NumbersStay, is_held, pages_for};

use hv_cache::MapCache;
use hv_map::{Pages, Path, Slot, pin_noting, resolve_noting};
use hv_store::{Steps, Store};
use hv_vmid::{IdEnd, Ids};
use std::marker::Brand;
use std::sync::ledger::{Blank, Ledger};

/// What came of holding a translation: it is held, what it rests on is too wide to be listed, or memory is wanting.
#[derive(Clone, Copy, Debug, PartialEq, Eq)]
pub enum Kept {
    Held,
    Wide,
    Memory,
}

/// Where a page lies, and whether that is held now.
#[derive(Clone, Copy, Debug, PartialEq, Eq)]
pub struct Translated {
    pub slot: Slot,
    pub kept: Kept,
}

/// Where page `page` of the machine on a path lies. It is looked up where it is held, and else found along the path and held from
/// then on, where that can be.
pub(crate) fn translate<L: Ledger>(
    ids: &mut Ids,
    cache: &mut MapCache,
    store: &Store,
    path: &Path,
    page: u32,
    steps: &mut Steps<L>,
) -> Translated
    requires path { path.now ≢ [] }
    requires right { EntriesAreRight store.now ids.old cache.old.entries }
    requires page { (items : List Item) × (pin_of store.now path.now ≡ Some items) × (page < length (map_along store.now items)) }
    ensures right { EntriesAreRight store.now ids.new cache.new.entries }
    ensures slot { (items : List Item) → pin_of store.now path.now ≡ Some items → slice_get (map_along store.now items) page ≡ Some result.slot }
    ensures held { (result.kept ≡ Kept.Held) ↔ (is_held ids.new cache.new.entries path.now page ≡ true) }
    ensures wide { (items : List Item) → pin_of store.now path.now ≡ Some items → (result.kept ≡ Kept.Wide)
        ↔ ((is_held ids.old cache.old.entries path.now page ≡ false) × ((pages_for store.now items page).full ≡ true)) }
    ensures quick { is_held ids.old cache.old.entries path.now page ≡ true → steps.new ≡ steps.old }
    ensures ticks { (items : List Item) → pin_of store.now path.now ≡ Some items → steps.new < steps.old + reads_bound items }
{
    if let Some(slot) = look(ids, cache, path, page) {
        return Translated {
            slot,
            kept: Kept::Held,
        };
    }
    let mut tables = Pages::new();
    let Some(chain) = pin_noting(store, path, &mut tables) else {
        unreachable!()
    };
    let slot = resolve_noting(store, &chain, page, &mut tables, steps);
    if tables.full {
        return Translated {
            slot,
            kept: Kept::Wide,
        };
    }
    let Some(number) = number(ids, cache, path) else {
        return Translated {
            slot,
            kept: Kept::Memory,
        };
    };
    // The store has few enough pages for all that the entry rests on to be watched.
    let _pages = store.pages();
    let kept = match cache.keep(number, page, slot, &chain, &tables) {
        Ok(()) => Kept::Held,
        Err(_) => Kept::Memory,
    };
    Translated { slot, kept }
}

/// The same where no steps are counted.
pub(crate) fn hold(
    ids: &mut Ids,
    cache: &mut MapCache,
    store: &Store,
    path: &Path,
    page: u32,
) -> Translated
    requires path { path.now ≢ [] }
    requires right { EntriesAreRight store.now ids.old cache.old.entries }
    requires page { (items : List Item) × (pin_of store.now path.now ≡ Some items) × (page < length (map_along store.now items)) }
    ensures right { EntriesAreRight store.now ids.new cache.new.entries }
{
    hold_by::<Brand>(ids, cache, store, path, page, Blank::new(1))
}

fn hold_by<L: Ledger>(
    ids: &mut Ids,
    cache: &mut MapCache,
    store: &Store,
    path: &Path,
    page: u32,
    blank: Blank,
) -> Translated
    requires name { blank.name ≡ L.name }
    requires parts { blank.parts ≡ L.parts }
    requires some { 0 < blank.parts }
    requires path { path.now ≢ [] }
    requires right { EntriesAreRight store.now ids.old cache.old.entries }
    requires page { (items : List Item) × (pin_of store.now path.now ≡ Some items) × (page < length (map_along store.now items)) }
    ensures right { EntriesAreRight store.now ids.new cache.new.entries }
{
    let mut steps = Steps::<L>::new(blank);
    translate(ids, cache, store, path, page, &mut steps)
}

/// Whether the translation of a page of the machine on a path is held.
pub(crate) fn holds(ids: &Ids, cache: &MapCache, path: &Path, page: u32) -> bool
    ensures { result ≡ is_held ids.now cache.now.entries path.now page }
{
    match ids.find(path) {
        Some(number) => cache.holds(number, page),
        None => false,
    }
}

// The slot of a page of the machine on a path, if that is held. It becomes the most recently used.
fn look(ids: &Ids, cache: &mut MapCache, path: &Path, page: u32) -> Option<Slot>
    ensures some { is_some result ≡ is_held ids.now cache.old.entries path.now page }
    ensures slot { (S : List ℕ) (items : List Item) (slot : Slot) → EntriesAreRight S ids.now cache.old.entries
        → pin_of S path.now ≡ Some items → result ≡ Some slot → slice_get (map_along S items) page ≡ Some slot }
    ensures right { (S : List ℕ) → EntriesAreRight S ids.now cache.old.entries → EntriesAreRight S ids.now cache.new.entries }
    ensures held { is_held ids.now cache.new.entries path.now page ≡ is_held ids.now cache.old.entries path.now page }
{
    cache.look(ids.find(path)?, page)
}

// The number of a path, which is given here where it has none. Where too many paths have numbers, they are taken from all, and
// what was held by them is forgotten. There is none where memory is wanting.
fn number(ids: &mut Ids, cache: &mut MapCache, path: &Path) -> Option<u32>
    ensures number { IfSome result (λ k. slice_get ids.new k ≡ Some path.now) }
    ensures right { (S : List ℕ) → EntriesAreRight S ids.old cache.old.entries → EntriesAreRight S ids.new cache.new.entries }
    ensures held { (S : List ℕ) (page : ℕ) → EntriesAreRight S ids.old cache.old.entries
        → is_held ids.old cache.old.entries path.now page ≡ false → is_held ids.new cache.new.entries path.now page ≡ false }
{
    match given(ids, path) {
        Ok(number) => number,
        Err(IdEnd::Memory) => None,
        Err(IdEnd::Full) => {
            ids.drop_all();
            cache.forget_all();
            given(ids, path).ok()?
        }
    }
}

// The same, where all numbers that were given stay, and with the reason where there is none.
fn given(ids: &mut Ids, path: &Path) -> Result<Option<u32>, IdEnd>
    ensures number { IfOk result (λ number. MatchOption number (path.now ≡ []) (λ k. slice_get ids.new k ≡ Some path.now)) }
    ensures stay { NumbersStay ids.old ids.new }
{
    let mut number = None;
    for syllable in path.as_slice() {
        number = Some(ids.child_id(number, *syllable)?);
    }
    Ok(number)
}
