//! Finding the machines on a path.

ghost use Rattle.std.specs.Prelude.{◌≡◌, ◌<◌, IfSome, Some, length};
ghost use Rattle.hv_word.specs.Storage.{page_count};
ghost use Rattle.hv_map.specs.Chain.{map_along, pin_of};
ghost use Rattle.hv_map.specs.Found.{found_on, IsFoundWithin};
ghost use Rattle.hv_map.specs.Gathered.{gathered_along, pages_read, pin_pages, with_pages};

use crate::chain::Chain;
use crate::found::{Found, child, through};
use crate::gathering::resolve_noting;
use crate::pages::Pages;
use crate::path::Path;
use hv_store::{Steps, Store};
use std::marker::Brand;
use std::sync::ledger::{Blank, Ledger};

/// The machines on a path, as their blocks are now. There is none where a syllable is outside its machine's pages, or that
/// page can't be written, or has no well-formed block.
#[tactic(auto, using(crate::proofs::Pins::pins))]
pub fn pin(store: &Store, path: &Path) -> Option<Chain>
    ensures { result ≡ pin_of store.now path.now }
{
    let mut chain = Chain::new();
    for syllable in path.as_slice() {
        if *syllable >= chain.pages(store) {
            return None;
        }
        match child(store, &chain, *syllable) {
            Found::Child { host, block } => chain = chain.deeper(*syllable, host, &block),
            Found::Malformed { .. } | Found::Refused(_) => return None,
        }
    }
    Some(chain)
}

/// The same, and where there are such machines, the bare pages of tables and directories whose words are read to find their
/// blocks, and that aren't in `tables` yet, are added to it in the order of first reading.
#[tactic(auto, using(crate::proofs::Pins::pins))]
pub fn pin_noting(store: &Store, path: &Path, tables: &mut Pages) -> Option<Chain>
    ensures chain { result ≡ pin_of store.now path.now }
    ensures tables { IfSome result (λ items. tables.new ≡ with_pages tables.old (pin_pages store.now items)) }
{
    let mut chain = Chain::new();
    for syllable in path.as_slice() {
        if *syllable >= chain.pages(store) {
            return None;
        }
        match child_noting(store, &chain, *syllable, tables) {
            Found::Child { host, block } => chain = chain.deeper(*syllable, host, &block),
            Found::Malformed { .. } | Found::Refused(_) => return None,
        }
    }
    Some(chain)
}

/// What the last machine of a chain finds on its page `page`, as `child` finds it. The bare pages of tables and directories
/// whose words are read, and that aren't in `tables` yet, are added to it in the order of first reading.
pub fn child_noting(store: &Store, chain: &Chain, page: u32, tables: &mut Pages) -> Found
    requires { page < length (map_along store.now chain.now) }
    ensures found { Some result ≡ found_on store.now (map_along store.now chain.now) page }
    ensures within { IsFoundWithin (page_count store.now) (length chain.now) result }
    ensures tables { tables.new ≡ with_pages tables.old (pages_read (gathered_along store.now chain.now) page) }
{
    child_noting_by::<Brand>(store, chain, page, tables, Blank::new(1))
}

// The same; no steps are counted.
fn child_noting_by<L: Ledger>(
    store: &Store,
    chain: &Chain,
    page: u32,
    tables: &mut Pages,
    blank: Blank,
) -> Found
    requires page { page < length (map_along store.now chain.now) }
    requires name { blank.name ≡ L.name }
    requires parts { blank.parts ≡ L.parts }
    requires some { 0 < blank.parts }
    ensures found { Some result ≡ found_on store.now (map_along store.now chain.now) page }
    ensures within { IsFoundWithin (page_count store.now) (length chain.now) result }
    ensures tables { tables.new ≡ with_pages tables.old (pages_read (gathered_along store.now chain.now) page) }
{
    let mut steps = Steps::<L>::new(blank);
    let slot = resolve_noting(store, chain, page, tables, &mut steps);
    through(store, chain, slot.write)
}
