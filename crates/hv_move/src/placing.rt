//! Placing a parked machine in a storage.

ghost use Rattle.std.specs.Prelude.{◌≡◌, ℕ, ◌+◌, ◌*◌, ◌<◌, ◌≤◌, Err, IfOk, IfSome, IsOk, MatchOption, OnErr, OnOk, Some, length, map, slice_index};
ghost use Rattle.std.proofs.Math.Seq.{sets};
ghost use Rattle.hv_limits.specs.Limits.{pages_limit};
ghost use Rattle.hv_word.specs.Storage.{page_count};
ghost use Rattle.hv_apart.specs.Upgrade.{written_in};
ghost use Rattle.hv_block.specs.Block.{put_regs};
ghost use Rattle.hv_capsule.specs.Parked.{regs_of_words};
ghost use Rattle.hv_map.specs.Chain.{map_along, pin_of};
ghost use Rattle.hv_map.specs.Links.{syllable_of};
ghost use Rattle.hv_move.specs.Placed.{AreHosts, AreWritten, DifferAll, IsPlaced, first_shut, place_refusal};

use hv_apart::apart;
use hv_capsule::Capsule;
use hv_limits::PAGES;
use hv_map::{Chain, Way, page_slot};
use hv_store::Store;

/// Why a machine isn't placed.
#[derive(Clone, Copy, Debug, PartialEq, Eq)]
pub enum PlaceEnd {
    /// It has another number of pages.
    Pages,
    /// The bare pages on which the machine stands aren't all different.
    Apart,
    /// This page of the machine, the first such one, can't be written.
    Shut { page: u32 },
}

/// Makes the last machine of a chain the one that is parked: its pages and the registers in its block. It is refused by the
/// first reason of pages, apart and shut; nothing has changed then. The chain is the store's, isn't empty, and its machine
/// has no more pages than a storage can have. It takes no memory.
pub fn place(store: &mut Store, chain: &Chain, capsule: &Capsule) -> Result<(), PlaceEnd>
    requires pinned { pin_of store.old (map syllable_of chain.now) ≡ Some chain.now }
    requires inside { 0 < length chain.now }
    requires pages { length (map_along store.old chain.now) ≤ pages_limit }
    ensures refused { MatchOption (place_refusal store.old chain.now capsule.now) (IsOk result) (λ end. result ≡ Err end) }
    ensures there { OnOk result (IsPlaced store.old store.new chain.now capsule.now) }
    ensures err { OnErr result (store.new ≡ store.old) }
{
    let _bare = store.pages();
    let _level = chain.len();
    if capsule.store.pages() != chain.pages(store) {
        return Err(PlaceEnd::Pages);
    }
    if !apart(store, chain) {
        return Err(PlaceEnd::Apart);
    }
    let hosts = find_hosts(store, chain)?;
    let block = chain.last_block().unwrap();
    write_pages(store, &hosts, &capsule.store);
    write_regs(store, block, &capsule.regs);
    Ok(())
}

// The bare pages in which the chain's machine writes its pages, or the first page that it can't write.
fn find_hosts(store: &Store, chain: &Chain) -> Result<[u32; PAGES as usize], PlaceEnd>
    requires pages { length (map_along store.now chain.now) ≤ pages_limit }
    ensures shut { MatchOption (first_shut (map_along store.now chain.now)) (IsOk result) (λ page. result ≡ Err (PlaceEnd.Shut page)) }
    ensures hosts { IfOk result (AreHosts (page_count store.now) (map_along store.now chain.now)) }
{
    let mut hosts = [0; PAGES as usize];
    for page in 0..chain.pages(store) {
        let Some(host) = written_at(store, chain, page) else {
            return Err(PlaceEnd::Shut { page });
        };
        hosts[page as usize] = host;
    }
    Ok(hosts)
}

// The bare page in which the chain's machine writes its page `page`; none where it can't write it.
fn written_at(store: &Store, chain: &Chain, page: u32) -> Option<u32>
    requires { page < length (map_along store.now chain.now) }
    ensures page { result ≡ written_in (map_along store.now chain.now) page }
    ensures bound { IfSome result (λ g. g < page_count store.now) }
{
    match page_slot(store, chain, page).write {
        Way::Open { host } => Some(host),
        Way::Shut { .. } => None,
    }
}

// Writes the pages of a copy into different bare pages.
fn write_pages(store: &mut Store, hosts: &[u32; PAGES as usize], copy: &Store)
    requires differ { DifferAll (page_count copy.now) hosts.now }
    requires within { (i : ℕ) → i < page_count copy.now → slice_index hosts.now i < page_count store.old }
    ensures { AreWritten store.old store.new hosts.now copy.now (page_count copy.now) }
{
    let _pages = store.pages();
    for page in 0..copy.pages() {
        put_words(
            store,
            1024 * hosts[page as usize],
            copy.row(1024 * page, 1024),
        );
    }
}

// Writes the words of registers into the block in bare page `block`.
#[tactic(auto, using(crate::proofs::Edits::put_spelled))]
fn write_regs(store: &mut Store, block: u32, words: &[u32; 50])
    requires { block < page_count store.old }
    ensures { store.new ≡ put_regs store.old block (regs_of_words words.now) }
{
    let _pages = store.pages();
    let at = 1024 * block;
    put_words(store, at, &words[..49]);
    store.put(at + 64, words[49]);
}

// Writes the words from a place of the storage on.
#[tactic(auto, using(crate::proofs::Edits::edits))]
fn put_words(store: &mut Store, at: u32, words: &[u32])
    requires { at + length words.now ≤ length store.old }
    ensures { store.new ≡ sets store.old at words.now }
{
    let _pages = store.pages();
    let mut place = at;
    for word in words {
        store.put(place, *word);
        place += 1;
    }
}
