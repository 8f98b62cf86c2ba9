//! Where the pages and the words of a machine lie in the storage.

ghost use Rattle.std.specs.Prelude.{◌≡◌, ◌*◌, ◌+◌, ◌-◌, ◌/◌, ◌%◌, ◌<◌, ◌≤◌, ◌^◌, ℕ, IfOk, IfSome, Some, length, slice_get};
ghost use Rattle.hv_word.specs.Storage.{page_count};
ghost use Rattle.hv_map.specs.Chain.{map_along, map_of};
ghost use Rattle.hv_map.specs.Levels.{IsWayWithin, IsSlotWithin};
ghost use Rattle.hv_map.specs.Compose.{reading, table_of};
ghost use Rattle.hv_load.specs.Pages.{block_page as block_page_of, opened as opened_by, outer as outer_of, page_named, reads_in, table_word_of, word_named, writes_in};

use crate::ends::BuildKind;
use crate::parts::outer;
use hv_block::{Block, block_word};
use hv_map::{Chain, Found, Path, Slot, Way, child, page_slot, pin};
use hv_store::Store;
use hv_word::field;

// The slot of a page of the chain's machine, none where it has no such page.
fn slot(store: &Store, chain: &Chain, page: u64) -> Option<Slot>
    ensures slot { result ≡ slice_get (map_along store.now chain.now) page }
    ensures within { IfSome result (λ s. IsSlotWithin (page_count store.now) (length chain.now) s) }
{
    if page >= u64::from(chain.pages(store)) {
        return None;
    }
    Some(page_slot(store, chain, page as u32))
}

// The bare page that a way opens.
fn opened(way: Way) -> Result<u32, BuildKind>
    ensures opened { result ≡ opened_by way }
    ensures within { (P k : ℕ) → IsWayWithin P k way → IfOk result (λ g. g < P) }
{
    match way {
        Way::Open { host } => Ok(host),
        Way::Shut { .. } => Err(BuildKind::Absent),
    }
}

/// The bare page in which the chain's machine reads its page.
pub(crate) fn reads(store: &Store, chain: &Chain, page: u64) -> Result<u32, BuildKind>
    ensures page { result ≡ reads_in (Some (map_along store.now chain.now)) page }
    ensures within { IfOk result (λ g. g < page_count store.now) }
{
    match slot(store, chain, page) {
        Some(slot) => opened(slot.read),
        None => Err(BuildKind::Absent),
    }
}

/// The bare page in which the chain's machine writes its page.
pub(crate) fn writes(store: &Store, chain: &Chain, page: u64) -> Result<u32, BuildKind>
    ensures page { result ≡ writes_in (Some (map_along store.now chain.now)) page }
    ensures within { IfOk result (λ g. g < page_count store.now) }
{
    match slot(store, chain, page) {
        Some(slot) => opened(slot.write),
        None => Err(BuildKind::Absent),
    }
}

// The parent's page that has a machine's block.
fn block_page(path: &Path) -> u32
    requires { 1 ≤ length path.now }
    ensures { result ≡ block_page_of path.now }
{
    path.at(path.len() - 1)
}

/// The bare page in which a machine's parent reads the page of the machine's block.
pub(crate) fn block_of(store: &Store, path: &Path) -> Result<u32, BuildKind>
    requires { 1 ≤ length path.now }
    ensures page { result ≡ reads_in (map_of store.now (outer_of path.now)) (block_page_of path.now) }
    ensures within { IfOk result (λ g. g < page_count store.now) }
{
    match pin(store, &outer(path)) {
        Some(chain) => reads(store, &chain, u64::from(block_page(path))),
        None => Err(BuildKind::Absent),
    }
}

/// The bare page in which a machine's parent writes its page.
pub(crate) fn parent_writes(store: &Store, path: &Path, page: u32) -> Result<u32, BuildKind>
    requires { 1 ≤ length path.now }
    ensures page { result ≡ writes_in (map_of store.now (outer_of path.now)) page }
    ensures within { IfOk result (λ g. g < page_count store.now) }
{
    match pin(store, &outer(path)) {
        Some(chain) => writes(store, &chain, u64::from(page)),
        None => Err(BuildKind::Absent),
    }
}

/// The bare place of the word of page `page` in a machine's table.
pub(crate) fn table_word(store: &Store, path: &Path, page: u32) -> Result<u32, BuildKind>
    requires path { 1 ≤ length path.now }
    requires page { page < 2 ^ 20 }
    ensures place { result ≡ table_word_of store.now path.now page }
    ensures within { IfOk result (λ place. place < length store.now) }
{
    let syllable = block_page(path);
    let Some(chain) = pin(store, &outer(path)) else {
        return Err(BuildKind::Absent);
    };
    if syllable >= chain.pages(store) {
        return Err(BuildKind::Absent);
    }
    match child(store, &chain, syllable) {
        Found::Child { block, .. } => word_of_child(store, &chain, &block, page),
        Found::Malformed { .. } | Found::Refused(_) => Err(BuildKind::Absent),
    }
}

// The same where the block is found, and its parent's chain is given.
fn word_of_child(store: &Store, chain: &Chain, block: &Block, page: u32) -> Result<u32, BuildKind>
    requires { page < 2 ^ 20 }
    ensures place { result ≡ word_named (map_along store.now chain.now) page
        (table_of store.now (reading (map_along store.now chain.now)) (length chain.now) block.now.table block.now.version page) }
    ensures within { IfOk result (λ place. place < length store.now) }
{
    let table = table_page(store, chain, block, page)?;
    let host = reads(store, chain, table)?;
    Ok(place(store, host, page % 1024))
}

// The page of the chain's machine that has the table word of its child's page.
fn table_page(store: &Store, chain: &Chain, block: &Block, page: u32) -> Result<u64, BuildKind>
    requires { page < 2 ^ 20 }
    ensures { result ≡ page_named
        (table_of store.now (reading (map_along store.now chain.now)) (length chain.now) block.now.table block.now.version page) }
{
    if block.version != 2 {
        return Ok(u64::from(block.table) + u64::from(page / 1024));
    }
    let host = reads(store, chain, u64::from(block.table))?;
    let word = block_word(store, host, page / 1024);
    if word % 2 == 0 {
        return Err(BuildKind::Absent);
    }
    Ok(u64::from(field::<12, 20>(word)))
}

/// The place of a word of a bare page.
pub(crate) fn place(store: &Store, host: u32, word: u32) -> u32
    requires page { host < page_count store.now }
    requires word { word < 1024 }
    ensures place { result ≡ 1024 * host + word }
    ensures within { result < length store.now }
{
    // The store has few enough pages for the place to fit.
    let _pages = store.pages();
    1024 * host + word
}
