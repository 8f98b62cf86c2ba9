//! The storage that a machine sees.

ghost use Rattle.std.specs.Prelude.{◌≡◌, ◌*◌, ◌+◌, ◌<◌, ◌≤◌, IfOk, Some, length, map};
ghost use Rattle.std.proofs.lemmas.List.Edits.{sets};
ghost use Rattle.hv_limits.specs.Limits.{pages_limit};
ghost use Rattle.hv_word.specs.Storage.{page_count};
ghost use Rattle.hv_map.specs.Chain.{map_along, pin_of};
ghost use Rattle.hv_map.specs.Links.{syllable_of};
ghost use Rattle.hv_map.specs.Seen.{seen as seen_of, words_of};
ghost use Rattle.hv_store.specs.declared.access.Way.TheVariants.{Open};

use hv_block::block_word;
use hv_map::{Chain, Way, page_slot};
use hv_store::Store;
use std::alloc::{AllocError, Global};

/// The pages of the last machine of a chain, as a storage of its own: each page is a copy of the one that the machine reads
/// there, and zero where it can't be read. The chain is the store's, and its machine has no more pages than a storage can
/// have.
pub fn seen(alloc: Global, store: &Store, chain: &Chain) -> Result<Store, AllocError>
    requires pinned { pin_of store.now (map syllable_of chain.now) ≡ Some chain.now }
    requires pages { length (map_along store.now chain.now) ≤ pages_limit }
    ensures { IfOk result (λ new. new ≡ seen_of store.now (map_along store.now chain.now)) }
{
    // The bare machine has a page, and so has each machine with a block.
    let _bare = store.pages();
    let pages = chain.pages(store);
    let mut copy = Store::new(alloc, pages)?;
    for page in 0..pages {
        if let Way::Open { host } = page_slot(store, chain, page).read {
            copy_page(store, host, &mut copy, page);
        }
    }
    Ok(copy)
}

// Copies bare page `host` to page `page` of a copy.
fn copy_page(store: &Store, host: u32, copy: &mut Store, page: u32)
    requires host { host < page_count store.now }
    requires page { 1024 * page + 1024 ≤ length copy.old }
    ensures { copy.new ≡ sets copy.old (1024 * page) (words_of store.now 1024 (Open host)) }
{
    let _pages = copy.pages();
    for word in 0..1024 {
        copy.put(1024 * page + word, block_word(store, host, word));
    }
}
