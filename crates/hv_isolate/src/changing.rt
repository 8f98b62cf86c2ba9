//! Whether the steps of one machine may change what another one stands on.

ghost use Rattle.std.specs.Prelude.{◌≡◌, Some, false, map};
ghost use Rattle.std.specs.List.{list_any};
ghost use Rattle.hv_map.specs.Apart.{blocks_of};
ghost use Rattle.hv_map.specs.Chain.{map_along, pin_of};
ghost use Rattle.hv_map.specs.Links.{syllable_of};
ghost use Rattle.hv_apart.specs.Added.{Tells};
ghost use Rattle.hv_apart.specs.Marked.{is_marked};
ghost use Rattle.hv_isolate.specs.May.{is_may, own_pages, written_pages};
ghost use Rattle.hv_isolate.specs.Untouched.{IsUntouched};

use hv_apart::{Marks, add_readable, standing_pages};
use hv_map::{Chain, Way, page_slot};
use hv_store::Store;

/// Whether a step of the last machine of chain `a` may change what the last machine of chain `b` stands on: it can write one
/// of those bare pages, or the block of a machine on its chain lies in the page of b's own block, of a readable table or
/// directory on b's chain, or of a readable page of b. Both chains are the store's. It takes no memory.
pub fn may(store: &Store, a: &Chain, b: &Chain) -> bool
    requires first { pin_of store.now (map syllable_of a.now) ≡ Some a.now }
    requires second { pin_of store.now (map syllable_of b.now) ≡ Some b.now }
    ensures yes { result ≡ is_may store.now a.now b.now }
    ensures untouched { result ≡ false → IsUntouched store.now a.now b.now }
{
    let foot = standing_pages(store, b);
    let own = own_marks(store, b);
    let writes = writes_into(store, a, &foot);
    let has_block = has_block_in(store, a, &own);
    writes | has_block
}

// The bare page of the machine's own block, and those of its readable tables, directories and pages.
fn own_marks(store: &Store, chain: &Chain) -> Marks
    requires { pin_of store.now (map syllable_of chain.now) ≡ Some chain.now }
    ensures { Tells result (own_pages store.now chain.now) }
{
    let _pages = store.pages();
    let mut marks = Marks::new();
    marks.add_found(chain.last_block());
    add_readable(&mut marks, store, chain);
    marks
}

// Whether the chain's machine can write a page that is marked.
fn writes_into(store: &Store, chain: &Chain, marks: &Marks) -> bool
    ensures { result ≡ list_any (is_marked marks.now.words) (written_pages (map_along store.now chain.now)) }
{
    let mut found = false;
    for page in 0..chain.pages(store) {
        if let Way::Open { host } = page_slot(store, chain, page).write {
            found |= marks.has(host);
        }
    }
    found
}

// Whether the block of a machine on the chain lies in a page that is marked.
fn has_block_in(store: &Store, chain: &Chain, marks: &Marks) -> bool
    ensures { result ≡ list_any (is_marked marks.now.words) (blocks_of chain.now) }
{
    let _pages = store.pages();
    let mut found = false;
    for level in 0..chain.len() {
        found |= marks.has(chain.item(level).block);
    }
    found
}
