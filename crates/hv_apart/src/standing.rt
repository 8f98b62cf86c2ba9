//! Whether the bare pages that a machine stands on are all different.

ghost use Rattle.std.specs.Prelude.{◌≡◌, ◌≤◌, ◌^◌, ◌++◌, Some, length, map};
ghost use Rattle.hv_word.specs.Storage.{page_count};
ghost use Rattle.hv_store.specs.Access.{identity};
ghost use Rattle.hv_map.specs.Apart.{blocks_of, directory_of, is_apart, is_one, open_pages, standing_on, tables_along, tables_of};
ghost use Rattle.hv_map.specs.Chain.{map_along, pin_of};
ghost use Rattle.hv_map.specs.Links.{syllable_of};
ghost use Rattle.hv_apart.specs.Added.{Added, Tells};
ghost use Rattle.hv_apart.specs.Table.{item_of_chain};

use crate::marks::Marks;
use crate::pages::{directory, prefix, table_page, table_pages};
use hv_map::{Chain, ChainItem, TableCache};
use hv_store::Store;

/// Whether the pages that the last machine of a chain can read lie in different bare pages. It takes no memory.
pub fn one_to_one(store: &Store, chain: &Chain) -> bool
    ensures { result ≡ is_one store.now chain.now }
{
    let mut marks = Marks::new();
    add_pages(&mut marks, store, chain);
    marks.distinct
}

/// Whether the bare pages on which the last machine of a chain stands are all different: the blocks of the machines on the
/// chain, their tables and directories as far as their parents can read them, and the pages that the machine can read. The
/// chain is the store's: `pin` of its path gives it. It takes no memory.
pub fn apart(store: &Store, chain: &Chain) -> bool
    requires { pin_of store.now (map syllable_of chain.now) ≡ Some chain.now }
    ensures { result ≡ is_apart store.now chain.now }
{
    standing_pages(store, chain).distinct
}

/// Those bare pages; it takes no memory.
pub fn standing_pages(store: &Store, chain: &Chain) -> Marks
    requires { pin_of store.now (map syllable_of chain.now) ≡ Some chain.now }
    ensures { Tells result (standing_on store.now chain.now) }
{
    let mut marks = Marks::new();
    add_blocks(&mut marks, store, chain);
    add_tables(&mut marks, store, chain);
    add_pages(&mut marks, store, chain);
    marks
}

/// Adds those that are there for no block: the tables and directories as far as they can be read, and the pages that the
/// machine can read.
pub fn add_readable(marks: &mut Marks, store: &Store, chain: &Chain)
    requires { pin_of store.now (map syllable_of chain.now) ≡ Some chain.now }
    ensures { Added marks.old marks.new (tables_along store.now (identity (page_count store.now)) 0 chain.now ++ open_pages (map_along store.now chain.now)) }
{
    add_tables(marks, store, chain);
    add_pages(marks, store, chain);
}

// The blocks of the machines on the chain.
fn add_blocks(marks: &mut Marks, store: &Store, chain: &Chain)
    requires { pin_of store.now (map syllable_of chain.now) ≡ Some chain.now }
    ensures { Added marks.old marks.new (blocks_of chain.now) }
{
    let _pages = store.pages();
    for i in 0..chain.len() {
        marks.add(chain.item(i).block);
    }
}

// Their directories and tables.
fn add_tables(marks: &mut Marks, store: &Store, chain: &Chain)
    requires { pin_of store.now (map syllable_of chain.now) ≡ Some chain.now }
    ensures { Added marks.old marks.new (tables_along store.now (identity (page_count store.now)) 0 chain.now) }
{
    for level in 0..chain.len() {
        let parent = prefix(store, chain, level);
        add_tables_of(marks, store, &parent, chain.item(level));
    }
}

// The directory and the tables of a child of the chain's machine.
fn add_tables_of(marks: &mut Marks, store: &Store, chain: &Chain, child: ChainItem)
    requires { child.pages ≤ 2 ^ 20 }
    ensures { Added marks.old marks.new (directory_of (map_along store.now chain.now) (item_of_chain child) ++ tables_of store.now (map_along store.now chain.now) (length chain.now) (item_of_chain child)) }
{
    let _pages = store.pages();
    let mut cache = TableCache::new();
    marks.add_found(directory(&mut cache, store, chain, child));
    for k in 0..table_pages(child.pages) {
        marks.add_found(table_page(&mut cache, store, chain, child, 1024 * k));
    }
}

// The pages that the chain's machine can read.
fn add_pages(marks: &mut Marks, store: &Store, chain: &Chain)
    ensures { Added marks.old marks.new (open_pages (map_along store.now chain.now)) }
{
    let _pages = store.pages();
    let mut cache = TableCache::new();
    for page in 0..chain.pages(store) {
        marks.add_found(cache.read(store, chain, u64::from(page)));
    }
}
