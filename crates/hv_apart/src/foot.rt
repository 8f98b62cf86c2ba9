//! The places of the words that are a machine's own.

ghost use Rattle.std.specs.Prelude.{◌≡◌, ◌+◌, ◌*◌, ◌<◌, ◌≤◌, ◌^◌, IfOk, IfSome, List, Some, [], length, map, ℕ};
ghost use Rattle.std.specs.Option.{option_to_list};
ghost use Rattle.hv_word.specs.Storage.{page_count};
ghost use Rattle.hv_store.specs.Access.{identity};
ghost use Rattle.hv_map.specs.Chain.{map_along, pin_of};
ghost use Rattle.hv_map.specs.Links.{last_block, syllable_of};
ghost use Rattle.hv_map.specs.Tables.{IsCacheOf};
ghost use Rattle.hv_nest.specs.Watched.{but_lines, chain_foot, foot, item_foot, own_places, page_foot, standing_places};
ghost use Rattle.hv_apart.specs.Marked.{Joined, SetOf, is_marked};
ghost use Rattle.hv_apart.specs.Table.{item_of_chain, places_in, table_places};

use crate::bits::{clear, fill, is_set, set};
use crate::pages::{directory, prefix, table_page, table_pages};
use hv_map::{Chain, ChainItem, TableCache};
use hv_store::Store;
use std::alloc::{AllocError, Global};
use std::marker::Model;

/// The places of the words that no other machine may change, for one machine in a store as it was, a bit for each bare word:
/// the words that the machines on its chain, and the tables of those, are read from, those of its own control block, and all
/// words of the pages that it can read; but never word 42 of its block, which has its interrupt lines too.
#[derive(Drop)]
pub struct Footing {
    words: Vec<u32>,
}

impl Model for Footing {
    ghost use Rattle.std.specs.Prelude.{ℕ, List};

    ghost Value = { List ℕ };

    ghost view = { λ f. f.words.items };
}

impl Footing {
    /// Those of the last machine of a chain of the store: `pin` of its path gives the chain.
    pub fn new(alloc: Global, store: &Store, chain: &Chain) -> Result<Footing, AllocError>
        requires { pin_of store.now (map syllable_of chain.now) ≡ Some chain.now }
        ensures { IfOk result (λ f. SetOf f (foot store.now chain.now)) }
    {
        let mut words = vec![in alloc; 0; 32 * store.pages() as usize]?;
        put_foot(&mut words, store, chain);
        Ok(Footing { words })
    }

    /// Whether the word at a place, counted from 0, is one of them.
    pub fn holds(&self, at: u32) -> bool
        ensures { result ≡ is_marked self.now at }
    {
        is_set(&self.words, at)
    }
}

// Puts the machine's places into an empty set.
fn put_foot(words: &mut [u32], store: &Store, chain: &Chain)
    requires pinned { pin_of store.now (map syllable_of chain.now) ≡ Some chain.now }
    requires room { length words.old ≡ 32 * page_count store.now }
    ensures { SetOf words.old [] → SetOf words.new (foot store.now chain.now) }
{
    put_places(words, store, chain);
    drop_lines(words, store, chain);
}

// Puts the places of all words that the machine stands on into the set.
fn put_places(words: &mut [u32], store: &Store, chain: &Chain)
    requires pinned { pin_of store.now (map syllable_of chain.now) ≡ Some chain.now }
    requires room { length words.old ≡ 32 * page_count store.now }
    ensures { Joined words.old words.new (standing_places store.now chain.now) }
{
    put_items(words, store, chain);
    put_own(words, store, chain);
    put_pages(words, store, chain);
}

// Takes the word that has the machine's interrupt lines out of the set: a machine that sees its own block would bring it in.
fn drop_lines(words: &mut [u32], store: &Store, chain: &Chain)
    requires pinned { pin_of store.now (map syllable_of chain.now) ≡ Some chain.now }
    requires room { length words.old ≡ 32 * page_count store.now }
    ensures { (xs : List ℕ) → SetOf words.old xs → SetOf words.new (but_lines (last_block chain.now) xs) }
{
    let _pages = store.pages();
    let Some(block) = chain.last_block() else {
        return;
    };
    clear(words, 1024 * block + 42);
}

// The words that the maps along the chain are read from.
fn put_items(words: &mut [u32], store: &Store, chain: &Chain)
    requires pinned { pin_of store.now (map syllable_of chain.now) ≡ Some chain.now }
    requires room { length words.old ≡ 32 * page_count store.now }
    ensures { Joined words.old words.new (chain_foot store.now (identity (page_count store.now)) 0 chain.now) }
{
    for level in 0..chain.len() {
        let parent = prefix(store, chain, level);
        put_item(words, store, &parent, chain.item(level));
    }
}

// The same of one machine, a child of the chain's.
fn put_item(words: &mut [u32], store: &Store, chain: &Chain, child: ChainItem)
    requires block { child.block < page_count store.now }
    requires pages { child.pages ≤ 2 ^ 20 }
    requires room { length words.old ≡ 32 * page_count store.now }
    ensures { Joined words.old words.new (item_foot store.now (map_along store.now chain.now) (length chain.now) (item_of_chain child)) }
{
    let mut cache = TableCache::new();
    put_words(words, store, Some(child.block), 65, 3);
    let tables = table_pages(child.pages);
    let page = directory(&mut cache, store, chain, child);
    put_words(words, store, page, 0, tables);
    put_tables(words, &mut cache, store, chain, child);
}

// The table words of the pages of a child of the chain's machine.
fn put_tables(
    words: &mut [u32],
    cache: &mut TableCache,
    store: &Store,
    chain: &Chain,
    child: ChainItem,
)
    requires pages { child.pages ≤ 2 ^ 20 }
    requires room { length words.old ≡ 32 * page_count store.now }
    requires cache { IsCacheOf store.now chain.now cache.old }
    ensures { Joined words.old words.new (table_places store.now (map_along store.now chain.now) (length chain.now) (item_of_chain child) child.pages) }
{
    for k in 0..table_pages(child.pages) {
        let first = 1024 * k;
        let table = table_page(cache, store, chain, child, first);
        put_words(words, store, table, 0, (child.pages - first).min(1024));
    }
}

// The words of the last machine's registers in its control block, without word 42.
fn put_own(words: &mut [u32], store: &Store, chain: &Chain)
    requires pinned { pin_of store.now (map syllable_of chain.now) ≡ Some chain.now }
    requires room { length words.old ≡ 32 * page_count store.now }
    ensures { Joined words.old words.new (own_places (last_block chain.now)) }
{
    let block = chain.last_block();
    put_words(words, store, block, 0, 42);
    put_words(words, store, block, 43, 6);
    put_words(words, store, block, 64, 1);
}

// All words of the pages that the machine can read.
fn put_pages(words: &mut [u32], store: &Store, chain: &Chain)
    requires room { length words.old ≡ 32 * page_count store.now }
    ensures { Joined words.old words.new (page_foot (map_along store.now chain.now)) }
{
    let mut cache = TableCache::new();
    for page in 0..chain.pages(store) {
        let host = cache.read(store, chain, u64::from(page));
        put_page(words, store, host);
    }
}

// The places of all words of a bare page, if there is a page.
fn put_page(words: &mut [u32], store: &Store, page: Option<u32>)
    requires page { IfSome page (λ g. g < page_count store.now) }
    requires room { length words.old ≡ 32 * page_count store.now }
    ensures { Joined words.old words.new (places_in 0 1024 (option_to_list page)) }
{
    let _pages = store.pages();
    let Some(page) = page else {
        return;
    };
    for k in 0..32 {
        fill(words, 32 * page as usize + k);
    }
}

// The places of `count` words of a bare page, from word `from` on, if there is a page.
fn put_words(words: &mut [u32], store: &Store, page: Option<u32>, from: u32, count: u32)
    requires page { IfSome page (λ g. g < page_count store.now) }
    requires inside { from + count ≤ 1024 }
    requires room { length words.old ≡ 32 * page_count store.now }
    ensures { Joined words.old words.new (places_in from count (option_to_list page)) }
{
    let _pages = store.pages();
    let Some(page) = page else {
        return;
    };
    for k in 0..count {
        set(words, 1024 * page + (from + k));
    }
}
