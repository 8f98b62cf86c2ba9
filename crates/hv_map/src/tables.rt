//! Where many pages of one machine are read: each page of the tables on the way is found once.

ghost use Rattle.std.specs.Prelude.{◌≡◌, ◌*◌, ◌/◌, ◌<◌, ◌≤◌, ℕ, IfSome, List, length};
ghost use Rattle.std.specs.Option.{option_to_list};
ghost use Rattle.hv_limits.specs.Limits.{depth_limit};
ghost use Rattle.hv_word.specs.Storage.{page_count, word_at};
ghost use Rattle.hv_map.specs.Apart.{open_page_if};
ghost use Rattle.hv_map.specs.Chain.{map_along};
ghost use Rattle.hv_map.specs.Compose.{reading};
ghost use Rattle.hv_map.specs.Item.{Item};
ghost use Rattle.hv_map.specs.Levels.{map_at, table_at};
ghost use Rattle.hv_map.specs.Tables.{IsCacheOf, IsTablePage, if_present, named};

use crate::chain::{Chain, Link};
use crate::lookup::pages_at;
use hv_block::block_word;
use hv_limits::DEPTH;
use hv_store::Store;
use hv_word::field;

// How many pages of each machine's table are kept: all those of a machine with 16384 pages.
const KEPT: usize = 16;

// How many that is for all machines of a chain.
const PLACES: usize = KEPT * DEPTH;

// Page `number` of a machine's table: the bare page in which the parent reads it, none where it can't.
#[derive(Clone, Copy)]
struct TablePage {
    number: u32,
    host: Option<u32>,
}

/// The bare pages of the tables of the machines on a chain, as far as they were found and kept. It serves one chain, as long
/// as the words of the store stay.
#[derive(Drop)]
pub struct TableCache {
    pages: [Option<TablePage>; PLACES],
}

impl TableCache {
    /// A cache that keeps nothing, for any chain.
    pub fn new() -> TableCache
        ensures { (S : List ℕ) (items : List Item) → IsCacheOf S items result }
    {
        TableCache {
            pages: [None; PLACES],
        }
    }

    /// The bare page in which the chain's machine reads its page `page`; none where it has no such page or can't read it. With
    /// the tables kept it takes one table word for each machine of the chain.
    #[tactic(auto, using(crate::proofs::Levels::chains))]
    pub fn read(&mut self, store: &Store, chain: &Chain, page: u64) -> Option<u32>
        requires { IsCacheOf store.now chain.now self.old }
        ensures page { option_to_list result ≡ open_page_if (reading (map_along store.now chain.now) page) }
        ensures bound { IfSome result (λ g. g < page_count store.now) }
        ensures cache { IsCacheOf store.now chain.now self.new }
    {
        self.read_at(store, chain, chain.len(), page)
    }

    // The same for the machine at a level of the chain.
    #[cycle(reading)]
    #[tactic(auto, using(crate::proofs::Levels::levels))]
    fn read_at(&mut self, store: &Store, chain: &Chain, level: u32, page: u64) -> Option<u32>
        requires level { level ≤ length chain.now }
        requires cache { IsCacheOf store.now chain.now self.old }
        ensures page { option_to_list result ≡ open_page_if (reading (map_at store.now chain.now level) page) }
        ensures bound { IfSome result (λ g. g < page_count store.now) }
        ensures cache { IsCacheOf store.now chain.now self.new }
    {
        if page >= u64::from(pages_at(store, chain, level)) {
            return None;
        }
        if level == 0 {
            return Some(page as u32);
        }
        let table = self.table(store, chain, level - 1, page as u32 / 1024)?;
        let entry = present_word(store, table, page as u32 % 1024)?;
        self.read_at(store, chain, level - 1, u64::from(field::<12, 20>(entry)))
    }

    // The bare page of page `number` of the table of machine `level` of the chain, counted from 0.
    #[cycle(reading)]
    fn table(&mut self, store: &Store, chain: &Chain, level: u32, number: u32) -> Option<u32>
        requires level { level < length chain.now }
        requires number { number < 1024 }
        requires cache { IsCacheOf store.now chain.now self.old }
        ensures page { IsTablePage store.now chain.now level number result }
        ensures cache { IsCacheOf store.now chain.now self.new }
    {
        let _length = chain.len();
        match self.kept(level, number) {
            Some(host) => host,
            None => {
                let host = self.found_table(store, chain, level, number);
                self.keep(level, number, host);
                host
            }
        }
    }

    // The same without asking what is kept of it.
    #[cycle(reading)]
    fn found_table(&mut self, store: &Store, chain: &Chain, level: u32, number: u32) -> Option<u32>
        requires level { level < length chain.now }
        requires number { number < 1024 }
        requires cache { IsCacheOf store.now chain.now self.old }
        ensures page { IsTablePage store.now chain.now level number result }
        ensures cache { IsCacheOf store.now chain.now self.new }
    {
        let page = self.named_table(store, chain, level, chain.link(level), number)?;
        self.read_at(store, chain, level, page)
    }

    // The page of the machine at a level that is page `number` of its child's table: named by the child's directory, or
    // counted from its table.
    #[cycle(reading)]
    fn named_table(
        &mut self,
        store: &Store,
        chain: &Chain,
        level: u32,
        child: Link,
        number: u32,
    ) -> Option<u64>
        requires level { level < length chain.now }
        requires number { number < 1024 }
        requires cache { IsCacheOf store.now chain.now self.old }
        ensures page { result ≡ named (table_at store.now chain.now level child (1024 * number)) }
        ensures cache { IsCacheOf store.now chain.now self.new }
    {
        if child.version == 2 {
            let directory = self.read_at(store, chain, level, u64::from(child.table))?;
            let word = present_word(store, directory, number)?;
            Some(u64::from(field::<12, 20>(word)))
        } else {
            Some(u64::from(child.table) + u64::from(number))
        }
    }

    // What is kept of page `number` of the table of machine `level`.
    #[inline(always)]
    fn kept(&self, level: u32, number: u32) -> Option<Option<u32>>
        requires { level < depth_limit }
        ensures { (S : List ℕ) (items : List Item)
            → IsCacheOf S items self.now
            → IfSome result (λ host. IsTablePage S items level number host) }
    {
        let kept = self.pages[place(level, number)];
        match kept {
            Some(page) if page.number == number => Some(page.host),
            _ => None,
        }
    }

    // Keeps the bare page of page `number` of the table of machine `level`.
    fn keep(&mut self, level: u32, number: u32, host: Option<u32>)
        requires { level < depth_limit }
        ensures { (S : List ℕ) (items : List Item)
            → IsCacheOf S items self.old
            → IsTablePage S items level number host
            → IsCacheOf S items self.new }
    {
        self.pages[place(level, number)] = Some(TablePage { number, host });
    }
}

// Where page `number` of the table of machine `level` is kept.
#[inline(always)]
fn place(level: u32, number: u32) -> usize
    requires { level < depth_limit }
    ensures machine { result / 16 ≡ level }
    ensures inside { result < 16 * depth_limit }
{
    KEPT * level as usize + number as usize % KEPT
}

// A word of a bare page, if its bit 0 says that it is present.
#[inline(always)]
fn present_word(store: &Store, host: u32, word: u32) -> Option<u32>
    requires host { host < page_count store.now }
    requires word { word < 1024 }
    ensures { result ≡ if_present (word_at store.now host word) }
{
    let found = block_word(store, host, word);
    if found % 2 == 0 { None } else { Some(found) }
}
