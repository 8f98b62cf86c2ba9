//! Making a machine of version 0 one of version 2, with a directory before its table.

ghost use Rattle.std.specs.Prelude.{◌≡◌, ◌+◌, ◌<◌, ◌≤◌, ◌^◌, Err, IfOk, IfSome, IsOk, MatchOption, None, OnErr, OnOk, Some, length, map, slice_index};
ghost use Rattle.hv_word.specs.Storage.{page_count};
ghost use Rattle.hv_map.specs.Apart.{table_pages as table_pages_of};
ghost use Rattle.hv_map.specs.Chain.{map_along, pin_of};
ghost use Rattle.hv_map.specs.Links.{syllable_of};
ghost use Rattle.hv_apart.specs.Plan.{FitsStore, IsPlanOf, IsPlanned};
ghost use Rattle.hv_apart.specs.Table.{item_of_chain};
ghost use Rattle.hv_apart.specs.Upgrade.{Stays, directory_word as directory_word_of, first_shut, last_item, leaves_parent as leaves_parent_of, parent_map, rewritten, upgrade_refusal, upgraded, with_directory_words, with_fetch as with_fetch_of, with_fetchable_table};

use crate::pages::{prefix, table_pages, written_at};
use crate::standing::standing_pages;
use hv_map::{Chain, ChainItem};
use hv_store::Store;
use hv_word::field_set;

/// Why a machine isn't upgraded.
#[derive(Clone, Copy, Debug, PartialEq, Eq)]
pub enum UpgradeEnd {
    /// Its block has version 2 already.
    Version,
    /// The bare pages on which it stands aren't all different.
    Apart,
    /// The directory's page or a page of the table isn't one of its parent's.
    Outside,
    /// This page of its parent, the first of the directory's and those of the table, can't be written.
    Shut { page: u32 },
    /// It stands on the directory's bare page already.
    Overlap,
}

/// Upgrades the last machine of a chain from version 0 to version 2, with its directory on page `dir` of its parent, and keeps
/// its map as it is. It is refused by the first reason of version, apart, outside, shut and overlap; nothing has changed then.
/// The chain is the store's, `pin` of its path gives it, and isn't empty. It takes no memory.
pub fn upgrade(store: &mut Store, chain: &Chain, dir: u32) -> Result<(), UpgradeEnd>
    requires pinned { pin_of store.old (map syllable_of chain.now) ≡ Some chain.now }
    requires inside { 0 < length chain.now }
    ensures refused { MatchOption (upgrade_refusal store.old chain.now dir) (IsOk result) (λ end. result ≡ Err end) }
    ensures ok { OnOk result (store.new ≡ upgraded store.old chain.now dir) }
    ensures stays { OnOk result (IfSome (last_item chain.now) (λ x. Stays store.old store.new (parent_map store.old chain.now) x dir)) }
    ensures err { OnErr result (store.new ≡ store.old) }
{
    let plan = ready(store, chain, dir)?;
    plan.write(store, dir);
    Ok(())
}

// What an upgrade writes, or why it is refused.
fn ready(store: &Store, chain: &Chain, dir: u32) -> Result<Plan, UpgradeEnd>
    requires pinned { pin_of store.now (map syllable_of chain.now) ≡ Some chain.now }
    requires inside { 0 < length chain.now }
    ensures refused { MatchOption (upgrade_refusal store.now chain.now dir) (IsOk result) (λ end. result ≡ Err end) }
    ensures plan { IfOk result (IsPlanned store.now chain.now dir) }
{
    let level = chain.len() - 1;
    let child = chain.item(level);
    if child.version == 2 {
        return Err(UpgradeEnd::Version);
    }
    let marks = standing_pages(store, chain);
    if !marks.distinct {
        return Err(UpgradeEnd::Apart);
    }
    let parent = prefix(store, chain, level);
    if leaves_parent(parent.pages(store), child, dir) {
        return Err(UpgradeEnd::Outside);
    }
    let plan = Plan::find(store, &parent, child, dir)?;
    if marks.has(plan.directory) {
        return Err(UpgradeEnd::Overlap);
    }
    Ok(plan)
}

// Whether the directory's page or a page of the table isn't one of so many pages.
fn leaves_parent(pages: u32, child: ChainItem, dir: u32) -> bool
    requires { child.pages ≤ 2 ^ 20 }
    ensures { result ≡ leaves_parent_of pages (item_of_chain child) dir }
{
    let end = u64::from(child.table) + u64::from(table_pages(child.pages));
    pages <= dir || u64::from(pages) < end
}

// A machine that is upgraded, and the bare pages that are written: the directory's, and those of the table, of which there are
// as many as its pages take.
#[derive(Drop)]
struct Plan {
    child: ChainItem,
    directory: u32,
    tables: [u32; 1024],
}

impl Plan {
    // Finds the bare pages, or the first page of the parent that can't be written.
    fn find(store: &Store, parent: &Chain, child: ChainItem, dir: u32) -> Result<Plan, UpgradeEnd>
        requires pages { child.pages ≤ 2 ^ 20 }
        requires directory { dir < length (map_along store.now parent.now) }
        requires tables { child.table + table_pages_of child.pages ≤ length (map_along store.now parent.now) }
        ensures shut { MatchOption (first_shut (map_along store.now parent.now) (item_of_chain child) dir) (IsOk result) (λ page. result ≡ Err (UpgradeEnd.Shut page)) }
        ensures child { IfOk result (λ p. p.child ≡ child) }
        ensures plan { IfOk result (IsPlanOf (map_along store.now parent.now) dir) }
    {
        // The parent has at most 2^20 pages.
        let _pages = parent.pages(store);
        let Some(directory) = written_at(store, parent, dir) else {
            return Err(UpgradeEnd::Shut { page: dir });
        };
        let mut tables = [0; 1024];
        for k in 0..table_pages(child.pages) {
            let page = child.table + k;
            let Some(host) = written_at(store, parent, page) else {
                return Err(UpgradeEnd::Shut { page });
            };
            tables[k as usize] = host;
        }
        Ok(Plan {
            child,
            directory,
            tables,
        })
    }

    // Writes the directory, the table and the block.
    fn write(&self, store: &mut Store, dir: u32)
        requires { FitsStore store.old self.now }
        ensures { store.new ≡ rewritten store.old (item_of_chain self.now.child) dir self.now.directory (slice_index self.now.tables) }
    {
        self.write_directory(store);
        self.write_table(store);
        // The store has few enough pages for the places to fit.
        let _pages = store.pages();
        let at = 1024 * self.child.block;
        store.put(at + 66, dir);
        store.put(at + 67, 2);
    }

    // Writes the directory.
    fn write_directory(&self, store: &mut Store)
        requires { FitsStore store.old self.now }
        ensures written { store.new ≡ with_directory_words store.old self.now.directory self.now.child.table (table_pages_of self.now.child.pages) }
        ensures len { length store.new ≡ length store.old }
    {
        let _pages = store.pages();
        let tables = table_pages(self.child.pages);
        for word in 0..1024 {
            store.put(
                1024 * self.directory + word,
                directory_word(self.child.table, tables, word),
            );
        }
    }

    // Lets the machine's pages be fetched, as far as their table words are present.
    fn write_table(&self, store: &mut Store)
        requires { FitsStore store.old self.now }
        ensures written { store.new ≡ with_fetchable_table store.old (slice_index self.now.tables) self.now.child.pages }
        ensures len { length store.new ≡ length store.old }
    {
        let _pages = store.pages();
        for page in 0..self.child.pages {
            let at = 1024 * self.tables[page as usize / 1024] + page % 1024;
            store.put(at, with_fetch(store.get(at)));
        }
    }
}

// Word `word` of the directory of a table of so many pages.
fn directory_word(table: u32, tables: u32, word: u32) -> u32
    requires { table + tables ≤ 2 ^ 20 }
    ensures { result ≡ directory_word_of table tables word }
{
    if word < tables {
        (table + word) * 4096 + 1
    } else {
        0
    }
}

// A table word that lets its page be fetched, where it is present.
fn with_fetch(word: u32) -> u32
    ensures { result ≡ with_fetch_of word }
{
    if word % 2 == 0 {
        word
    } else {
        field_set::<2, 1>(word, 1)
    }
}
