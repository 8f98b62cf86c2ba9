//! Marks on the bare pages on which something rests that is kept beside the storage.

ghost use Rattle.std.specs.Prelude.{◌≡◌, ℕ, ◌<◌, ◌≤◌, ◌++◌, ◌∷◌, [], All, IfOk, if◌then◌else◌, true, length, nat_lt, slice_index, vec_capacity};
ghost use Rattle.std.specs.List.{list_all};
ghost use Rattle.hv_limits.specs.Limits.{pages_limit};
ghost use Rattle.hv_word.specs.Words.{has};
ghost use Rattle.hv_map.specs.Held.{Lists};
ghost use Rattle.hv_fast.specs.Marked.{BlocksIn, IsMore, has_mark, listed};
ghost use Rattle.hv_fast.specs.Marking.{no_marks, with_table, with_block, with_tables};

use hv_limits::PAGES;
use hv_map::Chain;
use std::alloc::{AllocError, Global};
use std::marker::Model;

// The bits of a page's kind: a page of tables or directories, and a page of control blocks.
const TABLE: u8 = 1;

const BLOCK: u8 = 2;

/// The pages that are marked, below PAGES, each list in the order of marking. Nothing takes memory once it is made.
#[derive(Drop)]
pub(crate) struct Marks {
    kinds: Vec<u8>,
    tables: Vec<u32>,
    blocks: Vec<u32>,
}

impl Model for Marks {
    ghost use Rattle.std.specs.Prelude.{◌≤◌, vec_capacity};
    ghost use Rattle.hv_limits.specs.Limits.{pages_limit};
    ghost use Rattle.hv_fast.specs.Marked.{Marked};
    ghost use Rattle.hv_fast.specs.Marking.{IsKinds};

    ghost Value = { Marked };

    ghost view = { λ m. record { tables = m.tables.items; blocks = m.blocks.items } };

    ghost invariant = { λ m. IsKinds m.kinds.items m.tables.items m.blocks.items
        × (pages_limit ≤ vec_capacity m.tables)
        × (pages_limit ≤ vec_capacity m.blocks) };
}

impl Marks {
    /// No page is marked.
    pub(crate) fn new(alloc: Global) -> Result<Marks, AllocError>
        ensures { IfOk result (λ m. m ≡ no_marks) }
    {
        let kinds = zeros(alloc, PAGES as usize)?;
        let tables = Vec::with_capacity(alloc, PAGES as usize)?;
        let blocks = Vec::with_capacity(alloc, PAGES as usize)?;
        Ok(Marks {
            kinds,
            tables,
            blocks,
        })
    }

    /// Whether something rests on a page.
    #[inline(always)]
    pub(crate) fn has_mark(&self, page: u32) -> bool
        ensures { result ≡ has_mark self.now page }
    {
        page < PAGES && self.kinds[page as usize] != 0
    }

    /// Whether a page is marked as one of tables or directories.
    #[inline(always)]
    pub(crate) fn is_table(&self, page: u32) -> bool
        ensures { result ≡ has page self.now.tables }
    {
        page < PAGES && self.kinds[page as usize] & TABLE != 0
    }

    /// Marks a page as one of tables or directories.
    pub(crate) fn mark_table(&mut self, page: u32)
        requires { page < pages_limit }
        ensures marks { self.new ≡ with_table self.old page }
        ensures there { has page self.new.tables ≡ true }
        ensures more { IsMore self.old self.new }
    {
        let kind = self.kinds[page as usize];
        if kind & TABLE == 0 {
            self.kinds[page as usize] = kind | TABLE;
            push(&mut self.tables, page);
        }
    }

    /// Marks a page as one of control blocks.
    pub(crate) fn mark_block(&mut self, page: u32)
        requires { page < pages_limit }
        ensures marks { self.new ≡ with_block self.old page }
        ensures there { has page self.new.blocks ≡ true }
        ensures more { IsMore self.old self.new }
    {
        let kind = self.kinds[page as usize];
        if kind & BLOCK == 0 {
            self.kinds[page as usize] = kind | BLOCK;
            push(&mut self.blocks, page);
        }
    }

    /// Marks each of some pages as one of tables or directories.
    pub(crate) fn mark_tables(&mut self, pages: &[u32])
        requires { All (λ g. g < pages_limit) pages.now }
        ensures marks { self.new ≡ with_tables self.old pages.now }
        ensures there { Lists (listed self.new.tables) pages.now }
        ensures more { IsMore self.old self.new }
    {
        for page in pages {
            self.mark_table(*page);
        }
    }

    /// Marks what the machines of a chain are found by, where all of it can be marked: these pages of tables, and the blocks.
    pub(crate) fn mark_path(&mut self, chain: &Chain, tables: &[u32]) -> bool
        ensures more { IsMore self.old self.new }
        ensures tables { result ≡ true → Lists (listed self.new.tables) tables.now }
        ensures blocks { result ≡ true → BlocksIn self.new.blocks chain.now }
    {
        if !can_be_marked(tables) {
            return false;
        }
        self.mark_tables(tables);
        for i in 0..chain.len() {
            let block = chain.item(i).block;
            if block >= PAGES {
                return false;
            }
            self.mark_block(block);
        }
        true
    }

    /// Marks some pages of tables and some of control blocks, where all can be marked.
    pub(crate) fn mark_all(&mut self, tables: &[u32], blocks: &[u32]) -> bool
        ensures more { IsMore self.old self.new }
        ensures tables { result ≡ true → Lists (listed self.new.tables) tables.now }
        ensures blocks { result ≡ true → Lists (listed self.new.blocks) blocks.now }
    {
        if !can_be_marked(tables) || !can_be_marked(blocks) {
            return false;
        }
        self.mark_tables(tables);
        for page in blocks {
            self.mark_block(*page);
        }
        true
    }

    /// Takes all marks away, in time linear in how many pages are marked.
    pub(crate) fn clear(&mut self)
        ensures { self.new ≡ no_marks }
    {
        erase(&mut self.kinds, &self.tables);
        erase(&mut self.kinds, &self.blocks);
        self.tables.clear();
        self.blocks.clear();
    }
}

// Whether each of some pages can be marked.
fn can_be_marked(pages: &[u32]) -> bool
    ensures { result ≡ list_all (λ g. nat_lt g pages_limit) pages.now }
{
    pages.iter().all(|page| *page < PAGES)
}

// Some zeros.
fn zeros(alloc: Global, count: usize) -> Result<Vec<u8>, AllocError>
    ensures count { IfOk result (λ v. length v.items ≡ count) }
    ensures zero { IfOk result (λ v. (k : ℕ) → slice_index v.items k ≡ 0) }
{
    vec![in alloc; 0; count]
}

// Adds a page to a list that has room for it.
fn push(pages: &mut Vec<u32>, page: u32)
    requires { length pages.old.items < vec_capacity pages.old }
    ensures items { pages.new.items ≡ pages.old.items ++ page ∷ [] }
    ensures room { vec_capacity pages.old ≤ vec_capacity pages.new }
{
    let _ = pages.push(page);
}

// Makes the kinds of some pages 0.
fn erase(kinds: &mut [u8], pages: &[u32])
    requires { All (λ g. g < length kinds.old) pages.now }
    ensures { (g : ℕ) → slice_index kinds.new g ≡ (if has g pages.now then 0 else slice_index kinds.old g) }
{
    for page in pages {
        kinds[*page as usize] = 0;
    }
}
