//! A machine's block and its table as they are written at first.

ghost use Rattle.std.specs.Prelude.{◌≡◌, ◌+◌, ◌<◌, ◌≤◌, ◌^◌, ◌/◌, All, IfOk, Some, length};
ghost use Rattle.hv_word.specs.Storage.{page_count};
ghost use Rattle.hv_map.specs.Apart.{table_pages as table_pages_of};
ghost use Rattle.hv_map.specs.Chain.{map_along};
ghost use Rattle.hv_load.specs.Answers.{AnswersList};
ghost use Rattle.hv_load.specs.Directives.{is_outside as is_outside_of, pages_along};
ghost use Rattle.hv_load.specs.Making.{block_word as block_word_of, table_word as table_word_of, with_machine, with_page};
ghost use Rattle.hv_load.specs.Taking.{Took, taken_in};

use crate::ends::BuildKind;
use crate::finding::is_free;
use crate::pages::writes;
use crate::parts::{DirectiveEnd, Mark};
use hv_map::Chain;
use hv_store::Store;
use std::alloc::Global;

/// Where a machine lies in its parent's pages: its block, how many pages it has, where its table begins, and where its pages
/// do.
#[derive(Clone, Copy)]
pub(crate) struct Layout {
    pub(crate) block: u32,
    pub(crate) pages: u32,
    pub(crate) table: u32,
    pub(crate) at: u32,
}

impl Layout {
    /// Whether the block, a page of the table or a page of the machine is outside its parent's pages.
    pub(crate) fn is_outside(&self, limit: u32) -> bool
        ensures { result ≡ is_outside_of limit self.now.block self.now.pages self.now.table self.now.at }
    {
        let table_end = u64::from(self.table) + u64::from(table_pages(self.pages));
        let end = u64::from(self.at) + u64::from(self.pages);
        limit <= self.block || u64::from(limit) < table_end || u64::from(limit) < end
    }

    /// The bare pages of the block and of the table, as the chain's machine writes them.
    pub(crate) fn taken(
        &self,
        alloc: Global,
        store: &Store,
        chain: &Chain,
    ) -> Result<Vec<u32>, DirectiveEnd>
        ensures pages { AnswersList result
            (pages_along (Some (map_along store.now chain.now)) self.now.block self.now.pages self.now.table) }
        ensures within { IfOk result (λ pages. All (λ g. g < page_count store.now) pages.items) }
        ensures count { IfOk result (λ pages. length pages.items ≡ table_pages_of self.now.pages + 1) }
    {
        let count = table_pages(self.pages);
        let mut pages = Vec::new(alloc);
        pages.push(writes(store, chain, u64::from(self.block))?)?;
        for k in 0..count {
            pages.push(writes(store, chain, u64::from(self.table) + u64::from(k))?)?;
        }
        Ok(pages)
    }

    /// Writes the block into the first of these bare pages, and the table into the others.
    #[tactic(auto, using(crate::proofs::Writing::writing))]
    pub(crate) fn write(&self, store: &mut Store, taken: &[u32])
        requires within { All (λ g. g < page_count store.old) taken.now }
        requires entries { self.now.at + self.now.pages ≤ 2 ^ 20 }
        requires count { length taken.now ≤ 2 ^ 10 }
        ensures written { store.new ≡ with_machine store.old self.now.pages self.now.table self.now.at taken.now }
        ensures len { length store.new ≡ length store.old }
    {
        let Some((block, tables)) = taken.split_first() else {
            return;
        };
        self.write_block(store, *block);
        for (k, table) in tables.iter().enumerate() {
            self.write_table(store, *table, k as u32);
        }
    }

    // Writes the block into a bare page.
    #[tactic(auto, using(crate::proofs::Writing::writing))]
    fn write_block(&self, store: &mut Store, host: u32)
        requires { host < page_count store.old }
        ensures page { store.new ≡ with_page store.old host (block_word_of self.now.pages self.now.table) }
        ensures len { length store.new ≡ length store.old }
    {
        // The store has few enough pages for the places to fit.
        let _pages = store.pages();
        for word in 0..1024 {
            store.put(1024 * host + word, self.block_word(word));
        }
    }

    // Writes page `k` of the table into a bare page.
    #[tactic(auto, using(crate::proofs::Writing::writing))]
    fn write_table(&self, store: &mut Store, host: u32, k: u32)
        requires host { host < page_count store.old }
        requires entries { self.now.at + self.now.pages ≤ 2 ^ 20 }
        requires page { k < 2 ^ 10 }
        ensures page { store.new ≡ with_page store.old host (table_word_of self.now.pages self.now.at k) }
        ensures len { length store.new ≡ length store.old }
    {
        // The store has few enough pages for the places to fit.
        let _pages = store.pages();
        for word in 0..1024 {
            store.put(1024 * host + word, self.table_word(k, word));
        }
    }

    // A word of the block: mode M, the pages and the table.
    fn block_word(&self, word: u32) -> u32
        ensures { result ≡ block_word_of self.now.pages self.now.table word }
    {
        match word {
            32 => 3,
            65 => self.pages,
            66 => self.table,
            _ => 0,
        }
    }

    // A word of page `k` of the table: a page that can be read and written, or zero.
    fn table_word(&self, k: u32, word: u32) -> u32
        requires entries { self.now.at + self.now.pages ≤ 2 ^ 20 }
        requires page { k < 2 ^ 10 }
        requires word { word < 1024 }
        ensures { result ≡ table_word_of self.now.pages self.now.at k word }
    {
        let page = 1024 * k + word;
        if page < self.pages {
            (self.at + page) * 4096 + 3
        } else {
            0
        }
    }
}

/// How many pages the table of so many pages takes.
pub(crate) fn table_pages(pages: u32) -> u32
    ensures { result ≡ table_pages_of pages }
{
    ((u64::from(pages) + 1023) / 1024) as u32
}

/// Gives bare pages to a machine, where they are all free and all different.
#[tactic(auto, using(crate::proofs::Taking::taking))]
pub(crate) fn take(marks: &mut Vec<Mark>, pages: &[u32]) -> Result<(), BuildKind>
    requires { All (λ g. g < length marks.old.items) pages.now }
    ensures taken { Took result marks.new.items (taken_in marks.old.items pages.now) }
    ensures len { length marks.new.items ≡ length marks.old.items }
{
    for page in pages {
        let mark = &mut marks[*page as usize];
        if !is_free(*mark) {
            return Err(BuildKind::Overlap);
        }
        *mark = Mark::Control;
    }
    Ok(())
}
