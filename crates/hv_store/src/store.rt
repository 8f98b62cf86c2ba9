//! The bare storage.

ghost use Rattle.std.specs.Prelude.{◌≡◌, ℕ, ◌+◌, ◌*◌, ◌<◌, ◌≤◌, IfOk, length, take, drop, slice_index, slice_set};
ghost use Rattle.hv_limits.specs.Limits.{pages_limit};
ghost use Rattle.hv_word.specs.Storage.{page_count};
ghost use Rattle.hv_store.specs.Access.{identity};
ghost use Rattle.hv_store.specs.Zeros.{zeros};

use crate::access::{Access, Refusal};
use crate::space::Space;
use hv_word::{Lane, lane_put};
use std::alloc::{AllocError, Global};
use std::marker::Model;

/// The words of the bare storage, in pages of 1024 words. It is a space that never refuses.
#[derive(Drop)]
pub struct Store {
    words: Vec<u32>,
    pages: u32,
}

impl Model for Store {
    ghost use Rattle.std.specs.Prelude.{◌≡◌, ◌≤◌, ◌*◌, ℕ, List, length};
    ghost use Rattle.hv_limits.specs.Limits.{pages_limit};

    ghost Value = { List ℕ };

    ghost view = { λ s. s.words.items };

    ghost invariant = { λ s. (length s.words.items ≡ 1024 * s.pages) × (1 ≤ s.pages) × (s.pages ≤ pages_limit) };
}

impl Store {
    /// A storage of 1 to PAGES pages, all words zero.
    #[tactic(auto, unfolding(crate::specs::Zeros::zeros))]
    pub fn new(alloc: Global, pages: u32) -> Result<Store, AllocError>
        requires some { 1 ≤ pages }
        requires bound { pages ≤ pages_limit }
        ensures { IfOk result (λ s. s ≡ zeros (1024 * pages)) }
    {
        let words = vec![in alloc; 0; 1024 * pages as usize]?;
        Ok(Store { words, pages })
    }

    /// The number of pages.
    #[inline(always)]
    pub fn pages(&self) -> u32
        ensures words { length self.now ≡ 1024 * result }
        ensures count { result ≡ page_count self.now }
        ensures some { 1 ≤ result }
        ensures bound { result ≤ pages_limit }
    {
        self.pages
    }

    /// The word at a place, counted from 0.
    #[inline(always)]
    pub fn get(&self, at: u32) -> u32
        requires { at < length self.now }
        ensures { result ≡ slice_index self.now at }
    {
        self.words[at as usize]
    }

    /// So many words from a place on, counted from 0.
    #[inline(always)]
    pub fn row(&self, at: u32, count: u32) -> &[u32]
        requires { at + count ≤ length self.now }
        ensures { result.now ≡ take count (drop at self.now) }
    {
        let _pages = self.pages();
        &self.words[at as usize..(at + count) as usize]
    }

    /// Replaces the word at a place, counted from 0.
    #[inline(always)]
    pub fn put(&mut self, at: u32, value: u32)
        requires { at < length self.old }
        ensures { self.new ≡ slice_set self.old at value }
    {
        self.words[at as usize] = value;
    }
}

#[tactic(auto, using(crate::proofs::Identity::identities))]
impl Space for Store {
    ghost use Rattle.std.specs.Prelude.{[]};
    ghost use Rattle.hv_word.specs.Storage.{page_count};
    ghost use Rattle.hv_store.specs.Access.{identity};

    ghost storage = { λ s. s };

    ghost slots = { λ s. identity (page_count s) };

    ghost depth = { λ _. 0 };

    ghost place = { λ _. [] };

    ghost frame = { λ _. [] };

    ghost origin = { λ _. [] };

    ghost room = { λ _. 1 };

    #[inline(always)]
    fn pages(&self) -> u32 {
        Store::pages(self)
    }

    #[inline(always)]
    fn read(&mut self, page: u32, word: u32, _access: Access) -> Result<u32, Refusal> {
        let _pages = Store::pages(self);
        Ok(self.get(1024 * page + word))
    }

    #[inline(always)]
    fn write(&mut self, page: u32, word: u32, lane: Lane, value: u32) -> Result<(), Refusal> {
        let _pages = Store::pages(self);
        let at = 1024 * page + word;
        let old = self.get(at);
        self.put(at, lane_put(old, lane, value));
        Ok(())
    }

    fn clear_fault(&mut self, page: u32) -> Result<(), Refusal> {
        let _pages = Store::pages(self);
        let at = 1024 * page;
        self.put(at + 72, 0);
        self.put(at + 73, 0);
        self.put(at + 74, 0);
        Ok(())
    }
}
