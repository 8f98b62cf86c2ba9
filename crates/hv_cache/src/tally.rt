//! How often the entries of a cache name each bare page.

ghost use Rattle.std.specs.Prelude.{◌≡◌, ◌==◌, not, ℕ, IfOk, slice_index};
ghost use Rattle.hv_cache.specs.Counting.{Adds, Covers, HasRoom, IsInside};

use crate::counts::Counts;
use crate::kept::Kept;
use hv_limits::PAGES;
use std::alloc::{AllocError, Global};
use std::marker::Model;

/// For each bare page how often it is named, and how often among tables.
#[derive(Drop)]
pub(crate) struct Tally {
    pages: Counts,
    tables: Counts,
}

impl Model for Tally {
    ghost use Rattle.std.specs.Prelude.{◌≡◌, length};
    ghost use Rattle.hv_limits.specs.Limits.{pages_limit};
    ghost use Rattle.hv_cache.specs.Counting.{Tallied};

    ghost Value = { Tallied };

    ghost view = { λ t. record { pages = t.pages; tables = t.tables } };

    ghost invariant = { λ t. (length t.pages ≡ pages_limit) × (length t.tables ≡ pages_limit) };
}

impl Tally {
    /// No page is named.
    pub(crate) fn new(alloc: Global) -> Result<Tally, AllocError>
        ensures pages { IfOk result (λ t. (g : ℕ) → slice_index t.pages g ≡ 0) }
        ensures tables { IfOk result (λ t. (g : ℕ) → slice_index t.tables g ≡ 0) }
    {
        let pages = Counts::new(alloc, PAGES as usize)?;
        let tables = Counts::new(alloc, PAGES as usize)?;
        Ok(Tally { pages, tables })
    }

    /// Whether the page is named.
    #[inline(always)]
    pub(crate) fn names(&self, page: u32) -> bool
        ensures { result ≡ not (slice_index self.now.pages page == 0) }
    {
        self.pages.names(page)
    }

    /// Whether the page is named among tables.
    #[inline(always)]
    pub(crate) fn names_table(&self, page: u32) -> bool
        ensures { result ≡ not (slice_index self.now.tables page == 0) }
    {
        self.tables.names(page)
    }

    /// Counts the pages of an entry that comes.
    pub(crate) fn add(&mut self, kept: &Kept)
        requires inside { IsInside kept.now }
        requires room { HasRoom self.old kept.now }
        ensures { Adds self.old kept.now self.new }
    {
        self.pages.add(kept.blocks());
        self.pages.add(kept.tables());
        self.tables.add(kept.tables());
    }

    /// Takes the pages of an entry that goes off the tally.
    pub(crate) fn remove(&mut self, kept: &Kept)
        requires { Covers self.old kept.now }
        ensures { Adds self.new kept.now self.old }
    {
        self.pages.remove(kept.blocks());
        self.pages.remove(kept.tables());
        self.tables.remove(kept.tables());
    }

    /// No page is named any more.
    pub(crate) fn clear(&mut self)
        ensures pages { (g : ℕ) → slice_index self.new.pages g ≡ 0 }
        ensures tables { (g : ℕ) → slice_index self.new.tables g ≡ 0 }
    {
        self.pages.clear();
        self.tables.clear();
    }
}
