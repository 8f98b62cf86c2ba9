//! How often each bare page is named.

ghost use Rattle.std.specs.Prelude.{◌≡◌, ◌+◌, ◌<◌, ◌≤◌, ◌^◌, ◌==◌, not, ℕ, IfOk, length, slice_index};
ghost use Rattle.std.specs.List.{AllByRecursion};
ghost use Rattle.hv_cache.specs.Counting.{occurrences};

use std::alloc::{AllocError, Global};
use std::marker::Model;

/// A count for each page below some number.
#[derive(Drop)]
pub(crate) struct Counts {
    counts: Vec<u32>,
}

impl Model for Counts {
    ghost use Rattle.std.specs.Prelude.{ℕ, List};

    ghost Value = { List ℕ };

    ghost view = { λ c. c.counts.items };
}

impl Counts {
    /// Counts of 0, for so many pages.
    pub(crate) fn new(alloc: Global, pages: usize) -> Result<Counts, AllocError>
        ensures zero { IfOk result (λ c. (g : ℕ) → slice_index c g ≡ 0) }
        ensures len { IfOk result (λ c. length c ≡ pages) }
    {
        Ok(Counts {
            counts: vec![in alloc; 0u32; pages]?,
        })
    }

    /// Whether the page is named.
    #[inline(always)]
    pub(crate) fn names(&self, page: u32) -> bool
        ensures { result ≡ not (slice_index self.now page == 0) }
    {
        match self.counts.get(page as usize) {
            Some(count) => *count != 0,
            None => false,
        }
    }

    /// Counts the pages.
    pub(crate) fn add(&mut self, pages: &[u32])
        requires inside { AllByRecursion (λ g. g < length self.old) pages.now }
        requires room { (g : ℕ) → slice_index self.old g + occurrences g pages.now < 2 ^ 32 }
        ensures counted { (g : ℕ) → slice_index self.new g ≡ slice_index self.old g + occurrences g pages.now }
        ensures len { length self.new ≡ length self.old }
    {
        for page in pages {
            self.counts[*page as usize] += 1;
        }
    }

    /// Counts the pages no more.
    pub(crate) fn remove(&mut self, pages: &[u32])
        requires counted { (g : ℕ) → occurrences g pages.now ≤ slice_index self.old g }
        ensures counted { (g : ℕ) → slice_index self.new g + occurrences g pages.now ≡ slice_index self.old g }
        ensures len { length self.new ≡ length self.old }
    {
        for page in pages {
            self.counts[*page as usize] -= 1;
        }
    }

    /// Every count becomes 0.
    pub(crate) fn clear(&mut self)
        ensures zero { (g : ℕ) → slice_index self.new g ≡ 0 }
        ensures len { length self.new ≡ length self.old }
    {
        self.counts.fill(0);
    }
}
