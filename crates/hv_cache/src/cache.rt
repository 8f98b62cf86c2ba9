//! The cache of translations.

ghost use Rattle.std.specs.Prelude.{◌≡◌, ◌<◌, ◌≤◌, [], IfOk, OnErr, OnOk, false, is_some, length, option_copied};
ghost use Rattle.std.specs.Borrow.{sem};
ghost use Rattle.std.specs.List.{AllByRecursion, IsDistinct};
ghost use Rattle.std.specs.Map.{keys_of, lookup};
ghost use Rattle.std.specs.Option.{option_map};
ghost use Rattle.hv_limits.specs.Limits.{pages_limit};
ghost use Rattle.hv_map.specs.Apart.{blocks_of};
ghost use Rattle.lru.specs.LruCache.{lru_cache, promoted};
ghost use Rattle.hv_cache.specs.Kept.{kept_of};
ghost use Rattle.hv_cache.specs.Holding.{any_has_table, any_rests_on, entries_limit, same, with_entry, without_page};

use crate::entries::Entries;
use crate::kept::Kept;
use hv_map::{Chain, Pages, Slot};
use std::alloc::{AllocError, Global};
use std::marker::Model;
use std::num::NonZeroUsize;

/// Translations that are held, each under the number of a path and a page of the machine there. Contracts see the
/// entries, the most recently used first, and how many there can be.
#[derive(Drop)]
pub struct MapCache {
    alloc: Global,
    entries: Entries,
    // The keys of the entries that are to be forgotten. There is room for all, so that forgetting takes no memory.
    resting: Vec<(u32, u32)>,
}

impl Model for MapCache {
    ghost use Rattle.std.specs.Prelude.{◌≤◌, vec_capacity};
    ghost use Rattle.hv_cache.specs.Holding.{Holding};

    ghost Value = { Holding };

    ghost view = { λ c. c.entries };

    ghost invariant = { λ c. c.entries.cap ≤ vec_capacity c.resting };
}

impl MapCache {
    ghost use Rattle.hv_cache.specs.Lending.{CacheEndsAs};

    /// A cache that can hold so many entries, 1 to 4096, and holds none.
    pub fn new(alloc: Global, entries: usize) -> Result<MapCache, AllocError>
        requires { (1 ≤ entries) × (entries ≤ entries_limit) }
        ensures { IfOk result (λ c. c ≡ lru_cache [] entries) }
    {
        let most = NonZeroUsize::new(entries).ok_or(AllocError)?;
        Ok(MapCache {
            alloc,
            entries: Entries::new(alloc, most)?,
            resting: Vec::with_capacity(alloc, entries)?,
        })
    }

    /// The slot that is held for a page, none where there is no entry. The entry becomes the most recently used.
    pub fn look(&mut self, id: u32, page: u32) -> Option<Slot>
        ensures found { result ≡ option_map (λ k. k.slot) (lookup (same (id, page)) self.old.entries) }
        ensures entries { self.new ≡ lru_cache (promoted (same (id, page)) self.old.entries) self.old.cap }
    {
        let kept = self.entries.entry((id, page))?;
        Some(kept.slot())
    }

    /// All that is held for a page, as `look` finds it.
    pub fn entry(&mut self, id: u32, page: u32) -> Option<&Kept>
        ensures* entries { sem 𝓛 (CacheEndsAs self.entry (promoted (same (id, page)) self.old.entries)) }
        ensures found { option_copied result ≡ lookup (same (id, page)) self.old.entries }
    {
        self.entries.entry((id, page))
    }

    /// Whether there is an entry for a page. No more are held than the capacity, each under a key of its own.
    pub fn holds(&self, id: u32, page: u32) -> bool
        ensures holds { result ≡ is_some (lookup (same (id, page)) self.now.entries) }
        ensures few { length self.now.entries ≤ self.now.cap }
        ensures distinct { IsDistinct same (keys_of self.now.entries) }
    {
        self.entries.contains((id, page))
    }

    /// Holds the slot of a page of the machine at the end of a chain. The entry rests on the pages of the chain's blocks
    /// and on the listed pages; it comes first. Where as many as the capacity are held and none of them is for this
    /// page, the least recently used one goes. Where memory is wanting, nothing changes.
    pub fn keep(
        &mut self,
        id: u32,
        page: u32,
        slot: Slot,
        chain: &Chain,
        tables: &Pages,
    ) -> Result<(), AllocError>
        requires room { tables.now.full ≡ false }
        requires blocks { AllByRecursion (λ g. g < pages_limit) (blocks_of chain.now) }
        requires tables { AllByRecursion (λ g. g < pages_limit) tables.now.pages }
        ensures ok { OnOk result (self.new ≡ lru_cache (with_entry self.old (id, page) (kept_of slot chain.now tables.now.pages)) self.old.cap) }
        ensures err { OnErr result (self.new ≡ self.old) }
    {
        let kept = Kept::new(self.alloc, slot, chain, tables)?;
        self.entries.put((id, page), kept)
    }

    /// Drops the entries that rest on a bare page. It takes no memory.
    pub fn forget_page(&mut self, page: u32)
        ensures { self.new ≡ lru_cache (without_page page self.old.entries) self.old.cap }
    {
        self.entries.forget(page, &mut self.resting);
    }

    /// Drops all entries.
    pub fn forget_all(&mut self)
        ensures { self.new ≡ lru_cache [] self.old.cap }
    {
        self.entries.clear();
    }

    /// Whether some entry rests on a bare page.
    #[inline(always)]
    pub fn watched(&self, page: u32) -> bool
        ensures { result ≡ any_rests_on page self.now.entries }
    {
        self.entries.watches(page)
    }

    /// Whether some entry has a bare page among its tables.
    #[inline(always)]
    pub fn table_watched(&self, page: u32) -> bool
        ensures { result ≡ any_has_table page self.now.entries }
    {
        self.entries.watches_table(page)
    }
}
