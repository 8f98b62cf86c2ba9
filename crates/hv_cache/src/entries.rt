//! The entries of a cache, with the tally of the pages that they name.

ghost use Rattle.std.specs.Prelude.{◌≡◌, ◌≤◌, [], ◌∷◌, IfOk, OnErr, OnOk, is_some, length, option_copied, vec_capacity};
ghost use Rattle.std.specs.List.{IsDistinct, filter};
ghost use Rattle.std.specs.Map.{keys_of, lookup, remove_entry};
ghost use Rattle.std.specs.Borrow.{sem};
ghost use Rattle.std.specs.NonZero.{non_zero_usize_get};
ghost use Rattle.lru.specs.LruCache.{lru_cache, promoted};
ghost use Rattle.hv_cache.specs.Kept.{rests_on};
ghost use Rattle.hv_cache.specs.Holding.{any_has_table, any_rests_on, entries_limit, same, with_entry, without_page};
ghost use Rattle.hv_cache.specs.Counting.{IsInside, IsShort};

use crate::kept::Kept;
use crate::tally::Tally;
use lru::LruCache;
use std::alloc::{AllocError, Global};
use std::marker::Model;
use std::num::NonZeroUsize;

/// Entries from the most to the least recently used, each under the number of a path and a page.
#[derive(Drop)]
pub(crate) struct Entries {
    kept: LruCache<(u32, u32), Kept>,
    tally: Tally,
}

impl Model for Entries {
    ghost use Rattle.hv_cache.specs.Holding.{Holding};
    ghost use Rattle.hv_cache.specs.Counting.{IsTally};

    ghost Value = { Holding };

    ghost view = { λ e. e.kept };

    ghost invariant = { λ e. IsTally e.kept e.tally };
}

impl Entries {
    ghost use Rattle.hv_cache.specs.Lending.{EntriesEndAs};

    /// No entries, and room for `entries`.
    pub(crate) fn new(alloc: Global, entries: NonZeroUsize) -> Result<Entries, AllocError>
        requires { non_zero_usize_get entries ≤ entries_limit }
        ensures { IfOk result (λ c. c ≡ lru_cache [] (non_zero_usize_get entries)) }
    {
        let kept = LruCache::new(alloc, entries)?;
        let tally = Tally::new(alloc)?;
        Ok(Entries { kept, tally })
    }

    /// The entry under a key, which becomes the most recently used.
    pub(crate) fn entry(&mut self, key: (u32, u32)) -> Option<&Kept>
        ensures* entries { sem 𝓛 (EntriesEndAs self.entry (promoted (same key) self.old.entries)) }
        ensures found { option_copied result ≡ lookup (same key) self.old.entries }
    {
        self.kept.get(&key)
    }

    /// Whether there is an entry under a key.
    pub(crate) fn contains(&self, key: (u32, u32)) -> bool
        ensures holds { result ≡ is_some (lookup (same key) self.now.entries) }
        ensures few { length self.now.entries ≤ self.now.cap }
        ensures distinct { IsDistinct same (keys_of self.now.entries) }
    {
        // No more are held than there is room for, and no key is there twice.
        let _held = self.kept.len();
        self.kept.contains(&key)
    }

    /// Puts an entry first, in place of the one under its key, or of the last where there is no room.
    pub(crate) fn put(&mut self, key: (u32, u32), kept: Kept) -> Result<(), AllocError>
        requires short { IsShort kept }
        requires inside { IsInside kept }
        ensures ok { OnOk result (self.new ≡ lru_cache (with_entry self.old key kept) self.old.cap) }
        ensures err { OnErr result (self.new ≡ self.old) }
    {
        // At most as many are held as there is room for, so that their pages can be counted.
        let _held = self.kept.len();
        self.tally.add(&kept);
        match self.kept.push(key, kept) {
            Ok(None) => Ok(()),
            Ok(Some((_, gone))) => {
                self.tally.remove(&gone);
                Ok(())
            }
            Err(refused) => {
                self.tally.remove(&refused.value.1);
                Err(AllocError)
            }
        }
    }

    // Lists the keys of the entries that rest on a page, in their order.
    fn resting_on(&self, page: u32, keys: &mut Vec<(u32, u32)>)
        requires room { self.now.cap ≤ vec_capacity keys.old }
        ensures keys { keys.new.items ≡ keys_of (filter (λ e. rests_on page e.1) self.now.entries) }
        ensures room { vec_capacity keys.old ≤ vec_capacity keys.new }
        ensures distinct { IsDistinct same (keys_of self.now.entries) }
    {
        // No key is there twice.
        let _held = self.kept.len();
        keys.clear();
        for (key, kept) in &self.kept {
            if kept.rests_on(page) {
                let Ok(()) = keys.push(*key) else { return };
            }
        }
    }

    /// Takes out the entries that rest on a page. Their keys are gathered in `keys`, which has room for all.
    pub(crate) fn forget(&mut self, page: u32, keys: &mut Vec<(u32, u32)>)
        requires room { self.old.cap ≤ vec_capacity keys.old }
        ensures entries { self.new ≡ lru_cache (without_page page self.old.entries) self.old.cap }
        ensures room { vec_capacity keys.old ≤ vec_capacity keys.new }
    {
        if !self.watches(page) {
            return;
        }
        self.resting_on(page, keys);
        for key in keys.as_slice() {
            self.remove(*key);
        }
    }

    // Takes out the entry under a key, if there is one.
    fn remove(&mut self, key: (u32, u32))
        ensures { self.new ≡ lru_cache (remove_entry (same key) self.old.entries) self.old.cap }
    {
        if let Some(gone) = self.kept.pop(&key) {
            self.tally.remove(&gone);
        }
    }

    /// Takes out all.
    pub(crate) fn clear(&mut self)
        ensures { self.new ≡ lru_cache [] self.old.cap }
    {
        self.kept.clear();
        self.tally.clear();
    }

    /// Whether some entry rests on a page.
    #[inline(always)]
    pub(crate) fn watches(&self, page: u32) -> bool
        ensures { result ≡ any_rests_on page self.now.entries }
    {
        self.tally.names(page)
    }

    /// Whether some entry has a page among its tables.
    #[inline(always)]
    pub(crate) fn watches_table(&self, page: u32) -> bool
        ensures { result ≡ any_has_table page self.now.entries }
    {
        self.tally.names_table(page)
    }
}
