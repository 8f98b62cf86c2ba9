//! The machines on a path, with what their control blocks say.

ghost use Rattle.std.specs.Prelude.{◌≡◌, ◌<◌, ◌≤◌, ◌^◌, ◌++◌, ◌∷◌, [], ℕ, IfSome, List, Some, length, map, slice_get};
ghost use Rattle.std.specs.Option.{option_map};
ghost use Rattle.hv_limits.specs.Limits.{depth_limit};
ghost use Rattle.hv_word.specs.Storage.{page_count};

use crate::lookup::pages_at;
use crate::path::Path;
use hv_block::Block;
use hv_limits::DEPTH;
use hv_store::Store;
use std::marker::Model;

/// One machine on a path: the bare page of its control block, how many pages it has, where its table is in its parent's
/// pages (a directory of tables in version 2), and the version of its block.
#[derive(Clone, Copy, Debug, PartialEq, Eq)]
pub struct ChainItem {
    pub block: u32,
    pub pages: u32,
    pub table: u32,
    pub version: u32,
}

/// The same with the machine's syllable.
#[derive(Clone, Copy)]
pub(crate) struct Link {
    pub(crate) syllable: u32,
    pub(crate) block: u32,
    pub(crate) pages: u32,
    pub(crate) table: u32,
    pub(crate) version: u32,
}

impl Model for Link {
    ghost use Rattle.hv_map.specs.Item.{Item};

    ghost Value = { Item };

    ghost view = { λ a. record {
      syllable = a.syllable;
      block = a.block;
      pages = a.pages;
      table = a.table;
      version = a.version;
    } };

    ghost inverse = { λ i. record {
      syllable = i.syllable;
      block = i.block;
      pages = i.pages;
      table = i.table;
      version = i.version;
    } };
}

/// The machines on a path, from the outside in. It is a store's where `pin` of its path gives it, in the store as it is.
#[derive(Drop)]
pub struct Chain {
    len: u32,
    links: [Link; DEPTH],
}

impl Model for Chain {
    ghost use Rattle.std.specs.Prelude.{◌≡◌, ◌≤◌, ◌^◌, All, List, length, take};
    ghost use Rattle.hv_map.specs.Item.{Item};
    ghost use Rattle.hv_limits.specs.Limits.{depth_limit};

    ghost Value = { List Item };

    ghost view = { λ c. take c.len c.links };

    ghost invariant = { λ c. (c.len ≤ depth_limit) × (length c.links ≡ depth_limit)
        × All (λ x. x.pages ≤ 2 ^ 20) (take c.len c.links) };
}

impl Chain {
    ghost use Rattle.hv_map.specs.Chain.{map_along, pin_of};
    ghost use Rattle.hv_map.specs.Found.{item_of};
    ghost use Rattle.hv_map.specs.Links.{syllable_of, chain_item, last_block};

    /// The chain of the bare machine.
    pub fn new() -> Chain
        ensures { result ≡ [] }
    {
        let none = Link {
            syllable: 0,
            block: 0,
            pages: 0,
            table: 0,
            version: 0,
        };
        Chain {
            len: 0,
            links: [none; DEPTH],
        }
    }

    /// The number of machines, which is the level of the last one.
    #[inline(always)]
    pub fn len(&self) -> u32
        ensures len { result ≡ length self.now }
        ensures bound { result ≤ depth_limit }
    {
        self.len
    }

    // Machine `i`, counted from 0, which is at level `i + 1`.
    #[inline(always)]
    pub(crate) fn link(&self, i: u32) -> Link
        requires { i < length self.now }
        ensures item { slice_get self.now i ≡ Some result }
        ensures pages { result.pages ≤ 2 ^ 20 }
    {
        self.links[i as usize]
    }

    /// Machine `i`, counted from 0.
    pub fn item(&self, i: u32) -> ChainItem
        requires { i < length self.now }
        ensures { option_map chain_item (slice_get self.now i) ≡ Some result }
    {
        let link = self.link(i);
        ChainItem {
            block: link.block,
            pages: link.pages,
            table: link.table,
            version: link.version,
        }
    }

    /// The path of the last machine.
    pub fn path(&self) -> Path
        ensures { result ≡ map syllable_of self.now }
    {
        let mut path = Path::new();
        for i in 0..self.len {
            path.push(self.link(i).syllable);
        }
        path
    }

    /// The bare page of the last machine's control block, none for the bare machine.
    #[tactic(auto, using(crate::proofs::Machines::last_there, crate::proofs::Machines::last_none, crate::proofs::Machines::last_fits))]
    pub fn last_block(&self) -> Option<u32>
        ensures block { result ≡ last_block self.now }
        ensures within { (S : List ℕ) → pin_of S (map syllable_of self.now) ≡ Some self.now → IfSome result (λ g. g < page_count S) }
    {
        let last = self.len.checked_sub(1)?;
        Some(self.link(last).block)
    }

    /// The number of pages of the last machine, or of the store where the chain has none.
    #[inline(always)]
    #[tactic(auto, using(crate::proofs::Levels::chains))]
    pub fn pages(&self, store: &Store) -> u32
        ensures pages { result ≡ length (map_along store.now self.now) }
        ensures bound { result ≤ 2 ^ 20 }
    {
        pages_at(store, self, self.len())
    }

    /// The chain with one machine more, whose syllable is `syllable` and whose control block is in bare page `host`.
    pub fn deeper(&self, syllable: u32, host: u32, block: &Block) -> Chain
        requires room { length self.now < depth_limit }
        requires pages { block.now.pages ≤ 2 ^ 20 }
        ensures { result ≡ self.now ++ item_of syllable host block.now ∷ [] }
    {
        let mut links = self.links;
        links[self.len as usize] = Link {
            syllable,
            block: host,
            pages: block.pages,
            table: block.table,
            version: block.version,
        };
        Chain {
            len: self.len + 1,
            links,
        }
    }
}
