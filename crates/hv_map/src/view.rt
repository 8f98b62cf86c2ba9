//! The storage as a machine sees it.

use crate::chain::Chain;
use crate::lookup::page_slot;
use crate::ways::{refusal, way_for};
use hv_block::{block_word, write_fault};
use hv_store::{Access, Refusal, Space, Store, Way};
use hv_word::{Lane, lane_put};

/// The store as the last machine of a chain sees it: each page is where `resolve` finds it along the chain.
#[derive(Drop)]
pub struct View<'a> {
    pub store: &'a mut Store,
    pub chain: &'a Chain,
}

impl Space for View<'_> {
    ghost use Rattle.std.specs.Prelude.{[], ◌∷◌, length, map};
    ghost use Rattle.hv_map.specs.Chain.{map_along};
    ghost use Rattle.hv_map.specs.Links.{framed};

    ghost storage = { λ v. v.store.now };

    ghost slots = { λ v. map_along v.store.now v.chain.now };

    ghost depth = { λ v. length v.chain.now };

    ghost place = { λ v. v.store.ghost_name ∷ [] };

    ghost frame = { λ v. map framed v.chain.now };

    ghost origin = { λ _. [] };

    ghost room = { λ _. 1 };

    fn pages(&self) -> u32 {
        self.chain.pages(self.store)
    }

    fn read(&mut self, page: u32, word: u32, access: Access) -> Result<u32, Refusal> {
        let slot = page_slot(self.store, self.chain, page);
        match way_for(slot, access) {
            Way::Open { host } => Ok(block_word(self.store, host, word)),
            Way::Shut {
                level,
                cause,
                page,
                word: asked,
            } => Err(refusal(level, cause, page, asked, word, access)),
        }
    }

    fn write(&mut self, page: u32, word: u32, lane: Lane, value: u32) -> Result<(), Refusal> {
        match page_slot(self.store, self.chain, page).write {
            Way::Open { host } => {
                let old = block_word(self.store, host, word);
                // The store has few enough pages for the place to fit.
                let _pages = self.store.pages();
                self.store
                    .put(1024 * host + word, lane_put(old, lane, value));
                Ok(())
            }
            Way::Shut {
                level,
                cause,
                page,
                word: asked,
            } => Err(refusal(level, cause, page, asked, word, Access::Write)),
        }
    }

    fn clear_fault(&mut self, page: u32) -> Result<(), Refusal> {
        match page_slot(self.store, self.chain, page).write {
            Way::Open { host } => {
                write_fault(self.store, host, 0, 0, 0);
                Ok(())
            }
            Way::Shut {
                level,
                cause,
                page,
                word: asked,
            } => Err(refusal(level, cause, page, asked, 72, Access::Write)),
        }
    }
}
