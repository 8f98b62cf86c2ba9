//! What is kept of one translation.

ghost use Rattle.std.specs.Prelude.{◌≡◌, IfOk};
ghost use Rattle.hv_cache.specs.Kept.{kept_of, rests_on};
ghost use Rattle.hv_cache.specs.Counting.{IsShort};

use hv_map::{Chain, Pages, Slot};
use std::alloc::{AllocError, Global};
use std::marker::Model;

/// The slot of a page in the map of the machine at a chain's end, with the bare pages that it rests on: those of the
/// chain's blocks, and those of the tables and directories that were read.
#[derive(Drop)]
pub struct Kept {
    slot: Slot,
    blocks: Vec<u32>,
    tables: Vec<u32>,
}

impl Model for Kept {
    ghost use Rattle.hv_cache.specs.Kept.{Kept as Translation};

    ghost Value = { Translation };

    ghost view = { λ k. record {
      slot = k.slot;
      blocks = k.blocks.items;
      tables = k.tables.items;
    } };
}

impl Kept {
    // The slot, with the pages of the chain's blocks and the listed pages.
    pub(crate) fn new(
        alloc: Global,
        slot: Slot,
        chain: &Chain,
        tables: &Pages,
    ) -> Result<Kept, AllocError>
        ensures kept { IfOk result (λ kept. kept ≡ kept_of slot chain.now tables.now.pages) }
        ensures short { IfOk result IsShort }
    {
        let mut blocks = Vec::with_capacity(alloc, chain.len() as usize)?;
        for i in 0..chain.len() {
            blocks.push(chain.item(i).block)?;
        }
        let tables = Vec::from_slice(alloc, &tables.pages[..tables.len as usize])?;
        Ok(Kept {
            slot,
            blocks,
            tables,
        })
    }

    /// The slot.
    pub fn slot(&self) -> Slot
        ensures { result ≡ self.now.slot }
    {
        self.slot
    }

    /// The bare pages of the blocks, from the outermost machine's inwards.
    pub fn blocks(&self) -> &[u32]
        ensures { result.now ≡ self.now.blocks }
    {
        &self.blocks
    }

    // Whether it rests on a bare page.
    pub(crate) fn rests_on(&self, page: u32) -> bool
        ensures { result ≡ rests_on page self.now }
    {
        self.blocks.contains(&page) || self.tables.contains(&page)
    }

    /// The bare pages of the tables and directories.
    pub fn tables(&self) -> &[u32]
        ensures { result.now ≡ self.now.tables }
    {
        &self.tables
    }
}
