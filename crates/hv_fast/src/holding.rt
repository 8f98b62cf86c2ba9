//! Where the pages of a running machine lie, and which of that is held.

ghost use Rattle.std.specs.Prelude.{◌≡◌, ◌↔◌, ◌<◌, ◌+◌, List, true, false, Some, length, slice_get};
ghost use Rattle.hv_store.specs.declared.access.Slot.{Slot};
ghost use Rattle.hv_store.specs.Access.{open_at};
ghost use Rattle.hv_map.specs.Chain.{map_of, pin_of};
ghost use Rattle.hv_map.specs.Item.{Item};
ghost use Rattle.hv_map.specs.Levels.{reads_bound};
ghost use Rattle.hv_nest.specs.Move.{running_of};
ghost use Rattle.hv_fast.specs.Holds.{is_known, pages_for};

use crate::fast::Fast;
use crate::translations::{Kept, Translated, holds, translate};
use hv_store::{Slot, Steps, Way};
use std::sync::ledger::Ledger;

impl Fast {
    /// Whether the slot of a page of the machine that a hart runs is known without a table: on the bare machine each is, else
    /// those that are held.
    pub fn held(&mut self, hart: u32, page: u32) -> bool
        requires { hart < length self.old.state.harts }
        ensures held { result ≡ is_known self.old.paths self.old.entries (running_of self.old.state hart) page }
        ensures same { self.new ≡ self.old }
    {
        let path = self.beside.path(&self.store, self.harts.at(hart), hart);
        path.len() == 0 || holds(&self.beside.ids, &self.beside.cache, &path, page)
    }

    /// Where a page of the machine that a hart runs lies. From then on that is held, unless it rests on too many pages, or memory
    /// is wanting. Nothing else changes.
    pub fn translate<L: Ledger>(&mut self, hart: u32, page: u32, steps: &mut Steps<L>) -> Translated
        requires hart { hart < length self.old.state.harts }
        requires page { (F : List Slot) × (map_of self.old.state.storage (running_of self.old.state hart) ≡ Some F) × (page < length F) }
        ensures slot { (F : List Slot) → map_of self.old.state.storage (running_of self.old.state hart) ≡ Some F → slice_get F page ≡ Some result.slot }
        ensures held { (result.kept ≡ Kept.Held) ↔ (is_known self.new.paths self.new.entries (running_of self.old.state hart) page ≡ true) }
        ensures wide { (items : List Item) → pin_of self.old.state.storage (running_of self.old.state hart) ≡ Some items → (result.kept ≡ Kept.Wide)
            ↔ ((is_known self.old.paths self.old.entries (running_of self.old.state hart) page ≡ false)
            × ((pages_for self.old.state.storage items page).full ≡ true)) }
        ensures quick { is_known self.old.paths self.old.entries (running_of self.old.state hart) page ≡ true → steps.new ≡ steps.old }
        ensures ticks { (items : List Item) → pin_of self.old.state.storage (running_of self.old.state hart) ≡ Some items
            → steps.new < steps.old + reads_bound items }
        ensures state { self.new.state ≡ self.old.state }
    {
        let path = self.beside.path(&self.store, self.harts.at(hart), hart);
        if path.len() == 0 {
            return Translated {
                slot: bare_slot(page),
                kept: Kept::Held,
            };
        }
        translate(
            &mut self.beside.ids,
            &mut self.beside.cache,
            &self.store,
            &path,
            page,
            steps,
        )
    }
}

// The slot of a page of the bare machine.
fn bare_slot(page: u32) -> Slot
    ensures { result ≡ open_at page }
{
    let way = Way::Open { host: page };
    Slot {
        read: way,
        write: way,
        fetch: way,
    }
}
