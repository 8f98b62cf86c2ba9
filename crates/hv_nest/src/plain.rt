//! The engine that keeps nothing besides the state.

ghost use Rattle.std.specs.Prelude.{◌≡◌, All};
ghost use Rattle.hv_word.specs.Storage.{page_count};
ghost use Rattle.hv_nest.specs.Kinds.{NextBelow};

use crate::harts::Harts;
use crate::nested::Nested;
use crate::notes::Notes;
use crate::outcome::Outcome;
use crate::running::{path_of, runs};
use hv_cpu::Cpu;
use hv_map::Path;
use hv_store::Store;
use std::marker::Model;

/// A storage with harts, each of whose steps is found anew, with room for a step's notes.
#[derive(Drop)]
pub struct Plain {
    store: Store,
    harts: Harts,
    notes: Notes,
}

impl Model for Plain {
    ghost use Rattle.std.specs.Prelude.{◌≤◌, length, All};
    ghost use Rattle.hv_word.specs.Storage.{page_count};
    ghost use Rattle.hv_nest.specs.State.{State};
    ghost use Rattle.hv_limits.specs.Limits.{harts_limit};
    ghost use Rattle.hv_nest.specs.Kinds.{NextBelow};

    ghost Value = { State };

    ghost view = { λ p. record { storage = p.store; harts = p.harts } };

    ghost invariant = { λ p. All (NextBelow (page_count p.store)) p.harts };
}

impl Plain {
    /// An engine over a storage and harts, each of whose next, if it has one, is a page of the storage.
    pub fn new(store: Store, harts: Harts) -> Plain
        requires { All (NextBelow (page_count store)) harts }
        ensures { result ≡ record { storage = store; harts = harts } }
    {
        Plain {
            store,
            harts,
            notes: Notes::new(),
        }
    }
}

impl Nested for Plain {
    ghost state = { λ p. p };

    #[inline(always)]
    fn step_into(&mut self, hart: u32, outcome: &mut Outcome) {
        let _pages = self.store.pages();
        self.harts
            .step_into(&mut self.store, &mut self.notes, hart, outcome);
    }

    fn lines(&mut self, hart: u32, mask: u32) {
        self.harts.set_lines(hart, mask);
    }

    fn running(&mut self, hart: u32) -> Path {
        path_of(&self.store, self.harts.at(hart))
    }

    #[inline(always)]
    fn runs(&self, hart: u32, path: &Path) -> bool {
        runs(&self.store, self.harts.at(hart), path)
    }

    fn cpu(&self, hart: u32) -> Cpu {
        self.harts.get(hart)
    }

    fn mip(&self, hart: u32) -> u32 {
        self.harts.at(hart).mip
    }

    fn harts(&self) -> u32 {
        self.harts.count()
    }

    fn parked(&self) -> &Store {
        &self.store
    }
}
