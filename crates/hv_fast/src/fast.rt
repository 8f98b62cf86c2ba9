//! The engine that keeps pins and held translations beside the state.

ghost use Rattle.std.specs.Prelude.{◌≡◌, ◌<◌, All, IfOk, IfSome, List, ℕ, length, slice_get, true, false};
ghost use Rattle.hv_word.specs.Storage.{page_count};
ghost use Rattle.hv_nest.specs.Changes.{differences};
ghost use Rattle.hv_nest.specs.Frame.{IsFramedBy};
ghost use Rattle.hv_nest.specs.Kinds.{NextBelow};
ghost use Rattle.hv_nest.specs.Move.{moved_of, running_of};
ghost use Rattle.hv_nest.specs.declared.outcome.StepKind.TheVariants.{Worked as WorkedKind};

use crate::beside::Beside;
use crate::following::entered;
use hv_cpu::Cpu;
use hv_csr::pending;
use hv_map::Path;
use hv_nest::{Changed, Harts, Nested, Outcome, StepKind};
use hv_store::Store;
use std::alloc::{AllocError, Global};
use std::marker::Model;

/// A storage with harts. A machine inside others makes its steps by a pinned path and by held translations where it can, so
/// that they take as long at every depth.
#[derive(Drop)]
pub struct Fast {
    pub(crate) store: Store,
    pub(crate) harts: Harts,
    pub(crate) beside: Beside,
}

impl Model for Fast {
    ghost use Rattle.hv_fast.specs.Engine.{Engine, IsFast};

    ghost Value = { Engine };

    ghost view = { λ f. record {
      state = record { storage = f.store; harts = f.harts };
      paths = f.beside.ids;
      entries = f.beside.cache.entries;
    } };

    ghost invariant = { λ f. IsFast f.store f.harts f.beside };
}

impl Fast {
    /// An engine over a storage and harts, each of whose next, if it has one, is a page of the storage.
    pub fn new(alloc: Global, store: Store, harts: Harts) -> Result<Fast, AllocError>
        requires { All (NextBelow (page_count store)) harts }
        ensures { IfOk result (λ f. f.state ≡ record { storage = store; harts = harts }) }
    {
        let beside = Beside::new(alloc, harts.count())?;
        Ok(Fast {
            store,
            harts,
            beside,
        })
    }

    // The step of a hart by its pin, with the words that it changed told in `changed`. It answers whether that could be done; else
    // the state stays.
    #[inline(always)]
    fn ride(&mut self, hart: u32, changed: &mut Changed) -> bool
        requires { hart < length self.old.state.harts }
        ensures moves { result ≡ true → record { kind = WorkedKind; state = self.new.state } ≡ moved_of self.old.state hart }
        ensures changed { result ≡ true → changed.new ≡ differences self.old.state.storage self.new.state.storage }
        ensures frame { result ≡ true → IsFramedBy self.old.state.storage (running_of self.old.state hart) self.new.state.storage }
        ensures not { result ≡ false → self.new.state ≡ self.old.state }
        ensures harts { length self.new.state.harts ≡ length self.old.state.harts }
        ensures len { length self.new.state.storage ≡ length self.old.state.storage }
    {
        let cpu = self.harts.at(hart);
        if entered(cpu).is_none()
            || pending(cpu).is_some()
            || !self.beside.ready(&self.store, cpu, hart)
        {
            return false;
        }
        self.beside.ride(&mut self.store, hart, changed)
    }

    // The step of a hart that runs no machine, and so has no pin in use.
    #[inline(always)]
    fn step_bare(&mut self, hart: u32, outcome: &mut Outcome)
        requires hart { hart < length self.old.state.harts }
        requires idle { IfSome (slice_get self.old.state.harts hart) (λ r. r.next ≡ 0) }
        ensures moves { record { kind = outcome.new.kind; state = self.new.state } ≡ moved_of self.old.state hart }
        ensures changed { outcome.new.changed ≡ differences self.old.state.storage self.new.state.storage }
        ensures frame { IsFramedBy self.old.state.storage (running_of self.old.state hart) self.new.state.storage }
        ensures harts { length self.new.state.harts ≡ length self.old.state.harts }
        ensures len { length self.new.state.storage ≡ length self.old.state.storage }
    {
        let _pages = self.store.pages();
        self.harts
            .step_into(&mut self.store, &mut self.beside.notes, hart, outcome);
        self.beside.spare_all(&self.store, &outcome.changed);
    }

    // The step of a hart, found anew.
    #[inline(always)]
    fn step_anew(&mut self, hart: u32, outcome: &mut Outcome)
        requires { hart < length self.old.state.harts }
        ensures moves { record { kind = outcome.new.kind; state = self.new.state } ≡ moved_of self.old.state hart }
        ensures changed { outcome.new.changed ≡ differences self.old.state.storage self.new.state.storage }
        ensures frame { IsFramedBy self.old.state.storage (running_of self.old.state hart) self.new.state.storage }
        ensures harts { length self.new.state.harts ≡ length self.old.state.harts }
        ensures len { length self.new.state.storage ≡ length self.old.state.storage }
    {
        let _pages = self.store.pages();
        self.harts
            .step_into(&mut self.store, &mut self.beside.notes, hart, outcome);
        self.beside.after(&self.store, hart, &outcome.changed);
    }
}

impl Nested for Fast {
    ghost state = { λ f. f.state };

    #[inline(always)]
    fn step_into(&mut self, hart: u32, outcome: &mut Outcome) {
        let _pages = self.store.pages();
        if entered(self.harts.at(hart)).is_none() {
            self.step_bare(hart, outcome);
        } else if self.ride(hart, &mut outcome.changed) {
            outcome.kind = StepKind::Worked;
        } else {
            self.step_anew(hart, outcome);
        }
    }

    fn lines(&mut self, hart: u32, mask: u32) {
        self.harts.set_lines(hart, mask);
    }

    fn running(&mut self, hart: u32) -> Path {
        self.beside.path(&self.store, self.harts.at(hart), hart)
    }

    #[inline(always)]
    fn runs(&self, hart: u32, path: &Path) -> bool {
        self.beside
            .runs(&self.store, self.harts.at(hart), hart, path)
    }

    fn cpu(&self, hart: u32) -> Cpu {
        self.harts.get(hart)
    }

    fn mip(&self, hart: u32) -> u32 {
        self.harts.at(hart).mip
    }

    fn harts(&self) -> u32 {
        self.harts.count()
    }

    fn parked(&self) -> &Store {
        &self.store
    }
}
