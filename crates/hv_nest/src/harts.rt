//! The harts of the bare machine.

ghost use Rattle.std.specs.Prelude.{◌≡◌, ◌<◌, ◌≤◌, All, IfSome, Some, bit_and, length, replicate, slice_get, slice_set};
ghost use Rattle.hv_word.specs.Storage.{page_count};
ghost use Rattle.hv_cpu.specs.Lines.{lined_of};
ghost use Rattle.hv_cpu.specs.Regs.{reset_regs};
ghost use Rattle.hv_limits.specs.Limits.{harts_limit, lines_mask};
ghost use Rattle.hv_nest.specs.Changes.{differences};
ghost use Rattle.hv_nest.specs.Frame.{IsFramedBy};
ghost use Rattle.hv_nest.specs.Kinds.{NextBelow};
ghost use Rattle.hv_nest.specs.Move.{moved_of, running_of};

use crate::notes::Notes;
use crate::outcome::Outcome;
use crate::step::host_step_into;
use hv_cpu::{Cpu, reset};
use hv_limits::HARTS;
use hv_store::Store;
use std::marker::Model;

/// The registers of one to `HARTS` harts.
#[derive(Drop)]
pub struct Harts {
    count: u32,
    cpus: [Cpu; HARTS],
}

impl Model for Harts {
    ghost use Rattle.std.specs.Prelude.{◌≡◌, ◌≤◌, List, length, take};
    ghost use Rattle.hv_cpu.specs.Regs.{Regs};
    ghost use Rattle.hv_limits.specs.Limits.{harts_limit};

    ghost Value = { List Regs };

    ghost view = { λ h. take h.count h.cpus };

    ghost invariant = { λ h. (1 ≤ h.count) × (h.count ≤ harts_limit) × (length h.cpus ≡ harts_limit) };
}

impl Harts {
    /// As many harts, each as after a reset.
    pub fn new(count: u32) -> Harts
        requires some { 1 ≤ count }
        requires bound { count ≤ harts_limit }
        ensures { result ≡ replicate count reset_regs }
    {
        Harts {
            count,
            cpus: [reset(); HARTS],
        }
    }

    /// The number of harts.
    pub fn count(&self) -> u32
        ensures count { result ≡ length self.now }
        ensures some { 1 ≤ result }
        ensures bound { result ≤ harts_limit }
    {
        self.count
    }

    /// The registers of a hart.
    pub fn get(&self, hart: u32) -> Cpu
        requires { hart < length self.now }
        ensures { slice_get self.now hart ≡ Some result }
    {
        self.cpus[hart as usize]
    }

    /// The registers of a hart where they are.
    #[inline(always)]
    pub fn at(&self, hart: u32) -> &Cpu
        requires { hart < length self.now }
        ensures { slice_get self.now hart ≡ Some result.now }
    {
        &self.cpus[hart as usize]
    }

    /// Replaces the registers of a hart.
    pub fn put(&mut self, hart: u32, cpu: &Cpu)
        requires { hart < length self.old }
        ensures { self.new ≡ slice_set self.old hart cpu.now }
    {
        self.cpus[hart as usize] = *cpu;
    }

    /// Sets the lines from outside of a hart to those of `mask`, which has no other bits.
    pub fn set_lines(&mut self, hart: u32, mask: u32)
        requires hart { hart < length self.old }
        requires mask { bit_and mask lines_mask ≡ mask }
        ensures { IfSome (slice_get self.old hart) (λ r. self.new ≡ slice_set self.old hart (lined_of r mask)) }
    {
        self.cpus[hart as usize].set_lines(mask);
    }

    /// One step of a hart, told in `outcome` in place of what that told; `notes` is room for it. The next of each hart, if it has
    /// one, is a page of the storage.
    #[inline(always)]
    pub fn step_into(
        &mut self,
        store: &mut Store,
        notes: &mut Notes,
        hart: u32,
        outcome: &mut Outcome,
    )
        requires hart { hart < length self.old }
        requires next { All (NextBelow (page_count store.old)) self.old }
        ensures moves { record { kind = outcome.new.kind; state = record { storage = store.new; harts = self.new } }
            ≡ moved_of (record { storage = store.old; harts = self.old }) hart }
        ensures changed { outcome.new.changed ≡ differences store.old store.new }
        ensures frame { IsFramedBy store.old (running_of (record { storage = store.old; harts = self.old }) hart) store.new }
        ensures next { All (NextBelow (page_count store.old)) self.new }
        ensures count { length self.new ≡ length self.old }
        ensures len { length store.new ≡ length store.old }
    {
        host_step_into(store, notes, &mut self.cpus[hart as usize], hart, outcome);
    }
}
