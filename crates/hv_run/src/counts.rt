//! What a play counts.

ghost use Rattle.std.specs.Prelude.{◌≡◌, ◌≤◌, ◌<◌, ◌+◌, ◌^◌, [], IfOk};
ghost use Rattle.hv_run.specs.Play.{kind_after, CountsWithin};

use crate::fault::FaultRow;
use crate::faults::Faults;
use hv_nest::StepKind;
use std::alloc::{AllocError, Global};

/// The numbers of steps, faults and recalls of a play, and its last faults.
#[derive(Drop)]
pub(crate) struct Counts {
    pub(crate) steps: u64,
    pub(crate) faults: u64,
    pub(crate) recalls: u64,
    pub(crate) kept: Faults,
}

impl Counts {
    /// Of no step, with room for the faults that are kept.
    pub(crate) fn new(alloc: Global) -> Result<Counts, AllocError>
        ensures { IfOk result (λ c. c ≡ record { steps = 0; faults = 0; recalls = 0; kept = [] }) }
    {
        let kept = Faults::new(alloc)?;
        Ok(Counts {
            steps: 0,
            faults: 0,
            recalls: 0,
            kept,
        })
    }

    /// Counts a step of a hart.
    #[inline(always)]
    pub(crate) fn tell(&mut self, hart: u32, kind: &StepKind)
        requires { CountsWithin (2 ^ 62) self.old }
        ensures counts { self.new ≡ kind_after self.old hart kind.now }
        ensures steps { self.new.steps ≤ self.old.steps + 1 }
        ensures faults { self.new.faults ≤ self.old.faults + 1 }
        ensures recalls { self.new.recalls ≤ self.old.recalls + 1 }
    {
        self.steps += 1;
        match *kind {
            StepKind::Worked => {}
            StepKind::Recall { receiver: _ } => self.recalls += 1,
            StepKind::Fault {
                receiver,
                cause,
                address,
                access,
            } => {
                self.faults += 1;
                self.kept.push(FaultRow {
                    step: self.steps,
                    hart,
                    receiver,
                    cause,
                    address,
                    access,
                });
            }
        }
    }
}
