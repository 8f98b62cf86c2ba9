//! What a step comes to.

ghost use Rattle.std.specs.Prelude.{◌≡◌, []};
ghost use Rattle.hv_nest.specs.declared.outcome.StepKind.TheVariants.{Worked};

use crate::changed::Changed;
use hv_store::Access;

/// What kind of step it was: it worked, or the machine at a level got control back, for an interrupt of its own or for a
/// fault of the machine that it runs.
#[derive(Clone, Copy, Debug, PartialEq, Eq)]
pub enum StepKind {
    Worked,
    Recall {
        receiver: u32,
    },
    Fault {
        receiver: u32,
        cause: u32,
        address: u32,
        access: Access,
    },
}

/// One step's outcome: its kind, and the bare words that it changed.
#[derive(Clone, Copy, Debug)]
pub struct Outcome {
    pub kind: StepKind,
    pub changed: Changed,
}

impl Outcome {
    /// The outcome of a step that worked and changed no word.
    pub fn none() -> Outcome
        ensures kind { result.kind ≡ Worked }
        ensures changed { result.changed ≡ [] }
    {
        Outcome {
            kind: StepKind::Worked,
            changed: Changed::none(),
        }
    }
}
