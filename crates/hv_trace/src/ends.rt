//! Why a text is no trace.

ghost use Rattle.std.specs.Prelude.{◌≡◌};
ghost use Rattle.hv_trace.specs.Kinds.{kind_word};
ghost use Rattle.hv_trace.specs.declared.ends.TraceEnd.TheVariants.{Memory};

use std::alloc::{AllocError, AllocFailed};

/// What a line that is refused should have been.
#[derive(Clone, Copy, Debug, PartialEq, Eq)]
pub enum TraceKind {
    /// The header line.
    Header,
    /// The number of pages.
    Pages,
    /// The registers, with no machine to run.
    Regs,
    /// A page, or the end of the capsule.
    Page,
    /// A row, or the end.
    Row,
    /// The last line.
    End,
}

impl TraceKind {
    /// The word of the kind, as it is printed.
    #[tactic(auto, unfolding(crate::specs::Kinds::kind_word))]
    pub fn word(self) -> &'static str
        ensures { result.now ≡ kind_word self }
    {
        match self {
            TraceKind::Header => "header",
            TraceKind::Pages => "pages",
            TraceKind::Regs => "regs",
            TraceKind::Page => "page",
            TraceKind::Row => "row",
            TraceKind::End => "end",
        }
    }
}

/// Why a text is no trace.
#[derive(Clone, Copy, Debug, PartialEq, Eq)]
pub enum TraceEnd {
    /// The line of this number is the first that is refused; lines are numbered from 1.
    TraceFault { line: u64, kind: TraceKind },
    /// Memory is wanting.
    Memory,
}

impl From<AllocError> for TraceEnd {
    ghost from_gives = { λ _ e. e ≡ Memory };

    fn from(_error: AllocError) -> TraceEnd {
        TraceEnd::Memory
    }
}

impl<T: Drop> From<AllocFailed<T>> for TraceEnd {
    ghost from_gives = { λ _ e. e ≡ Memory };

    fn from(_error: AllocFailed<T>) -> TraceEnd {
        TraceEnd::Memory
    }
}
