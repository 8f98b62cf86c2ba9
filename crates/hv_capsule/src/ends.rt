//! Why a text is no parked machine.

ghost use Rattle.std.specs.Prelude.{◌≡◌};
ghost use Rattle.hv_capsule.specs.Kinds.{kind_word};
ghost use Rattle.hv_capsule.specs.declared.ends.CapsuleEnd.TheVariants.{Memory};

use std::alloc::AllocError;
use std::fmt::{self, Display, Formatter};

/// What a line that is refused should have been.
#[derive(Clone, Copy, Debug, PartialEq, Eq)]
pub enum CapsuleKind {
    /// The header line.
    Header,
    /// The number of pages.
    Pages,
    /// The registers.
    Regs,
    /// A page by rising number that isn't all zero, or the last line.
    Page,
    /// The last line, with nothing behind it.
    End,
}

impl CapsuleKind {
    /// The word of the kind, as it is printed.
    #[tactic(auto, unfolding(crate::specs::Kinds::kind_word))]
    pub fn word(self) -> &'static str
        ensures { result.now ≡ kind_word self }
    {
        match self {
            CapsuleKind::Header => "header",
            CapsuleKind::Pages => "pages",
            CapsuleKind::Regs => "regs",
            CapsuleKind::Page => "page",
            CapsuleKind::End => "end",
        }
    }
}

impl Display for CapsuleKind {
    ghost use Rattle.std.specs.Prelude.{Some};
    ghost use Rattle.hv_capsule.specs.Kinds.{kind_word};

    ghost output = { λ kind. Some (kind_word kind) };

    fn fmt<W: fmt::Write>(&self, f: &mut Formatter<W>) -> fmt::Result {
        f.write_str(self.word())
    }
}

/// Why a text is no parked machine.
#[derive(Clone, Copy, Debug, PartialEq, Eq)]
pub enum CapsuleEnd {
    /// The line of this number is the first that is refused; lines are numbered from 1.
    CapsuleFault { line: u64, kind: CapsuleKind },
    /// Memory is wanting.
    Memory,
}

impl From<AllocError> for CapsuleEnd {
    ghost from_gives = { λ _ e. e ≡ Memory };

    fn from(_error: AllocError) -> CapsuleEnd {
        CapsuleEnd::Memory
    }
}
