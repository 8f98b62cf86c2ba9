//! Why a job can't be built.

ghost use Rattle.std.specs.Prelude.{◌≡◌};
ghost use Rattle.hv_load.specs.Kinds.{kind_word};

use std::alloc::AllocError;
use std::fmt::{self, Display, Formatter};
use thiserror::Error;

/// Why a directive can't be done.
#[derive(Clone, Copy, Debug, PartialEq, Eq)]
pub enum BuildKind {
    /// There is no such hart.
    Hart,
    /// There are too many machines.
    Many,
    /// No machine has this name.
    Unknown,
    /// The parent is too deep to have a machine inside it.
    Depth,
    /// The name is taken, or it is a second tower.
    Repeat,
    /// A page is outside the machine's pages.
    Outside,
    /// A page can't be reached through the machine's map, or its path has no map.
    Absent,
    /// A bare page is used already.
    Overlap,
    /// The machine can't be watched.
    Watch,
    /// The machine's block has version 2 already.
    Version,
    /// The bare pages on which the machine stands aren't all different.
    Apart,
}

impl BuildKind {
    /// The word of the kind, as it is printed.
    #[tactic(auto, unfolding(crate::specs::Kinds::kind_word))]
    pub fn word(self) -> &'static str
        ensures { result.now ≡ kind_word self }
    {
        match self {
            BuildKind::Hart => "hart",
            BuildKind::Many => "many",
            BuildKind::Unknown => "unknown",
            BuildKind::Depth => "depth",
            BuildKind::Repeat => "repeat",
            BuildKind::Outside => "outside",
            BuildKind::Absent => "absent",
            BuildKind::Overlap => "overlap",
            BuildKind::Watch => "watch",
            BuildKind::Version => "version",
            BuildKind::Apart => "apart",
        }
    }
}

impl Display for BuildKind {
    fn fmt<W: fmt::Write>(&self, f: &mut Formatter<W>) -> fmt::Result {
        f.write_str(self.word())
    }
}

/// Why a job can't be built.
#[derive(Clone, Copy, Debug, PartialEq, Eq, Error)]
pub enum BuildEnd {
    /// The directive on the line of this number is refused.
    #[error("line {line} is refused: {kind}")]
    BuildFault { line: u32, kind: BuildKind },
    /// Memory is wanting.
    #[error("memory is wanting")]
    Memory,
}

impl From<AllocError> for BuildEnd {
    ghost use Rattle.std.specs.Prelude.{◌≡◌};
    ghost use Rattle.hv_load.specs.declared.ends.BuildEnd.TheVariants.{Memory};

    ghost from_gives = { λ _ end. end ≡ Memory };

    fn from(_error: AllocError) -> BuildEnd {
        BuildEnd::Memory
    }
}
