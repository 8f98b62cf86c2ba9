//! Why a line is refused.

ghost use Rattle.std.specs.Prelude.{◌≡◌};
ghost use Rattle.hv_line.specs.Kinds.{kind_word};

use std::alloc::AllocError;
use std::fmt::{self, Display, Formatter};

/// Why a line is refused, in the order of the tests; the last four are those of a line of assembly, which may also be
/// refused as `Byte`, `Repeat` or `Range`.
#[derive(Clone, Copy, Debug, PartialEq, Eq)]
pub enum JobKind {
    /// A byte isn't allowed.
    Byte,
    /// The first line with words isn't the header line.
    Header,
    /// The second such line isn't one of the storage.
    Storage,
    /// No directive, or no command, has this name.
    Directive,
    /// The words are too few or too many, or one that is fixed is another.
    Words,
    /// A word is no name.
    Name,
    /// A word is no number.
    Number,
    /// A number is outside its range.
    Range,
    /// It is a second line of the number of harts, or a label was defined on an earlier line.
    Repeat,
    /// A limit on lines of this kind, or on the words of all images, is passed.
    Many,
    /// The image has no end.
    Open,
    /// A number is none, or the tokens make no line.
    Syntax,
    /// No operation has this name.
    Mnemonic,
    /// The operands are too few, too many, or of another kind.
    Operand,
    /// A label isn't defined.
    Label,
}

impl JobKind {
    /// The word of the kind, as it is printed.
    #[tactic(auto, unfolding(crate::specs::Kinds::kind_word))]
    pub fn word(self) -> &'static str
        ensures { result.now ≡ kind_word self }
    {
        match self {
            JobKind::Byte => "byte",
            JobKind::Header => "header",
            JobKind::Storage => "storage",
            JobKind::Directive => "directive",
            JobKind::Words => "words",
            JobKind::Name => "name",
            JobKind::Number => "number",
            JobKind::Range => "range",
            JobKind::Repeat => "repeat",
            JobKind::Many => "many",
            JobKind::Open => "open",
            JobKind::Syntax => "syntax",
            JobKind::Mnemonic => "mnemonic",
            JobKind::Operand => "operand",
            JobKind::Label => "label",
        }
    }
}

impl Display for JobKind {
    ghost use Rattle.std.specs.Prelude.{Some};
    ghost use Rattle.hv_line.specs.Kinds.{kind_word};

    ghost output = { λ kind. Some (kind_word kind) };

    fn fmt<W: fmt::Write>(&self, f: &mut Formatter<W>) -> fmt::Result {
        f.write_str(self.word())
    }
}

/// Why a line isn't taken.
#[derive(Drop)]
pub enum JobLineEnd {
    /// It is refused.
    Fault(JobKind),
    /// Memory is wanting.
    Memory,
}

impl From<AllocError> for JobLineEnd {
    ghost use Rattle.std.specs.Prelude.{◌≡◌};
    ghost use Rattle.hv_line.specs.declared.kinds.JobLineEnd.TheVariants.{Memory};

    ghost from_gives = { λ _ end. end ≡ Memory };

    fn from(_error: AllocError) -> JobLineEnd {
        JobLineEnd::Memory
    }
}

impl From<JobKind> for JobLineEnd {
    ghost use Rattle.std.specs.Prelude.{◌≡◌};
    ghost use Rattle.hv_line.specs.declared.kinds.JobLineEnd.TheVariants.{Fault};

    ghost from_gives = { λ kind end. end ≡ Fault kind };

    fn from(kind: JobKind) -> JobLineEnd {
        JobLineEnd::Fault(kind)
    }
}
