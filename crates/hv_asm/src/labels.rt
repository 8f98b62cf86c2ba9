//! The labels of a text.

ghost use Rattle.std.specs.Prelude.{◌≡◌, OnOk};
ghost use Rattle.std.specs.List.Sorted.{IsSortedBy};
ghost use Rattle.std.specs.Option.{option_map};
ghost use Rattle.std.specs.Ordering.{is_lt};
ghost use Rattle.hv_asm.specs.Definitions.{IsNoted, by_name};
ghost use Rattle.hv_asm.specs.Operands.{text_of};

use crate::label_names::LabelName;
use crate::lines::Line;
use crate::operands::text;
use std::alloc::AllocError;

/// Where a label is defined: its line, and its address.
#[derive(Clone, Copy)]
pub(crate) struct Place {
    pub line: u32,
    pub at: u64,
}

/// A name that a line defines.
#[derive(Clone, Copy)]
pub(crate) struct Definition<'a> {
    pub name: LabelName<'a>,
    pub place: Place,
}

/// Notes the name that a line defines, if it defines one.
pub(crate) fn note<'a>(
    definitions: &mut Vec<Definition<'a>>,
    line: &'a [u8],
    read: &Line,
    place: Place,
) -> Result<(), AllocError>
    ensures { OnOk result
        (IsNoted definitions.old.items definitions.new.items (option_map (text_of line.now) read.now.label) place) }
{
    let Some(label) = read.label else {
        return Ok(());
    };
    let name = LabelName::new(text(line, label));
    definitions.push(Definition { name, place })?;
    Ok(())
}

/// The labels of a text: its definitions by their names, those of one name as their lines stand.
#[derive(Drop)]
pub(crate) struct Labels<'a> {
    definitions: Vec<Definition<'a>>,
    /// Each name is defined once.
    pub distinct: bool,
    ghost sorted: { IsSortedBy (λ d e. is_lt (by_name d.name e.name)) definitions.items },
}

impl<'a> Labels<'a> {
    ghost use Rattle.std.specs.Prelude.{◌≡◌, ℕ, All, IfOk, List, true};
    ghost use Rattle.hv_asm.specs.Definitions.{IsFound, place_among};
    ghost use Rattle.hv_asm.specs.Labels.{place_in};

    /// The labels of some definitions, which stand in the order of their lines.
    pub fn new(mut definitions: Vec<Definition<'a>>) -> Result<Self, AllocError>
        ensures places { IfOk result (λ labels. (q : List ℕ)
            → place_in labels q ≡ place_among definitions.entry.items q) }
        ensures distinct { IfOk result (λ labels. labels.distinct ≡ true
            → All (IsFound (place_in labels)) definitions.entry.items) }
    {
        definitions.sort_by(|one, other| one.name.compare(&other.name))?;
        let distinct = definitions
            .as_slice()
            .is_sorted_by(|one, next| one.name.compare(&next.name).is_lt());
        Ok(Labels {
            definitions,
            distinct,
        })
    }

    /// Where the label of this name is defined.
    pub fn find(&self, name: &[u8]) -> Option<Place>
        ensures { result ≡ place_in self.now name.now }
    {
        let wanted = LabelName::new(name);
        let definitions = self.definitions.as_slice();
        let at = definitions.partition_point(|it| it.name.compare(&wanted).is_lt());
        let Some(found) = definitions.get(at) else {
            return None;
        };
        if found.name.is(&wanted) {
            Some(found.place)
        } else {
            None
        }
    }
}
