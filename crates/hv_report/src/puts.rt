//! Pieces of text.

ghost use Rattle.std.specs.Prelude.{◌≡◌, ◌++◌, OnOk};
ghost use Rattle.hv_report.specs.Report.{answer_text, path_text, syllables_text};

use hv_map::Path;
use hv_text::{put, put_decimal, put_number};
use std::alloc::AllocError;

/// Appends the syllables of a path with dots between them, or `-` for that of the bare machine.
pub fn put_path(out: &mut Vec<u8>, path: &Path) -> Result<(), AllocError>
    ensures { OnOk result (out.new.items ≡ out.old.items ++ path_text path.now) }
{
    match path.as_slice().split_first() {
        Some((syllable, path)) => {
            put_decimal(out, u64::from(*syllable))?;
            put_syllables(out, path)
        }
        None => put(out, b"-"),
    }
}

// Appends each syllable behind a dot.
#[tactic(auto, unfolding(crate::specs::Report::syllables_text))]
fn put_syllables(out: &mut Vec<u8>, path: &[u32]) -> Result<(), AllocError>
    ensures { OnOk result (out.new.items ≡ out.old.items ++ syllables_text path.now) }
{
    for syllable in path {
        put_number(out, b".", u64::from(*syllable))?;
    }
    Ok(())
}

// Appends a label and an answer.
pub(crate) fn put_answer(out: &mut Vec<u8>, label: &[u8], answer: bool) -> Result<(), AllocError>
    ensures { OnOk result (out.new.items ≡ out.old.items ++ label.now ++ answer_text answer) }
{
    put(out, label)?;
    put(out, if answer { b"yes" } else { b"no" })
}
