//! The command `asm`.

ghost use Rattle.std.specs.Prelude.{◌≡◌, ◌≤◌, ◌++◌, length, IfOk, OnOk};
ghost use Rattle.hv_limits.specs.Limits.{input_limit};
ghost use Rattle.hv_top.specs.Answer.{output_in};
ghost use Rattle.hv_top.specs.Asm.{asm_output, word_lines};

use crate::answer::{Answer, refused, written};
use hv_asm::{AsmEnd, assemble};
use hv_text::{hex8, put_line};
use std::alloc::{AllocError, Global};

/// The words of an assembly text whose first address is 0, each as eight hexadecimal digits on a line of its own, or the
/// refusal of the least line that is refused.
pub fn assembled(alloc: Global, input: &[u8]) -> Result<Answer, AllocError>
    requires { length input.now ≤ input_limit }
    ensures { IfOk result (λ answer. output_in answer ≡ asm_output input.now) }
{
    match assemble(alloc, input, 0) {
        Ok(image) => {
            let mut text = Vec::new(alloc);
            put_words(&mut text, image.words.as_slice())?;
            Ok(written(text))
        }
        Err(AsmEnd::AsmFault { line, kind }) => refused(alloc, u64::from(line), kind.word()),
        Err(AsmEnd::Memory) => Err(AllocError),
    }
}

// Appends each word on a line of its own.
#[tactic(auto, unfolding(crate::specs::Asm::word_lines))]
fn put_words(out: &mut Vec<u8>, words: &[u32]) -> Result<(), AllocError>
    ensures { OnOk result (out.new.items ≡ out.old.items ++ word_lines words.now) }
{
    for word in words {
        put_line(out, &hex8(*word))?;
    }
    Ok(())
}
