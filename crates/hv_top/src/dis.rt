//! The command `dis`.

ghost use Rattle.std.specs.Prelude.{◌≡◌, ◌≤◌, ◌++◌, length, IfOk, OnOk};
ghost use Rattle.hv_dis.specs.Dis.{dis_of};
ghost use Rattle.hv_limits.specs.Limits.{input_limit};
ghost use Rattle.hv_text.specs.Text.{line as line_of};
ghost use Rattle.hv_top.specs.Answer.{output_in};
ghost use Rattle.hv_top.specs.Dis.{dis_output, word_in};

use crate::answer::{Answer, refused, written};
use hv_dis::disassemble;
use hv_lex::{first_line, read_number};
use hv_text::put_line;
use std::alloc::{AllocError, Global};

/// The instruction of each line, or the refusal of the first line that isn't exactly eight hexadecimal digits.
pub fn disassembled(alloc: Global, input: &[u8]) -> Result<Answer, AllocError>
    requires { length input.now ≤ input_limit }
    ensures { IfOk result (λ answer. output_in answer ≡ dis_output input.now) }
{
    let mut text = Vec::new(alloc);
    let mut rest = input;
    let mut number = 1;
    while !rest.is_empty() {
        let (line, behind) = first_line(rest);
        let Some(word) = word(line) else {
            return refused(alloc, number, "number");
        };
        put_instruction(alloc, &mut text, word)?;
        number += 1;
        rest = behind;
    }
    Ok(written(text))
}

// The word that eight hexadecimal digits are.
#[tactic(auto, unfolding(crate::specs::Dis::word_in))]
fn word(digits: &[u8]) -> Option<u32>
    ensures { result ≡ word_in digits.now }
{
    if digits.len() != 8 {
        return None;
    }
    let mut number = *b"0x00000000";
    number[2..].copy_from_slice(digits);
    read_number(&number)
}

// Appends the line of a word.
fn put_instruction(alloc: Global, out: &mut Vec<u8>, word: u32) -> Result<(), AllocError>
    ensures { OnOk result (out.new.items ≡ out.old.items ++ line_of (dis_of word)) }
{
    let instruction = disassemble(alloc, word)?;
    put_line(out, instruction.as_bytes())
}
