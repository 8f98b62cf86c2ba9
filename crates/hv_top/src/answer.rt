//! What an input is answered.

ghost use Rattle.std.specs.Prelude.{◌≡◌, ◌≤◌, false, length, IfOk, OnOk};
ghost use Rattle.hv_limits.specs.Limits.{input_limit};
ghost use Rattle.hv_top.specs.Answer.{output_in};
ghost use Rattle.hv_top.specs.Commands.{IsPromised, output_of, reads_input};
ghost use Rattle.hv_top.specs.Output.{Text, refusal};

use crate::asm::assembled;
use crate::check::checked;
use crate::debugging::debugged;
use crate::dis::disassembled;
use crate::generating::generated;
use crate::running::reported;
use crate::saving::saved;
use hv_text::{put, put_line, put_number};
use hv_words::Command;
use std::alloc::{AllocError, Global};

/// A text to be written: that of a command, or the line that refuses its input.
#[derive(Drop)]
pub struct Answer {
    pub text: Vec<u8>,
    pub refused: bool,
}

/// What this input is answered under a command.
#[tactic(auto, unfolding(crate::specs::Commands::output_of, crate::specs::Commands::IsPromised))]
pub fn answer_to(alloc: Global, command: Command, input: &[u8]) -> Result<Answer, AllocError>
    requires { length input.now ≤ input_limit }
    ensures output { IfOk result (λ answer. output_in answer ≡ output_of command input.now) }
    ensures promised { OnOk result (IsPromised command input.now) }
    ensures accepted { IfOk result (λ answer. reads_input command ≡ false → answer.refused ≡ false) }
{
    match command {
        Command::Run { plain } => reported(alloc, input, plain),
        Command::Check => checked(alloc, input),
        Command::Asm => assembled(alloc, input),
        Command::Dis => disassembled(alloc, input),
        Command::Debug => debugged(alloc, input),
        Command::Save => saved(alloc, input),
        Command::Gen { number } => generated(alloc, number),
    }
}

/// The text of a command.
pub fn written(text: Vec<u8>) -> Answer
    ensures output { output_in result ≡ Text text.items }
    ensures accepted { result.refused ≡ false }
{
    Answer {
        text,
        refused: false,
    }
}

/// The refusal of the line of this number.
pub fn refused(alloc: Global, line: u64, kind: &str) -> Result<Answer, AllocError>
    ensures { IfOk result (λ answer. output_in answer ≡ refusal line kind.now) }
{
    let mut text = Vec::new(alloc);
    put_number(&mut text, b"refused line ", line)?;
    put(&mut text, b": ")?;
    put_line(&mut text, kind.as_bytes())?;
    Ok(Answer {
        text,
        refused: true,
    })
}
