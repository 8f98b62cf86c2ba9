//! The top call: from the words and the input of the program to its output and its status.
#![tactic(auto)]

ghost use Rattle.std.specs.Prelude.{◌≡◌, ◌≢◌, ◌↔◌, ◌+◌, ◌++◌, ◌<◌, ◌≤◌, [], true, false, Some, length, map, string_bytes, IfOk, IfSome, IsErr};
ghost use Rattle.std.specs.Io.KnownBytes.{Appends, IsAtEnd};
ghost use Rattle.hv_io.specs.Faults.{Rose};
ghost use Rattle.hv_io.specs.Whole.{Gives, AppendsFront, LacksRoom};
ghost use Rattle.hv_limits.specs.Limits.{input_limit};
ghost use Rattle.hv_words.specs.Table.{command_of};
ghost use Rattle.hv_top.specs.Commands.{IsPromised, OnInput, output_of, reads, reads_input as reads_input_of};
ghost use Rattle.hv_top.specs.Output.{Ends, IsAnswer, IsRefusalAnd, IsTextAnd, WritesNothing, text_of};

mod answer;
mod asm;
mod check;
mod debugging;
mod dis;
#[cfg(test)]
mod engine_tests;
mod first;
mod generating;
mod opening;
mod playing;
mod running;
mod saving;
#[cfg(test)]
mod tests;

use answer::answer_to;
use hv_io::{HonestSource, MemSink, ReadEnd, Sink, Source, read_all, write_all};
use hv_words::{Command, read_words};
use std::alloc::Global;

/// The text of the command was written whole.
pub const DONE: u8 = 0;
/// The words name no command.
pub const USAGE: u8 = 2;
/// The input was refused, and the line that says so was written whole.
pub const REFUSED: u8 = 3;
/// The input is too long.
pub const TOO_LONG: u8 = 4;
/// The input couldn't be read.
pub const READ_FAULT: u8 = 5;
/// The output couldn't be written.
pub const WRITE_FAULT: u8 = 6;
/// Memory is wanting.
pub const NO_MEMORY: u8 = 7;

/// Runs the command that the words name on the bytes of the source, read to its end, and writes its text to the sink, or
/// the line that refuses the input. The answer is the program's status. All output is made before the first byte is
/// written. A command that makes its own job reads nothing.
pub fn virtualize<S: Source, K: Sink>(
    alloc: Global,
    words: &[String],
    source: &mut S,
    sink: &mut K,
) -> u8
    // Exactly the command's text was appended, or exactly the line that refuses the input; all of the input was read.
    ensures done { result ≡ DONE → IfOk (command_of (map string_bytes words.now)) (λ command.
        OnInput command (S.left source.old) (λ input.
        IsTextAnd (output_of command input) (Appends (K.held sink.old) (K.held sink.new)))) }
    ensures refused { result ≡ REFUSED → IfOk (command_of (map string_bytes words.now)) (λ command.
        OnInput command (S.left source.old) (λ input.
        IsRefusalAnd (output_of command input) (Appends (K.held sink.old) (K.held sink.new)))) }

    // Of the machines that were played, it holds what is promised: no watched machine that stands apart can tell, and each
    // fault reached the first level that refuses.
    ensures promised { result ≡ DONE → IfOk (command_of (map string_bytes words.now)) (λ command.
        OnInput command (S.left source.old) (IsPromised command)) }
    ensures ended { reads (command_of (map string_bytes words.now)) ≡ true → Ends result (IsAtEnd (S.left source.new)) }

    // The words name no command, and only then: nothing is read or written.
    ensures usage { (result ≡ USAGE) ↔ IsErr (command_of (map string_bytes words.now)) }

    // Nothing is read for other words, nor for a command that makes its own job. Such a job isn't refused.
    ensures unread { reads (command_of (map string_bytes words.now)) ≡ false → source.new ≡ source.old }
    ensures unblamed { reads (command_of (map string_bytes words.now)) ≡ false →
        (result ≢ TOO_LONG) × (result ≢ READ_FAULT) × (result ≢ REFUSED) }

    // More bytes than the limit were given, and only then.
    ensures long { reads (command_of (map string_bytes words.now)) ≡ true →
        Gives (S.left source.old) (S.left source.new) (λ count. (result ≡ TOO_LONG) ↔ (input_limit < count)) }
    ensures longer { result ≡ TOO_LONG → IfSome (S.left source.old) (λ input. input_limit < length input) }

    // A fault comes only where the count of that side rose. A front of the output was appended.
    ensures read { result ≡ READ_FAULT → Rose (S.faults source.old) (S.faults source.new) }
    ensures write { result ≡ WRITE_FAULT → Rose (K.faults sink.old) (K.faults sink.new) }
    ensures front { result ≡ WRITE_FAULT → IfOk (command_of (map string_bytes words.now)) (λ command.
        OnInput command (S.left source.old) (λ input.
        AppendsFront (K.held sink.old) (K.held sink.new) (text_of (output_of command input)))) }
    ensures room { result ≡ WRITE_FAULT → IfOk (command_of (map string_bytes words.now)) (λ command.
        OnInput command (S.left source.old) (λ input.
        LacksRoom (K.made sink.old) (K.held sink.old) (length (text_of (output_of command input))))) }
    ensures unwritten { WritesNothing result (sink.new ≡ sink.old) }

    // Where nothing outside fails and the input isn't too long, it is answered, unless memory is wanting.
    ensures complete { ¬ Rose (S.faults source.old) (S.faults source.new) →
        ¬ Rose (K.faults sink.old) (K.faults sink.new) →
        IfOk (command_of (map string_bytes words.now)) (λ command.
        OnInput command (S.left source.old) (λ input.
        length input ≤ input_limit → IsAnswer (output_of command input) result)) }
    ensures statuses { (result ≤ NO_MEMORY) × (result ≢ 1) }

    // What either side was made with stays.
    ensures source { S.made source.new ≡ S.made source.old }
    ensures sink { K.made sink.new ≡ K.made sink.old }
{
    let Ok(command) = read_words(words) else {
        return USAGE;
    };
    if reads_input(command) {
        answer_source(alloc, command, source, sink)
    } else {
        answer_input(alloc, command, &[], sink)
    }
}

/// `virtualize` over a source that never fails. Reading never fails, and where no call of the sink was made to fail and
/// it has room for the output, writing doesn't either: the input is answered, unless memory is wanting.
pub fn virtualize_honest(
    alloc: Global,
    words: &[String],
    source: &mut HonestSource,
    sink: &mut MemSink,
) -> u8
    ensures done { result ≡ DONE → IfOk (command_of (map string_bytes words.now)) (λ command.
        OnInput command (Some source.old) (λ input.
        IsTextAnd (output_of command input) (λ text. sink.new.held ≡ sink.old.held ++ text))) }
    ensures refused { result ≡ REFUSED → IfOk (command_of (map string_bytes words.now)) (λ command.
        OnInput command (Some source.old) (λ input.
        IsRefusalAnd (output_of command input) (λ text. sink.new.held ≡ sink.old.held ++ text))) }
    ensures promised { result ≡ DONE → IfOk (command_of (map string_bytes words.now)) (λ command.
        OnInput command (Some source.old) (IsPromised command)) }
    ensures usage { (result ≡ USAGE) ↔ IsErr (command_of (map string_bytes words.now)) }
    ensures unread { reads (command_of (map string_bytes words.now)) ≡ false → source.new ≡ source.old }
    ensures long { result ≡ TOO_LONG → input_limit < length source.old }
    ensures read { result ≢ READ_FAULT }
    ensures write { IfOk (command_of (map string_bytes words.now)) (λ command.
        OnInput command (Some source.old) (λ input. sink.old.fails ≡ [] →
        length sink.old.held + length (text_of (output_of command input)) < sink.old.room → result ≢ WRITE_FAULT)) }
    ensures complete { IfOk (command_of (map string_bytes words.now)) (λ command.
        OnInput command (Some source.old) (λ input. length input ≤ input_limit → sink.old.fails ≡ [] →
        length sink.old.held + length (text_of (output_of command input)) < sink.old.room →
        IsAnswer (output_of command input) result)) }
    ensures statuses { (result ≤ NO_MEMORY) × (result ≢ 1) }
{
    virtualize(alloc, words, source, sink)
}

// A command reads an input, unless it makes its own job.
fn reads_input(command: Command) -> bool
    ensures { result ≡ reads_input_of command }
{
    match command {
        Command::Run { plain: _ }
        | Command::Check
        | Command::Asm
        | Command::Dis
        | Command::Debug
        | Command::Save => true,
        Command::Gen { number: _ } => false,
    }
}

// Reads the source to its end, and writes what the command answers.
fn answer_source<S: Source, K: Sink>(
    alloc: Global,
    command: Command,
    source: &mut S,
    sink: &mut K,
) -> u8
    ensures done { result ≡ DONE → IfSome (S.left source.old) (λ input.
        IsTextAnd (output_of command input) (Appends (K.held sink.old) (K.held sink.new))) }
    ensures refused { result ≡ REFUSED → IfSome (S.left source.old) (λ input.
        IsRefusalAnd (output_of command input) (Appends (K.held sink.old) (K.held sink.new))) }
    ensures promised { result ≡ DONE → IfSome (S.left source.old) (IsPromised command) }
    ensures ended { Ends result (IsAtEnd (S.left source.new)) }
    ensures long { Gives (S.left source.old) (S.left source.new) (λ count. (result ≡ TOO_LONG) ↔ (input_limit < count)) }
    ensures longer { result ≡ TOO_LONG → IfSome (S.left source.old) (λ input. input_limit < length input) }
    ensures read { result ≡ READ_FAULT → Rose (S.faults source.old) (S.faults source.new) }
    ensures write { result ≡ WRITE_FAULT → Rose (K.faults sink.old) (K.faults sink.new) }
    ensures front { result ≡ WRITE_FAULT → IfSome (S.left source.old) (λ input.
        AppendsFront (K.held sink.old) (K.held sink.new) (text_of (output_of command input))) }
    ensures room { result ≡ WRITE_FAULT → IfSome (S.left source.old) (λ input.
        LacksRoom (K.made sink.old) (K.held sink.old) (length (text_of (output_of command input)))) }
    ensures unwritten { WritesNothing result (sink.new ≡ sink.old) }
    ensures complete { ¬ Rose (S.faults source.old) (S.faults source.new) →
        ¬ Rose (K.faults sink.old) (K.faults sink.new) →
        IfSome (S.left source.old) (λ input.
        length input ≤ input_limit → IsAnswer (output_of command input) result) }
    ensures statuses { (result ≤ NO_MEMORY) × (result ≢ 1) × (result ≢ USAGE) }
    ensures source { S.made source.new ≡ S.made source.old }
    ensures sink { K.made sink.new ≡ K.made sink.old }
{
    match read_all(alloc, source) {
        Ok(input) => answer_input(alloc, command, &input, sink),
        Err(ReadEnd::ReadFault) => READ_FAULT,
        Err(ReadEnd::TooLong { limit: _ }) => TOO_LONG,
        Err(ReadEnd::Memory) => NO_MEMORY,
    }
}

// Writes what the command answers an input.
fn answer_input<K: Sink>(alloc: Global, command: Command, input: &[u8], sink: &mut K) -> u8
    requires { length input.now ≤ input_limit }
    ensures done { result ≡ DONE → IsTextAnd (output_of command input.now) (Appends (K.held sink.old) (K.held sink.new)) }
    ensures refused { result ≡ REFUSED →
        IsRefusalAnd (output_of command input.now) (Appends (K.held sink.old) (K.held sink.new)) }
    ensures promised { result ≡ DONE → IsPromised command input.now }
    ensures write { result ≡ WRITE_FAULT → Rose (K.faults sink.old) (K.faults sink.new) }
    ensures front { result ≡ WRITE_FAULT →
        AppendsFront (K.held sink.old) (K.held sink.new) (text_of (output_of command input.now)) }
    ensures room { result ≡ WRITE_FAULT →
        LacksRoom (K.made sink.old) (K.held sink.old) (length (text_of (output_of command input.now))) }
    ensures unwritten { WritesNothing result (sink.new ≡ sink.old) }
    ensures complete { ¬ Rose (K.faults sink.old) (K.faults sink.new) → IsAnswer (output_of command input.now) result }
    ensures statuses { (result ≤ NO_MEMORY) × (result ≢ 1) × (result ≢ USAGE) × (result ≢ TOO_LONG) × (result ≢ READ_FAULT) }
    ensures accepted { reads_input_of command ≡ false → result ≢ REFUSED }
    ensures sink { K.made sink.new ≡ K.made sink.old }
{
    let Ok(answer) = answer_to(alloc, command, input) else {
        return NO_MEMORY;
    };
    if write_all(sink, &answer.text).is_err() {
        return WRITE_FAULT;
    }
    if answer.refused { REFUSED } else { DONE }
}
