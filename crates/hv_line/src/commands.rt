//! The commands of the debugger, each as its words.

ghost use Rattle.std.specs.Prelude.{◌≡◌, IfOk};
ghost use Rattle.hv_line.specs.Commands.{break_command_of, command_of, command_with, faults_command_of, join_words_of, map_command_of, mem_command_of, path_command_of, regs_command_of, step_command_of};
ghost use Rattle.hv_line.specs.Lines.{words_of};
ghost use Rattle.hv_line.specs.Texts.{texts};

use crate::kinds::JobKind;
use crate::lines::{first_word, read_words};
use crate::types::DebugCommand;
use crate::version::JobVersion;
use crate::words::{self, is};
use hv_limits::STEPS;
use hv_list::Items;
use std::alloc::{AllocError, Global};

/// The command that a line is.
#[tactic(auto, unfolding(crate::specs::Commands::command_of))]
pub fn read_command(version: JobVersion, line: &[u8]) -> Result<DebugCommand, JobKind>
    ensures { result ≡ command_of version (words_of line.now) }
{
    match read_words(line).as_slice() {
        [first, behind @ ..] => command(version, first, behind),
        [] => Err(JobKind::Directive),
    }
}

// The command with this first word.
#[tactic(auto, unfolding(crate::specs::Commands::command_with))]
fn command(version: JobVersion, first: &[u8], behind: &[&[u8]]) -> Result<DebugCommand, JobKind>
    ensures { result ≡ command_with version first.now (texts behind.now) }
{
    match first {
        _ if is(first, b"step") => step_command(behind),
        _ if is(first, b"break") => break_command(behind),
        _ if is(first, b"regs") => regs_command(behind),
        _ if is(first, b"mem") => mem_command(behind),
        _ if is(first, b"path") => path_command(version, behind),
        _ if is(first, b"map") => map_command(behind),
        _ if is(first, b"faults") => faults_command(behind),
        _ => Err(JobKind::Directive),
    }
}

#[tactic(auto, unfolding(crate::specs::Commands::step_command_of))]
fn step_command(behind: &[&[u8]]) -> Result<DebugCommand, JobKind>
    ensures { result ≡ step_command_of (texts behind.now) }
{
    let [n] = behind else {
        return Err(JobKind::Words);
    };
    let count = words::between(1, STEPS as u32, n)?;
    Ok(DebugCommand::Step { count })
}

#[tactic(auto, unfolding(crate::specs::Commands::break_command_of))]
fn break_command(behind: &[&[u8]]) -> Result<DebugCommand, JobKind>
    ensures { result ≡ break_command_of (texts behind.now) }
{
    let [name, a] = behind else {
        return Err(JobKind::Words);
    };
    let name = words::named(name)?;
    let at = words::number(a)?;
    Ok(DebugCommand::Break { name, at })
}

#[tactic(auto, unfolding(crate::specs::Commands::regs_command_of))]
fn regs_command(behind: &[&[u8]]) -> Result<DebugCommand, JobKind>
    ensures { result ≡ regs_command_of (texts behind.now) }
{
    let [name] = behind else {
        return Err(JobKind::Words);
    };
    let name = words::named(name)?;
    Ok(DebugCommand::Regs { name })
}

#[tactic(auto, unfolding(crate::specs::Commands::mem_command_of))]
fn mem_command(behind: &[&[u8]]) -> Result<DebugCommand, JobKind>
    ensures { result ≡ mem_command_of (texts behind.now) }
{
    let [name, a] = behind else {
        return Err(JobKind::Words);
    };
    let name = words::named(name)?;
    let at = words::address(a)?;
    Ok(DebugCommand::Mem { name, at })
}

#[tactic(auto, unfolding(crate::specs::Commands::path_command_of))]
fn path_command(version: JobVersion, behind: &[&[u8]]) -> Result<DebugCommand, JobKind>
    ensures { result ≡ path_command_of version (texts behind.now) }
{
    let [h] = behind else {
        return Err(JobKind::Words);
    };
    let hart = words::hart(version, h)?;
    Ok(DebugCommand::Path { hart })
}

#[tactic(auto, unfolding(crate::specs::Commands::map_command_of))]
fn map_command(behind: &[&[u8]]) -> Result<DebugCommand, JobKind>
    ensures { result ≡ map_command_of (texts behind.now) }
{
    let [name, i] = behind else {
        return Err(JobKind::Words);
    };
    let name = words::named(name)?;
    let page = words::page(i)?;
    Ok(DebugCommand::Map { name, page })
}

#[tactic(auto, unfolding(crate::specs::Commands::faults_command_of))]
fn faults_command(behind: &[&[u8]]) -> Result<DebugCommand, JobKind>
    ensures { result ≡ faults_command_of (texts behind.now) }
{
    match behind {
        [] => Ok(DebugCommand::Faults),
        _ => Err(JobKind::Words),
    }
}

/// The words of a line with one blank between them.
#[tactic(auto, unfolding(crate::specs::Commands::join_words_of))]
pub fn join_words(alloc: Global, line: &[u8]) -> Result<Items<u8>, AllocError>
    ensures { IfOk result (λ words. words ≡ join_words_of (words_of line.now)) }
{
    let Some((word, mut rest)) = first_word(line) else {
        return Ok(Items::new(Vec::new(alloc)));
    };
    let mut joined = word.to_vec(alloc)?;
    while let Some((word, behind)) = first_word(rest) {
        joined.push(b' ')?;
        joined.extend_from_slice(word)?;
        rest = behind;
    }
    Ok(Items::new(joined))
}
