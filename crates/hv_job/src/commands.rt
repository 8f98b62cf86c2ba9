//! The commands of the debugger, which stand behind the directives.

ghost use Rattle.std.specs.Prelude.{◌≡◌, ◌+◌, ◌<◌, ◌^◌, false, if◌then◌else◌, [], length, OnOk};
ghost use Rattle.hv_lex.specs.Lines.{lines_of};
ghost use Rattle.hv_line.specs.Lines.{words_of};
ghost use Rattle.hv_job.specs.Commands.{commands_from, commands_with, is_over as is_over_of, line_commands};
ghost use Rattle.hv_job.specs.Drafted.{GivesCommands, Makes};
ghost use Rattle.hv_job.specs.IsJob.{is_break};

use crate::ends::JobEnd;
use crate::images::at_line;
use crate::job::DebugLine;
use hv_lex::first_line;
use hv_line::{
    DebugCommand, JOB_BREAKS, JOB_COMMANDS, JobKind, JobLineEnd, JobVersion, has_allowed_bytes,
    has_words, join_words, read_command,
};
use hv_list::Items;
use std::alloc::{AllocError, Global};
use std::marker::Model;

// The commands so far, in the order of their lines, with how many of them are breakpoints. It is seen as the list of the
// commands.
#[derive(Drop)]
struct Commands {
    items: Vec<DebugLine>,
    breaks: u32,
}

impl Model for Commands {
    ghost use Rattle.std.specs.Prelude.{◌≡◌, ◌≤◌, List};
    ghost use Rattle.hv_job.specs.IsJob.{breaks_in};
    ghost use Rattle.hv_job.specs.declared.job.DebugLine.{DebugLine};
    ghost use Rattle.hv_line.specs.JobLimits.{job_breaks};

    ghost Value = { List DebugLine };

    ghost view = { λ c. c.items.items };

    ghost invariant = { λ c. (c.breaks ≡ breaks_in c.items.items) × (c.breaks ≤ job_breaks) };
}

// Whether it is a breakpoint, as a number.
fn breaks_of(what: &DebugCommand) -> u32
    ensures { result ≡ (if is_break what.now then 1 else 0) }
{
    match what {
        DebugCommand::Break { .. } => 1,
        _ => 0,
    }
}

impl Commands {
    fn new(alloc: Global) -> Commands
        ensures { result ≡ [] }
    {
        Commands {
            items: Vec::new(alloc),
            breaks: 0,
        }
    }

    // Whether a limit is passed with a command.
    #[tactic(auto, unfolding(crate::specs::Commands::is_over))]
    fn is_over(&self, what: &DebugCommand) -> bool
        ensures { result ≡ is_over_of self.now what.now }
    {
        match what {
            DebugCommand::Break { .. } => self.items.len() >= JOB_COMMANDS
                || self.breaks >= JOB_BREAKS,
            _ => self.items.len() >= JOB_COMMANDS,
        }
    }

    // Appends a command that passes no limit.
    fn push(&mut self, line: u32, words: Items<u8>, what: DebugCommand) -> Result<(), AllocError>
        requires { is_over_of self.old what ≡ false }
        ensures { OnOk result (self.new ≡ commands_with self.old line words what) }
    {
        let breaks = breaks_of(&what);
        self.items.push(DebugLine { line, words, what })?;
        self.breaks += breaks;
        Ok(())
    }

    // Appends the command of a line, if it has words.
    #[tactic(auto, unfolding(crate::specs::Commands::line_commands))]
    fn add(
        &mut self,
        alloc: Global,
        version: JobVersion,
        number: u32,
        line: &[u8],
    ) -> Result<(), JobLineEnd>
        ensures { Makes result (line_commands version self.old number line.now) self.new }
    {
        if !has_allowed_bytes(line) {
            return Err(JobLineEnd::Fault(JobKind::Byte));
        }
        if !has_words(line) {
            return Ok(());
        }
        let what = match read_command(version, line) {
            Ok(what) => what,
            Err(kind) => return Err(JobLineEnd::Fault(kind)),
        };
        if self.is_over(&what) {
            return Err(JobLineEnd::Fault(JobKind::Many));
        }
        let words = join_words(alloc, line)?;
        self.push(number, words, what)?;
        Ok(())
    }

    fn into_items(self) -> Items<DebugLine>
        ensures { result ≡ self }
    {
        Items::new(self.items)
    }
}

/// The commands of a text, which is what stands behind the directives of a job; its first line has the number `first`.
pub(crate) fn read_commands(
    alloc: Global,
    version: JobVersion,
    text: &[u8],
    first: u32,
) -> Result<Items<DebugLine>, JobEnd>
    requires { first + length text.now < 2 ^ 32 }
    ensures { GivesCommands result (commands_from version [] first (lines_of text.now)) }
{
    let mut commands = Commands::new(alloc);
    let mut rest = text;
    let mut number = first;
    while !rest.is_empty() {
        let (line, behind) = first_line(rest);
        if let Err(end) = commands.add(alloc, version, number, line) {
            return Err(at_line(end, number));
        }
        number += 1;
        rest = behind;
    }
    Ok(commands.into_items())
}
