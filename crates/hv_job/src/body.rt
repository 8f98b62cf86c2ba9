//! The lines of a text, in the order in which they must stand.

ghost use Rattle.std.specs.Prelude.{◌≡◌, ◌+◌, ◌<◌, ◌≤◌, ◌^◌, false, length, IfOk};
ghost use Rattle.hv_lex.specs.Lines.{lines_of};
ghost use Rattle.hv_job.specs.Drafted.{ContinuesAt, GivesDraft, GivesJob, LeadsTo};
ghost use Rattle.hv_line.specs.Ranges.{IsStatement};
ghost use Rattle.hv_job.specs.JobOf.{draft_with, begins_image, body_from, draft_of, header_from, is_debug as is_debug_of, is_image, line_with, storage_from};
ghost use Rattle.hv_line.specs.Lines.{words_of};
ghost use Rattle.hv_line.specs.declared.version.JobVersion.{JobVersion};

use crate::commands::read_commands;
use crate::draft::Draft;
use crate::ends::JobEnd;
use crate::images::{Rest, at_line, read_image};
use crate::job::Job;
use hv_lex::first_line;
use hv_line::{
    JobKind, JobLineEnd, JobVersion, Statement, begins_with, has_allowed_bytes, has_words, is_only,
    read_statement, read_storage_line, read_version,
};
use hv_list::Items;
use std::alloc::Global;

/// Which form the text has, and what is behind its header line.
pub(crate) fn read_header(text: &[u8]) -> Result<(JobVersion, Rest<'_>), JobEnd>
    requires { length text.now + 1 < 2 ^ 32 }
    ensures rest { LeadsTo result (header_from 1 (lines_of text.now)) (λ found. storage_from found.0 found.1.number (lines_of found.1.text.now)) }
    ensures size { IfOk result (λ found. found.1.number + length found.1.text.now ≤ length text.now + 1) }
{
    let mut rest = text;
    let mut number = 1;
    while !rest.is_empty() {
        let (line, behind) = first_line(rest);
        if !has_allowed_bytes(line) {
            return refused(number, JobKind::Byte);
        }
        if has_words(line) {
            let Some(version) = read_version(line) else {
                return refused(number, JobKind::Header);
            };
            let rest = Rest {
                text: behind,
                number: number + 1,
            };
            return Ok((version, rest));
        }
        number += 1;
        rest = behind;
    }
    refused(number, JobKind::Header)
}

/// The pages of the storage, and what is behind its line. The line is the same in texts of each form.
pub(crate) fn read_storage(text: &[u8], first: u32) -> Result<(u32, Rest<'_>), JobEnd>
    requires { first + length text.now < 2 ^ 32 }
    ensures rest { (version : JobVersion) → LeadsTo result (storage_from version first (lines_of text.now))
        (λ found. body_from (draft_of version found.0) false found.1.number (lines_of found.1.text.now)) }
    ensures size { IfOk result (λ found. found.1.number + length found.1.text.now ≤ first + length text.now) }
{
    let mut rest = text;
    let mut number = first;
    while !rest.is_empty() {
        let (line, behind) = first_line(rest);
        if !has_allowed_bytes(line) {
            return refused(number, JobKind::Byte);
        }
        if has_words(line) {
            return match read_storage_line(line) {
                Ok(pages) => {
                    let rest = Rest {
                        text: behind,
                        number: number + 1,
                    };
                    Ok((pages, rest))
                }
                Err(kind) => refused(number, kind),
            };
        }
        number += 1;
        rest = behind;
    }
    refused(number, JobKind::Storage)
}

/// The job of a storage and of all lines behind it.
pub(crate) fn read_body(
    alloc: Global,
    version: JobVersion,
    pages: u32,
    text: &[u8],
    first: u32,
) -> Result<Job, JobEnd>
    requires { first + length text.now < 2 ^ 32 }
    ensures { GivesJob result (body_from (draft_of version pages) false first (lines_of text.now)) }
{
    let mut draft = Draft::new(alloc, version, pages);
    let mut rest = text;
    let mut number = first;
    while !rest.is_empty() {
        let (line, behind) = first_line(rest);
        if is_debug(line) {
            let commands = read_commands(alloc, draft.version, behind, number + 1)?;
            return Ok(draft.into_job(commands));
        }
        let next = read_line(alloc, &mut draft, number, line, behind)?;
        number = next.number;
        rest = next.text;
    }
    Ok(draft.into_job(Items::new(Vec::new(alloc))))
}

// Whether a line ends the directives.
#[tactic(auto, unfolding(crate::specs::JobOf::is_debug))]
fn is_debug(line: &[u8]) -> bool
    ensures { result ≡ is_debug_of line.now }
{
    is_only(b"debug", line) && has_allowed_bytes(line)
}

// Reads a line, and the lines of its image if it begins one.
#[tactic(auto, unfolding(crate::specs::JobOf::line_with))]
fn read_line<'a>(
    alloc: Global,
    draft: &mut Draft,
    number: u32,
    line: &[u8],
    behind: &'a [u8],
) -> Result<Rest<'a>, JobEnd>
    requires { number + length behind.now + 1 < 2 ^ 32 }
    ensures draft { GivesDraft result (line_with draft.old number line.now (lines_of behind.now)) draft.new }
    ensures rest { IfOk result (λ rest. body_from draft.new (begins_image draft.old.version line.now) (number + 1) (lines_of behind.now)
        ≡ body_from draft.new false rest.number (lines_of rest.text.now)) }
    ensures size { IfOk result (λ rest. rest.number + length rest.text.now ≤ number + 1 + length behind.now) }
    ensures later { IfOk result (λ rest. number < rest.number) }
{
    if !has_allowed_bytes(line) {
        return refused(number, JobKind::Byte);
    }
    if !has_words(line) {
        return Ok(Rest {
            text: behind,
            number: number + 1,
        });
    }
    if begins_with(b"debug", line) {
        return refused(number, JobKind::Words);
    }
    match read_statement(alloc, draft.version, line) {
        Ok(statement) => add(alloc, draft, number, statement, behind),
        Err(end) => Err(at_line(end, number)),
    }
}

// Does what a line says.
fn add<'a>(
    alloc: Global,
    draft: &mut Draft,
    number: u32,
    statement: Statement,
    behind: &'a [u8],
) -> Result<Rest<'a>, JobEnd>
    requires statement { IsStatement statement }
    requires length { number + length behind.now + 1 < 2 ^ 32 }
    ensures draft { GivesDraft result (draft_with draft.old number (lines_of behind.now) statement) draft.new }
    ensures rest { IfOk result (λ rest. body_from draft.new (is_image (Ok statement)) (number + 1) (lines_of behind.now)
        ≡ body_from draft.new false rest.number (lines_of rest.text.now)) }
    ensures size { IfOk result (λ rest. rest.number + length rest.text.now ≤ number + 1 + length behind.now) }
    ensures later { IfOk result (λ rest. number < rest.number) }
{
    match statement {
        Statement::Harts { harts } => go_on(draft.set_harts(harts), number, behind),
        Statement::Image { name, at } => read_image(alloc, draft, number, name, at, behind),
        Statement::Sample { name, at, which } => {
            go_on(
                draft.add_sample(alloc, number, name, at, which),
                number,
                behind,
            )
        }
        Statement::Event(event) => go_on(draft.schedule(number, event), number, behind),
        Statement::Directive(what) => go_on(draft.place(number, what), number, behind),
    }
}

// What is behind a line that was done.
fn go_on(done: Result<(), JobLineEnd>, number: u32, behind: &[u8]) -> Result<Rest<'_>, JobEnd>
    requires { number + 1 < 2 ^ 32 }
    ensures { ContinuesAt result done number behind.now }
{
    match done {
        Ok(()) => Ok(Rest {
            text: behind,
            number: number + 1,
        }),
        Err(end) => Err(at_line(end, number)),
    }
}

// A refusal at a line.
fn refused<T>(line: u32, kind: JobKind) -> Result<T, JobEnd>
    ensures { result ≡ Err (JobEnd.JobFault line kind) }
{
    Err(JobEnd::JobFault { line, kind })
}
