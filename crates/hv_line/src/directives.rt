//! The directives of a job, each as its words.

ghost use Rattle.std.specs.Prelude.{◌≡◌};
ghost use Rattle.hv_line.specs.Answers.{GivesLine};
ghost use Rattle.hv_line.specs.Lines.{words_of};
ghost use Rattle.hv_line.specs.Statements.{dump_directive_of, hart_directive_of, harts_directive_of, image_directive_of, lines_directive_of, machine_directive_of, map_directive_of, sample_directive_of, start_directive_of, statement_of, statement_with, storage_line_of, storage_pages as storage_pages_of, storage_with, tower_directive_of, turn_directive_of, upgrade_directive_of, upgrade_in, watch_directive_of, word_directive_of};
ghost use Rattle.hv_line.specs.Texts.{texts};

use crate::kinds::{JobKind, JobLineEnd};
use crate::limits::JOB_VALUES;
use crate::lines::read_words;
use crate::types::{Directive, Statement};
use crate::version::JobVersion;
use crate::words::{self, is};
use hv_irq::Event;
use hv_limits::STEPS;
use hv_samples::Sample;
use std::alloc::Global;

/// What a line among the directives says. A line `storage` isn't one there.
#[tactic(auto, unfolding(crate::specs::Statements::statement_of))]
pub fn read_statement(
    alloc: Global,
    version: JobVersion,
    line: &[u8],
) -> Result<Statement, JobLineEnd>
    ensures { GivesLine result (statement_of version (words_of line.now)) }
{
    match read_words(line).as_slice() {
        [first, behind @ ..] => statement(alloc, version, first, behind),
        [] => Err(JobLineEnd::Fault(JobKind::Directive)),
    }
}

/// The pages of the storage, which the second line of a job says.
#[tactic(auto, unfolding(crate::specs::Statements::storage_line_of))]
pub fn read_storage_line(line: &[u8]) -> Result<u32, JobKind>
    ensures { result ≡ storage_line_of (words_of line.now) }
{
    match read_words(line).as_slice() {
        [first, behind @ ..] => storage(first, behind),
        [] => Err(JobKind::Storage),
    }
}

#[tactic(auto, unfolding(crate::specs::Statements::storage_with))]
fn storage(first: &[u8], behind: &[&[u8]]) -> Result<u32, JobKind>
    ensures { result ≡ storage_with first.now (texts behind.now) }
{
    if is(first, b"storage") {
        storage_pages(behind)
    } else {
        Err(JobKind::Storage)
    }
}

#[tactic(auto, unfolding(crate::specs::Statements::storage_pages))]
fn storage_pages(behind: &[&[u8]]) -> Result<u32, JobKind>
    ensures { result ≡ storage_pages_of (texts behind.now) }
{
    let [p] = behind else {
        return Err(JobKind::Words);
    };
    words::pages(p)
}

// What the line with this first word says.
#[tactic(auto, unfolding(crate::specs::Statements::statement_with))]
fn statement(
    alloc: Global,
    version: JobVersion,
    first: &[u8],
    behind: &[&[u8]],
) -> Result<Statement, JobLineEnd>
    ensures { GivesLine result (statement_with version first.now (texts behind.now)) }
{
    match first {
        _ if is(first, b"harts") => at_once(harts_directive(version, behind)),
        _ if is(first, b"hart") => at_once(hart_directive(version, behind)),
        _ if is(first, b"machine") => at_once(machine_directive(behind)),
        _ if is(first, b"map") => at_once(map_directive(version, behind)),
        _ if is(first, b"start") => at_once(start_directive(behind)),
        _ if is(first, b"image") => at_once(image_directive(behind)),
        _ if is(first, b"sample") => at_once(sample_directive(behind)),
        _ if is(first, b"word") => word_directive(alloc, behind),
        _ if is(first, b"tower") => at_once(tower_directive(version, behind)),
        _ if is(first, b"turn") => at_once(turn_directive(version, behind)),
        _ if is(first, b"lines") => at_once(lines_directive(version, behind)),
        _ if is(first, b"watch") => at_once(watch_directive(version, behind)),
        _ if is(first, b"dump") => at_once(dump_directive(behind)),
        _ if is(first, b"upgrade") => at_once(upgrade(version, behind)),
        _ => Err(JobLineEnd::Fault(JobKind::Directive)),
    }
}

// What a line says that takes no memory.
fn at_once(read: Result<Statement, JobKind>) -> Result<Statement, JobLineEnd>
    ensures { GivesLine result read }
{
    match read {
        Ok(statement) => Ok(statement),
        Err(kind) => Err(JobLineEnd::Fault(kind)),
    }
}

#[tactic(auto, unfolding(crate::specs::Statements::harts_directive_of))]
fn harts_directive(version: JobVersion, behind: &[&[u8]]) -> Result<Statement, JobKind>
    ensures { result ≡ harts_directive_of version (texts behind.now) }
{
    let [n] = behind else {
        return Err(JobKind::Words);
    };
    let harts = words::between(1, version.harts(), n)?;
    Ok(Statement::Harts { harts })
}

#[tactic(auto, unfolding(crate::specs::Statements::hart_directive_of))]
fn hart_directive(version: JobVersion, behind: &[&[u8]]) -> Result<Statement, JobKind>
    ensures { result ≡ hart_directive_of version (texts behind.now) }
{
    let [h, a] = behind else {
        return Err(JobKind::Words);
    };
    let hart = words::hart(version, h)?;
    let pc = words::address(a)?;
    Ok(Statement::Directive(Directive::Hart { hart, pc }))
}

#[tactic(auto, unfolding(crate::specs::Statements::machine_directive_of))]
fn machine_directive(behind: &[&[u8]]) -> Result<Statement, JobKind>
    ensures { result ≡ machine_directive_of (texts behind.now) }
{
    let [
        name,
        word_in,
        parent,
        word_block,
        b,
        word_pages,
        n,
        word_table,
        t,
        word_at,
        p,
    ] = behind
    else {
        return Err(JobKind::Words);
    };
    let name = words::named(name)?;
    words::fixed(b"in", word_in)?;
    let parent = words::named(parent)?;
    words::fixed(b"block", word_block)?;
    let block = words::later_page(b)?;
    words::fixed(b"pages", word_pages)?;
    let pages = words::pages(n)?;
    words::fixed(b"table", word_table)?;
    let table = words::page(t)?;
    words::fixed(b"at", word_at)?;
    let at = words::page(p)?;
    Ok(Statement::Directive(Directive::Machine {
        name,
        parent,
        block,
        pages,
        table,
        at,
    }))
}

#[tactic(auto, unfolding(crate::specs::Statements::map_directive_of))]
fn map_directive(version: JobVersion, behind: &[&[u8]]) -> Result<Statement, JobKind>
    ensures { result ≡ map_directive_of version (texts behind.now) }
{
    match behind {
        [name, i, word_none] => {
            let name = words::named(name)?;
            let page = words::page(i)?;
            words::fixed(b"none", word_none)?;
            Ok(Statement::Directive(Directive::Map {
                name,
                page,
                entry: 0,
            }))
        }
        [name, i, bits, p] => {
            let name = words::named(name)?;
            let page = words::page(i)?;
            let bits = words::access(version, bits)?;
            let target = words::page(p)?;
            Ok(Statement::Directive(Directive::Map {
                name,
                page,
                entry: target * 4096 + bits,
            }))
        }
        _ => Err(JobKind::Words),
    }
}

#[tactic(auto, unfolding(crate::specs::Statements::start_directive_of))]
fn start_directive(behind: &[&[u8]]) -> Result<Statement, JobKind>
    ensures { result ≡ start_directive_of (texts behind.now) }
{
    let [name, a] = behind else {
        return Err(JobKind::Words);
    };
    let name = words::named(name)?;
    let pc = words::address(a)?;
    Ok(Statement::Directive(Directive::Start { name, pc }))
}

#[tactic(auto, unfolding(crate::specs::Statements::image_directive_of))]
fn image_directive(behind: &[&[u8]]) -> Result<Statement, JobKind>
    ensures { result ≡ image_directive_of (texts behind.now) }
{
    let [name, a] = behind else {
        return Err(JobKind::Words);
    };
    let name = words::named(name)?;
    let at = words::address(a)?;
    Ok(Statement::Image { name, at })
}

#[tactic(auto, unfolding(crate::specs::Statements::sample_directive_of))]
fn sample_directive(behind: &[&[u8]]) -> Result<Statement, JobKind>
    ensures { result ≡ sample_directive_of (texts behind.now) }
{
    let [name, a, which] = behind else {
        return Err(JobKind::Words);
    };
    let name = words::named(name)?;
    let at = words::address(a)?;
    let which = words::any_sample(which)?;
    Ok(Statement::Sample { name, at, which })
}

#[tactic(auto, unfolding(crate::specs::Statements::word_directive_of))]
fn word_directive(alloc: Global, behind: &[&[u8]]) -> Result<Statement, JobLineEnd>
    ensures { GivesLine result (word_directive_of (texts behind.now)) }
{
    let [name, a, values @ ..] = behind else {
        return Err(JobLineEnd::Fault(JobKind::Words));
    };
    if values.is_empty() || values.len() > JOB_VALUES {
        return Err(JobLineEnd::Fault(JobKind::Words));
    }
    let name = words::named(name)?;
    let at = words::address(a)?;
    let values = words::numbers(alloc, values)?;
    Ok(Statement::Directive(Directive::Word { name, at, values }))
}

#[tactic(auto, unfolding(crate::specs::Statements::tower_directive_of))]
fn tower_directive(version: JobVersion, behind: &[&[u8]]) -> Result<Statement, JobKind>
    ensures { result ≡ tower_directive_of version (texts behind.now) }
{
    match behind {
        [d, word_pages, n] => {
            let depth = words::depth(version, d)?;
            words::fixed(b"pages", word_pages)?;
            let pages = words::pages(n)?;
            Ok(Statement::Directive(Directive::Tower {
                depth,
                pages,
                which: Sample::Pass,
            }))
        }
        [d, word_pages, n, which] => {
            let depth = words::depth(version, d)?;
            words::fixed(b"pages", word_pages)?;
            let pages = words::pages(n)?;
            let which = words::inner(which)?;
            Ok(Statement::Directive(Directive::Tower {
                depth,
                pages,
                which,
            }))
        }
        _ => Err(JobKind::Words),
    }
}

#[tactic(auto, unfolding(crate::specs::Statements::turn_directive_of))]
fn turn_directive(version: JobVersion, behind: &[&[u8]]) -> Result<Statement, JobKind>
    ensures { result ≡ turn_directive_of version (texts behind.now) }
{
    let [h, n] = behind else {
        return Err(JobKind::Words);
    };
    let hart = words::hart(version, h)?;
    let count = words::between(1, STEPS as u32, n)?;
    Ok(Statement::Event(Event::Turn { hart, count }))
}

#[tactic(auto, unfolding(crate::specs::Statements::lines_directive_of))]
fn lines_directive(version: JobVersion, behind: &[&[u8]]) -> Result<Statement, JobKind>
    ensures { result ≡ lines_directive_of version (texts behind.now) }
{
    let [h, m] = behind else {
        return Err(JobKind::Words);
    };
    let hart = words::hart(version, h)?;
    let mask = words::mask(m)?;
    Ok(Statement::Event(Event::Lines { hart, mask }))
}

#[tactic(auto, unfolding(crate::specs::Statements::watch_directive_of))]
fn watch_directive(version: JobVersion, behind: &[&[u8]]) -> Result<Statement, JobKind>
    ensures { result ≡ watch_directive_of version (texts behind.now) }
{
    let [h, name] = behind else {
        return Err(JobKind::Words);
    };
    let hart = words::hart(version, h)?;
    let name = words::named(name)?;
    Ok(Statement::Directive(Directive::Watch { hart, name }))
}

#[tactic(auto, unfolding(crate::specs::Statements::dump_directive_of))]
fn dump_directive(behind: &[&[u8]]) -> Result<Statement, JobKind>
    ensures { result ≡ dump_directive_of (texts behind.now) }
{
    let [name, i] = behind else {
        return Err(JobKind::Words);
    };
    let name = words::named(name)?;
    let page = words::page(i)?;
    Ok(Statement::Directive(Directive::Dump { name, page }))
}

// A line `upgrade`, which only a `job 2` has.
#[tactic(auto, unfolding(crate::specs::Statements::upgrade_in))]
fn upgrade(version: JobVersion, behind: &[&[u8]]) -> Result<Statement, JobKind>
    ensures { result ≡ upgrade_in version (texts behind.now) }
{
    match version {
        JobVersion::One => Err(JobKind::Directive),
        JobVersion::Two => upgrade_directive(behind),
    }
}

#[tactic(auto, unfolding(crate::specs::Statements::upgrade_directive_of))]
fn upgrade_directive(behind: &[&[u8]]) -> Result<Statement, JobKind>
    ensures { result ≡ upgrade_directive_of (texts behind.now) }
{
    let [name, d] = behind else {
        return Err(JobKind::Words);
    };
    let name = words::named(name)?;
    let dir = words::page(d)?;
    Ok(Statement::Directive(Directive::Upgrade { name, dir }))
}
