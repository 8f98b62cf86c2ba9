//! The text of machines and faults.

ghost use Rattle.std.specs.Prelude.{◌≡◌, ◌++◌, IfOk, OnOk};
ghost use Rattle.hv_block.specs.Block.{access_word};
ghost use Rattle.hv_run.specs.Text.{change_line, changes_text, fault_line as fault_line_of, machine_lines as machine_lines_of, register_lines as register_lines_of, row_text, state_line};

use crate::fault::FaultRow;
use hv_nest::LineRow;
use hv_store::Access;
use hv_text::{put, put_hex8, put_number, put_words};
use std::alloc::{AllocError, Global};

/// The lines of a watched machine after `count` steps: its 50 words, which are those of its control block from 0 to 48 and
/// then 64, and the changes of its interrupt lines from outside.
#[tactic(auto, unfolding(crate::specs::Text::machine_lines))]
pub fn machine_lines(
    alloc: Global,
    count: u64,
    cpu_words: &[u32; 50],
    lines: &[LineRow],
) -> Result<Vec<u8>, AllocError>
    ensures { IfOk result (λ text. text.items ≡ machine_lines_of count cpu_words.now lines.now) }
{
    let mut out = Vec::new(alloc);
    put_number(&mut out, b"count ", count)?;
    put(&mut out, b"\n")?;
    let registers = register_lines(alloc, cpu_words)?;
    put(&mut out, &registers)?;
    put_changes(&mut out, lines)?;
    Ok(out)
}

/// The lines of a machine's 50 words.
#[tactic(auto, unfolding(crate::specs::Text::register_lines))]
pub fn register_lines(alloc: Global, cpu_words: &[u32; 50]) -> Result<Vec<u8>, AllocError>
    ensures { IfOk result (λ text. text.items ≡ register_lines_of cpu_words.now) }
{
    let mut out = Vec::new(alloc);
    put_state(&mut out, cpu_words[0], cpu_words[32], cpu_words[49])?;
    put_row(&mut out, b"x0 00000000", &cpu_words[1..8])?;
    put_row(&mut out, b"x8", &cpu_words[8..16])?;
    put_row(&mut out, b"x16", &cpu_words[16..24])?;
    put_row(&mut out, b"x24", &cpu_words[24..32])?;
    put_row(&mut out, b"m", &cpu_words[33..43])?;
    put_row(&mut out, b"s", &cpu_words[43..49])?;
    Ok(out)
}

/// The line of one fault.
#[tactic(auto, unfolding(crate::specs::Text::fault_line))]
pub fn fault_line(alloc: Global, row: &FaultRow) -> Result<Vec<u8>, AllocError>
    ensures { IfOk result (λ text. text.items ≡ fault_line_of row.now) }
{
    let mut out = Vec::new(alloc);
    put_number(&mut out, b"fault ", row.step)?;
    put_number(&mut out, b" hart ", u64::from(row.hart))?;
    put_number(&mut out, b" level ", u64::from(row.receiver))?;
    put_number(&mut out, b" cause ", u64::from(row.cause))?;
    put(&mut out, b" address ")?;
    put_hex8(&mut out, row.address)?;
    put_number(&mut out, b" access ", access_number(row.access))?;
    put(&mut out, b"\n")?;
    Ok(out)
}

// An access as it is spelled.
fn access_number(access: Access) -> u64
    ensures { result ≡ access_word access }
{
    match access {
        Access::Read => 1,
        Access::Write => 2,
        Access::Fetch => 3,
    }
}

// Appends the line of the program counter, the mode and the page of the machine that is run.
fn put_state(out: &mut Vec<u8>, pc: u32, mode: u32, next: u32) -> Result<(), AllocError>
    ensures { OnOk result (out.new.items ≡ out.old.items ++ state_line pc mode next) }
{
    put(out, b"pc ")?;
    put_hex8(out, pc)?;
    put_number(out, b" mode ", u64::from(mode))?;
    put_number(out, b" next ", u64::from(next))?;
    put(out, b"\n")
}

// Appends a label, the words, each behind a space, and a line feed.
fn put_row(out: &mut Vec<u8>, label: &[u8], words: &[u32]) -> Result<(), AllocError>
    ensures { OnOk result (out.new.items ≡ out.old.items ++ row_text label.now words.now) }
{
    put(out, label)?;
    put_words(out, words)?;
    put(out, b"\n")
}

// Appends a line for each change.
#[tactic(auto, unfolding(crate::specs::Text::changes_text))]
fn put_changes(out: &mut Vec<u8>, rows: &[LineRow]) -> Result<(), AllocError>
    ensures { OnOk result (out.new.items ≡ out.old.items ++ changes_text rows.now) }
{
    for row in rows {
        put_change(out, row)?;
    }
    Ok(())
}

// Appends the line of a change.
fn put_change(out: &mut Vec<u8>, row: &LineRow) -> Result<(), AllocError>
    ensures { OnOk result (out.new.items ≡ out.old.items ++ change_line row.now) }
{
    put_number(out, b"line ", row.count)?;
    put(out, b" ")?;
    put_hex8(out, row.bits)?;
    put(out, b"\n")
}
