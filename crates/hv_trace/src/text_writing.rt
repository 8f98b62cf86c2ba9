//! Writing the rows of a trace.

ghost use Rattle.std.specs.Prelude.{◌≡◌, ◌++◌, ◌≤◌, IfOk, OnOk};
ghost use Rattle.std.specs.List.{AllByRecursion};
ghost use Rattle.hv_trace.specs.Rows.{HasRoom};
ghost use Rattle.hv_trace.specs.Text.{change_text, changes_text, pair_text, row_line, rows_text, tail_text};
ghost use Rattle.hv_trace.specs.TextLines.{trace_text};

use crate::row::TraceRow;
use crate::trace::Trace;
use hv_capsule::put_capsule;
use hv_text::{put, put_decimal, put_hex8};
use std::alloc::{AllocError, Global};

// Appends a place or number with what the word there became.
fn put_pair(out: &mut Vec<u8>, pair: (u32, u32)) -> Result<(), AllocError>
    ensures { OnOk result (out.new.items ≡ out.old.items ++ pair_text pair) }
{
    put_decimal(out, u64::from(pair.0))?;
    put(out, b":")?;
    put_hex8(out, pair.1)
}

// Appends the changed words of the registers.
fn put_changes(out: &mut Vec<u8>, changes: &[(u32, u32)]) -> Result<(), AllocError>
    ensures { OnOk result (out.new.items ≡ out.old.items ++ changes_text changes.now) }
{
    for change in changes {
        put(out, b" ")?;
        put_pair(out, *change)?;
    }
    Ok(())
}

// Appends the changed word of the storage, if there is one, and the line feed that ends the row.
fn put_tail(out: &mut Vec<u8>, mem: Option<(u32, u32)>) -> Result<(), AllocError>
    ensures { OnOk result (out.new.items ≡ out.old.items ++ tail_text mem) }
{
    if let Some(change) = mem {
        put(out, b" m ")?;
        put_pair(out, change)?;
    }
    put(out, b"\n")
}

// Appends a row's line.
fn put_row(out: &mut Vec<u8>, row: &TraceRow) -> Result<(), AllocError>
    requires { HasRoom row.now }
    ensures { OnOk result (out.new.items ≡ out.old.items ++ row_line row.now) }
{
    match row {
        TraceRow::Lines { mask } => {
            put(out, b"l ")?;
            put_hex8(out, *mask)?;
            put(out, b"\n")
        }
        TraceRow::Step { pc, len, regs, mem } => {
            put(out, b"s ")?;
            put_hex8(out, *pc)?;
            put_changes(out, &regs[..*len as usize])?;
            put_tail(out, *mem)
        }
    }
}

/// Appends the lines of rows.
pub fn put_rows(out: &mut Vec<u8>, rows: &[TraceRow]) -> Result<(), AllocError>
    requires { AllByRecursion HasRoom rows.now }
    ensures { OnOk result (out.new.items ≡ out.old.items ++ rows_text rows.now) }
{
    for row in rows {
        put_row(out, row)?;
    }
    Ok(())
}

/// The text of a trace.
pub fn write_trace(alloc: Global, trace: &Trace) -> Result<Vec<u8>, AllocError>
    ensures { IfOk result (λ text. text.items ≡ trace_text trace.now) }
{
    let mut out = Vec::from_slice(alloc, b"trace 1\n")?;
    put_capsule(&mut out, &trace.start)?;
    put_rows(&mut out, &trace.rows)?;
    put(&mut out, b"end\n")?;
    Ok(out)
}
