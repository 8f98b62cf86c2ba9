//! Checking a trace row by row.

ghost use Rattle.std.specs.Prelude.{◌≡◌, ◌≢◌, ℕ, ◌<◌, ◌≤◌, ◌^◌, [], ◌∷◌, true, false, IfNone, IfSome, List, bit_and, length, slice_index, slice_set};
ghost use Rattle.hv_limits.specs.Limits.{lines_mask};
ghost use Rattle.hv_cpu.specs.Lines.{lined_of, lines};
ghost use Rattle.hv_cpu.specs.Regs.{FitsHart, file_of, spelled};
ghost use Rattle.hv_nest.specs.Bare.{alone, bare_of};
ghost use Rattle.hv_capsule.specs.Parked.{Parked, regs_of_words};
ghost use Rattle.hv_trace.specs.Check.{Follows, FollowsByStep, IfNo, IfYes, IsBoth, IsFirstWrong, IsWritten, IsWrong, Leads, changes_from, changes_told, steps_in};
ghost use Rattle.hv_trace.specs.Rows.{AreRows, IsRow};
ghost use Rattle.hv_trace.specs.Undo.{reach, undone};

use crate::flat::{Written, flat_step};
use crate::row::TraceRow;
use crate::trace::Trace;
use hv_capsule::Capsule;
use hv_cpu::{Cpu, Mode};
use hv_limits::LINES;
use hv_store::Store;

/// What the check of a trace says.
#[derive(Clone, Copy, Debug, PartialEq, Eq)]
pub enum Verdict {
    /// Each row is what the machine did; so many of them are steps.
    Yes { steps: u64 },
    /// This row, counted from 1, is the first that the machine didn't do.
    No { row: u32 },
}

/// Checks a trace: Yes where each row is the change of lines or the step that the machine makes after those before it, and
/// runs no machine of its own after it; else No with the first row that isn't. After Yes the trace's start is the machine at
/// the end; the rows stay. It takes no memory.
#[tactic(auto, using(crate::proofs::Alone::leads_bare))]
pub fn check_trace(trace: &mut Trace) -> Verdict
    requires next { trace.old.start.regs.next ≡ 0 }
    requires few { length trace.old.rows < 2 ^ 32 }
    ensures exact { IfNo result (IsFirstWrong trace.old.start trace.old.rows) }
    ensures told { (row : ℕ) → IsFirstWrong trace.old.start trace.old.rows row → result ≡ Verdict.No row }
    ensures leads { IfYes result (λ _. Leads trace.old.start trace.old.rows trace.new.start) }
    ensures steps { IfYes result (λ steps. steps ≡ steps_in trace.old.rows) }
    ensures bare { IfYes result (λ steps. alone trace.new.start.storage trace.new.start.regs
        ≡ bare_of trace.old.start.storage trace.old.start.regs (changes_told 0 trace.old.rows) steps) }
    ensures rows { trace.new.rows ≡ trace.old.rows }
{
    check_start(&mut trace.start, &trace.rows)
}

// The same for a machine and rows; where they aren't right, the machine keeps its registers.
#[tactic(auto, using(crate::proofs::Parking::parking))]
fn check_start(start: &mut Capsule, rows: &[TraceRow]) -> Verdict
    requires next { start.old.regs.next ≡ 0 }
    requires rows { AreRows (length start.old.storage) rows.now }
    requires few { length rows.now < 2 ^ 32 }
    ensures leads { IfYes result (λ _. Leads start.old rows.now start.new) }
    ensures steps { IfYes result (λ steps. steps ≡ steps_in rows.now) }
    ensures wrong { IfNo result (IsFirstWrong start.old rows.now) }
    ensures told { (row : ℕ) → IsFirstWrong start.old rows.now row → result ≡ Verdict.No row }
    ensures len { length start.new.storage ≡ length start.old.storage }
{
    let mut cpu = read_cpu(&start.regs);
    let verdict = check_rows(&mut start.store, &mut cpu, rows);
    if let Verdict::Yes { .. } = verdict {
        start.regs = words_of(&cpu);
    }
    verdict
}

// The words of registers, which are such as a hart can have.
#[tactic(auto, using(crate::proofs::Parking::spelled_back))]
fn words_of(cpu: &Cpu) -> [u32; 50]
    ensures is { result ≡ spelled cpu.now }
    ensures regs { regs_of_words result ≡ cpu.now }
    ensures fits { FitsHart cpu.now }
{
    let _ = &cpu.pc;
    cpu.words()
}

/// Whether these are the places where two rows of 50 words differ, rising, with the words of the second.
#[tactic(auto, using(crate::proofs::Changed::agreeing))]
pub(crate) fn are_changes(before: &[u32; 50], after: &[u32; 50], changes: &[(u32, u32)]) -> bool
    ensures yes { result ≡ true → changes.now ≡ changes_from 0 before.now after.now }
    ensures no { result ≡ false → changes.now ≢ changes_from 0 before.now after.now }
{
    let mut told = 0usize;
    for place in 0..50usize {
        if before[place] != after[place] {
            if told >= changes.len() || changes[told] != (place as u32, after[place]) {
                return false;
            }
            told += 1;
        }
    }
    told == changes.len()
}

/// Whether the lines from outside became those of the mask by a change that changes something; then they are changed.
pub(crate) fn lines_change(cpu: &mut Cpu, mask: u32) -> bool
    requires { bit_and mask lines_mask ≡ mask }
    ensures yes { result ≡ true → (lines cpu.old.mip ≢ mask) × (cpu.new ≡ lined_of cpu.old mask) }
    ensures no { result ≡ false → (lines cpu.old.mip ≡ mask) × (cpu.new ≡ cpu.old) }
{
    if cpu.mip & LINES == mask {
        return false;
    }
    cpu.set_lines(mask);
    true
}

/// What of a change is still to be told once the word at a place is compared with what it was: none where it isn't told
/// right. Without this place the storage was `middle`.
#[tactic(auto, using(crate::proofs::Peeled::peeled))]
fn peel(store: &Store, at: u32, before: u32, mem: Option<(u32, u32)>) -> Option<Option<(u32, u32)>>
    requires { at < length store.now }
    ensures rest { IfSome result (λ rest. (middle : List ℕ) → length middle ≡ length store.now
        → slice_index middle at ≡ slice_index store.now at
        → IsBoth (IsWritten middle store.now rest) (IsWritten (slice_set middle at before) store.now mem)) }
    ensures wrong { IfNone result ((middle : List ℕ) → length middle ≡ length store.now
        → slice_index middle at ≡ slice_index store.now at
        → IsWritten (slice_set middle at before) store.now mem → ⊥) }
{
    let word = store.get(at);
    if word == before {
        return Some(mem);
    }
    let (place, value) = mem?;
    if place != at || value != word {
        return None;
    }
    Some(None)
}

/// Whether a row tells what was written of the storage: the one word that is another now, or none where there is no such word.
#[tactic(auto, using(crate::proofs::Peeled::written))]
pub(crate) fn is_told(store: &Store, written: Written, mem: Option<(u32, u32)>) -> bool
    requires { reach written ≤ length store.now }
    ensures yes { result ≡ true → IsWritten (undone store.now written) store.now mem }
    ensures no { result ≡ false → IsWritten (undone store.now written) store.now mem → ⊥ }
{
    let _pages = store.pages();
    match written {
        Written::Nothing => mem.is_none(),
        Written::Word { at, before } => {
            let Some(rest) = peel(store, at, before, mem) else {
                return false;
            };
            rest.is_none()
        }
        Written::Fault {
            at,
            cause,
            address,
            access,
        } => {
            let Some(rest) = peel(store, at, cause, mem) else {
                return false;
            };
            let Some(rest) = peel(store, at + 1, address, rest) else {
                return false;
            };
            let Some(rest) = peel(store, at + 2, access, rest) else {
                return false;
            };
            rest.is_none()
        }
    }
}

/// Makes one step, and tells whether it is the one that a row tells: with this pc before it, these changes of the registers and
/// this one of the storage, and no machine to run after it.
#[tactic(auto, using(crate::proofs::Wrong::wrong))]
pub(crate) fn is_step(
    store: &mut Store,
    cpu: &mut Cpu,
    pc: u32,
    changes: &[(u32, u32)],
    mem: Option<(u32, u32)>,
) -> bool
    requires { cpu.old.next ≡ 0 }
    ensures yes { result ≡ true → FollowsByStep record { regs = cpu.old; storage = store.old } pc changes.now mem
        record { regs = cpu.new; storage = store.new } }
    ensures no { result ≡ false → (n : Parked)
        → FollowsByStep record { regs = cpu.old; storage = store.old } pc changes.now mem n → ⊥ }
    ensures len { length store.new ≡ length store.old }
{
    if pc != cpu.pc {
        return false;
    }
    let before = cpu.words();
    let written = flat_step(store, cpu);
    if cpu.next.is_some() {
        return false;
    }
    let after = cpu.words();
    if !are_changes(&before, &after, changes) {
        return false;
    }
    is_told(store, written, mem)
}

/// Whether a row is what the machine does next; then it is done.
#[tactic(auto, using(crate::proofs::Lined::lined))]
fn is_right(store: &mut Store, cpu: &mut Cpu, row: &TraceRow) -> bool
    requires next { cpu.old.next ≡ 0 }
    requires row { IsRow (length store.old) row.now }
    ensures yes { result ≡ true → Follows record { regs = cpu.old; storage = store.old } row.now
        record { regs = cpu.new; storage = store.new } }
    ensures no { result ≡ false → IsWrong record { regs = cpu.old; storage = store.old } row.now }
    ensures len { length store.new ≡ length store.old }
{
    match row {
        TraceRow::Lines { mask } => lines_change(cpu, *mask),
        TraceRow::Step { pc, len, regs, mem } => is_step(
            store,
            cpu,
            *pc,
            &regs[..*len as usize],
            *mem,
        ),
    }
}

// Whether rows are what the machine does next, one after another; then they are done.
fn check_rows(store: &mut Store, cpu: &mut Cpu, rows: &[TraceRow]) -> Verdict
    requires next { cpu.old.next ≡ 0 }
    requires rows { AreRows (length store.old) rows.now }
    requires few { length rows.now < 2 ^ 32 }
    ensures leads { IfYes result (λ _. Leads record { regs = cpu.old; storage = store.old } rows.now
        record { regs = cpu.new; storage = store.new }) }
    ensures steps { IfYes result (λ steps. steps ≡ steps_in rows.now) }
    ensures wrong { IfNo result (IsFirstWrong record { regs = cpu.old; storage = store.old } rows.now) }
    ensures told { (row : ℕ) → IsFirstWrong record { regs = cpu.old; storage = store.old } rows.now row → result ≡ Verdict.No row }
    ensures next { IfYes result (λ _. cpu.new.next ≡ 0) }
    ensures len { length store.new ≡ length store.old }
{
    let mut number = 0;
    let mut steps = 0;
    for row in rows {
        number += 1;
        if !is_right(store, cpu, row) {
            return Verdict::No { row: number };
        }
        steps += steps_of(row);
    }
    Verdict::Yes { steps }
}

// 1 for a step, and 0 for a change of lines.
fn steps_of(row: &TraceRow) -> u64
    ensures is { result ≡ steps_in (row.now ∷ []) }
    ensures few { result ≤ 1 }
{
    match row {
        TraceRow::Lines { .. } => 0,
        TraceRow::Step { .. } => 1,
    }
}

// x0 to x31 among the words of registers.
fn read_x(words: &[u32; 50]) -> [u32; 32]
    ensures { result ≡ file_of (regs_of_words words.now) }
{
    let mut x = [0; 32];
    for i in 1..32usize {
        x[i] = words[i];
    }
    x
}

// The registers that words spell.
fn read_cpu(words: &[u32; 50]) -> Cpu
    requires { FitsHart (regs_of_words words.now) }
    ensures { result ≡ regs_of_words words.now }
{
    // A hart is in one of the three modes.
    let Some(mode) = Mode::from_word(words[32]) else {
        unreachable!();
    };
    Cpu {
        pc: words[0],
        x: read_x(words),
        mode,
        mstatus: words[33],
        mtvec: words[34],
        mepc: words[35],
        mcause: words[36],
        mtval: words[37],
        mscratch: words[38],
        medeleg: words[39],
        mideleg: words[40],
        mie: words[41],
        mip: words[42],
        stvec: words[43],
        sepc: words[44],
        scause: words[45],
        stval: words[46],
        sscratch: words[47],
        satp: words[48],
        next: if words[49] == 0 {
            None
        } else {
            Some(words[49])
        },
    }
}
