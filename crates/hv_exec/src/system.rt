//! The rows that speak of modes and of control and status registers.

ghost use Rattle.std.specs.Prelude.{◌≡◌, IfNone, IfSome};
ghost use Rattle.hv_word.specs.Words.{field_of};
ghost use Rattle.hv_csr.specs.Traps.{mret_of, sret_of};
ghost use Rattle.hv_isa.specs.Table.{Csr, fields_of};
ghost use Rattle.hv_exec.specs.Answer.{answered, done_unless_illegal, KeepsUnlessDone, TouchesAsTold, IsInRange};
ghost use Rattle.hv_exec.specs.Touched.{Touches};
ghost use Rattle.hv_exec.specs.declared.touched.Touched.TheVariants.{Csr as CsrTouched};
ghost use Rattle.hv_exec.specs.System.{new_value, csr_row, returned, may_wait, may_fence, called, entering};

use crate::answer::{Task, illegal, put};
use crate::touched::Touched;
use hv_cpu::mstatus::{TVM, TW};
use hv_cpu::{Cpu, Mode};
use hv_csr::{csr_read, csr_write, word_written};
use hv_isa::{Op, csr_number, rd, rs1};
use hv_word::field;

/// What a CSR row does to the register: it replaces it, or sets or clears the bits of its source.
#[derive(Clone, Copy)]
pub(crate) enum Update {
    Replace,
    Set,
    Clear,
}

/// A CSR row of a hart, with its source: what may not be read or written is illegal.
#[inline(always)]
pub(crate) fn csr(cpu: &mut Cpu, hart: u32, op: Op, word: u32, update: Update, source: u32) -> Task
    ensures does { answered result cpu.new ≡ csr_row update source (fields_of (Csr 0 0) op word) word cpu.old hart }
    ensures keeps { KeepsUnlessDone result cpu.old cpu.new }
    ensures touches { TouchesAsTold result cpu.old cpu.new }
    ensures range { IsInRange result }
    ensures next { cpu.new.next ≡ cpu.old.next }
{
    match update_csr(cpu, hart, op, word, update, source) {
        Some(written) => Task::Done {
            touched: Touched::Csr {
                register: rd(word) as u32,
                word: written,
            },
        },
        None => illegal(word),
    }
}

// The same, told by the word of the registers that the row writes besides rd and pc, 0 for none; None where it is illegal. So small
// an answer needs no memory.
#[inline(never)]
#[tactic(auto, unfolding(crate::specs::System::csr_row))]
fn update_csr(
    cpu: &mut Cpu,
    hart: u32,
    op: Op,
    word: u32,
    update: Update,
    source: u32,
) -> Option<u32>
    ensures does { done_unless_illegal result word cpu.new
        ≡ csr_row update source (fields_of (Csr 0 0) op word) word cpu.old hart }
    ensures keeps { IfNone result (cpu.new ≡ cpu.old) }
    ensures touches { IfSome result (λ w. Touches (CsrTouched (field_of word 7 5) w) cpu.old cpu.new) }
    ensures next { cpu.new.next ≡ cpu.old.next }
{
    let number = csr_number(word);
    let register = rd(word);
    let Ok(old) = csr_read(cpu, hart, number) else {
        return None;
    };
    let Some(value) = updated(update, rs1(word), old, source) else {
        put(cpu, register, old);
        return Some(0);
    };
    if csr_write(cpu, number, value).is_err() {
        return None;
    }
    put(cpu, register, old);
    Some(word_written(number))
}

// What a CSR row writes over the old value, if it writes; `field` is its source field.
fn updated(update: Update, field: u8, old: u32, source: u32) -> Option<u32>
    ensures { result ≡ new_value update field old source }
{
    match update {
        Update::Replace => Some(source),
        _ if field == 0 => None,
        Update::Set => Some(old | source),
        Update::Clear => Some(old & !source),
    }
}

/// MRET, which is illegal below M.
#[tactic(auto, unfolding(crate::specs::System::returned))]
#[inline(always)]
pub(crate) fn mret(cpu: &mut Cpu, word: u32) -> Task
    ensures does { answered result cpu.new ≡ returned (mret_of cpu.old) word }
    ensures keeps { KeepsUnlessDone result cpu.old cpu.new }
    ensures touches { TouchesAsTold result cpu.old cpu.new }
    ensures range { IsInRange result }
    ensures next { cpu.new.next ≡ cpu.old.next }
{
    match hv_csr::mret(cpu) {
        Ok(()) => Task::Done {
            touched: Touched::Return,
        },
        Err(_) => illegal(word),
    }
}

/// SRET, which is illegal in U, and in S where TSR is set.
#[tactic(auto, unfolding(crate::specs::System::returned))]
#[inline(always)]
pub(crate) fn sret(cpu: &mut Cpu, word: u32) -> Task
    ensures does { answered result cpu.new ≡ returned (sret_of cpu.old) word }
    ensures keeps { KeepsUnlessDone result cpu.old cpu.new }
    ensures touches { TouchesAsTold result cpu.old cpu.new }
    ensures range { IsInRange result }
    ensures next { cpu.new.next ≡ cpu.old.next }
{
    match hv_csr::sret(cpu) {
        Ok(()) => Task::Done {
            touched: Touched::Return,
        },
        Err(_) => illegal(word),
    }
}

/// Whether WFI is legal: in M, and below it where TW is clear.
#[tactic(auto, unfolding(crate::specs::System::may_wait))]
#[inline(always)]
pub(crate) fn may_wait(cpu: &Cpu) -> bool
    ensures { result ≡ may_wait cpu.now }
{
    match cpu.mode {
        Mode::M => true,
        Mode::S | Mode::U => field::<TW, 1>(cpu.mstatus) == 0,
    }
}

/// Whether SFENCE.VMA is legal: in M, and in S where TVM is clear.
#[tactic(auto, unfolding(crate::specs::System::may_fence))]
#[inline(always)]
pub(crate) fn may_fence(cpu: &Cpu) -> bool
    ensures { result ≡ may_fence cpu.now }
{
    match cpu.mode {
        Mode::M => true,
        Mode::S => field::<TVM, 1>(cpu.mstatus) == 0,
        Mode::U => false,
    }
}

/// ECALL, whose cause tells the mode.
#[inline(always)]
pub(crate) fn call(cpu: &Cpu) -> Task
    ensures does { answered result cpu.now ≡ called cpu.now }
    ensures touches { TouchesAsTold result cpu.now cpu.now }
    ensures range { IsInRange result }
{
    let cause = match cpu.mode {
        Mode::U => 8,
        Mode::S => 9,
        Mode::M => 11,
    };
    Task::Trap { cause, tval: 0 }
}

/// VMENTER of the page at the address `value`, which is illegal below M.
#[tactic(auto, unfolding(crate::specs::System::entering))]
#[inline(always)]
pub(crate) fn enter(cpu: &Cpu, word: u32, value: u32) -> Task
    ensures does { answered result cpu.now ≡ entering cpu.now value word }
    ensures keeps { KeepsUnlessDone result cpu.now cpu.now }
    ensures touches { TouchesAsTold result cpu.now cpu.now }
    ensures range { IsInRange result }
{
    match cpu.mode {
        Mode::M => Task::Enter { value },
        Mode::S | Mode::U => illegal(word),
    }
}
