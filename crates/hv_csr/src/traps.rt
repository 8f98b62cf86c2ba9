//! Entering a trap, and returning from one.

ghost use Rattle.std.specs.Prelude.{◌≡◌, ◌≢◌, ◌<◌, ◌==◌, ◌%◌, OnErr};
ghost use Rattle.hv_word.specs.Words.{field_of};
ghost use Rattle.hv_cpu.specs.Modes.{mode_word};
ghost use Rattle.hv_csr.specs.Access.{left_by};
ghost use Rattle.hv_csr.specs.Traps.{goes_down, cause_word as cause_word_of, handler_of, take_trap_of, mret_of, sret_of, may_sret as may_sret_of};

use crate::access::Illegal;
use crate::status;
use hv_cpu::mstatus::{MPP, MPP_BITS, SPP, TSR};
use hv_cpu::{Cpu, Mode};
use hv_word::field;

/// Takes the trap with number `cause`, which is an interrupt or an exception, to S where it comes from
/// below M and is delegated, else to M.
pub fn take_trap(cpu: &mut Cpu, cause: u32, interrupt: bool, tval: u32)
    requires { cause < 16 }
    ensures { cpu.new ≡ take_trap_of cpu.old cause interrupt tval }
{
    let mode = cpu.mode.word();
    if is_delegated(cpu, cause, interrupt) {
        cpu.mstatus = status::entered_s(cpu.mstatus, mode);
        cpu.sepc = cpu.pc;
        cpu.scause = cause_word(cause, interrupt);
        cpu.stval = tval;
        cpu.mode = Mode::S;
        cpu.pc = entry(cpu.stvec, cause, interrupt);
    } else {
        cpu.mstatus = status::entered_m(cpu.mstatus, mode);
        cpu.mepc = cpu.pc;
        cpu.mcause = cause_word(cause, interrupt);
        cpu.mtval = tval;
        cpu.mode = Mode::M;
        cpu.pc = entry(cpu.mtvec, cause, interrupt);
    }
}

/// Returns from a trap in M: to mepc, in the mode of MPP. Illegal below M; then nothing has changed.
pub fn mret(cpu: &mut Cpu) -> Result<(), Illegal>
    ensures left { left_by result cpu.new ≡ mret_of cpu.old }
    ensures refused { OnErr result (cpu.new ≡ cpu.old) }
{
    if cpu.mode != Mode::M {
        return Err(Illegal);
    }
    let mode = field::<MPP, MPP_BITS>(cpu.mstatus);
    cpu.mstatus = status::unprivileged(status::left_m(cpu.mstatus), mode);
    cpu.mode = named(mode);
    cpu.pc = cpu.mepc;
    Ok(())
}

/// Returns from a trap in S: to sepc, in the mode of SPP. Illegal in U, and in S with TSR; then nothing
/// has changed.
pub fn sret(cpu: &mut Cpu) -> Result<(), Illegal>
    ensures left { left_by result cpu.new ≡ sret_of cpu.old }
    ensures refused { OnErr result (cpu.new ≡ cpu.old) }
{
    if !may_sret(cpu) {
        return Err(Illegal);
    }
    let mode = field::<SPP, 1>(cpu.mstatus);
    cpu.mstatus = status::unprivileged(status::left_s(cpu.mstatus), mode);
    cpu.mode = named(mode);
    cpu.pc = cpu.sepc;
    Ok(())
}

// Whether the trap goes to S.
fn is_delegated(cpu: &Cpu, cause: u32, interrupt: bool) -> bool
    requires { cause < 16 }
    ensures { result ≡ goes_down cpu.now cause interrupt }
{
    let delegated = if interrupt { cpu.mideleg } else { cpu.medeleg };
    cpu.mode.word() < 3 && has_bit(delegated, cause)
}

#[tactic(auto, using(std::proofs::lemmas::Nat::Bits::shr_and_one))]
fn has_bit(word: u32, bit: u32) -> bool
    requires { bit < 32 }
    ensures { result ≡ (field_of word bit 1 == 1) }
{
    (word >> bit) & 1 == 1
}

// The word in xcause.
fn cause_word(cause: u32, interrupt: bool) -> u32
    requires { cause < 16 }
    ensures { result ≡ cause_word_of cause interrupt }
{
    if interrupt { (1 << 31) + cause } else { cause }
}

// Where the trap goes on, by the trap vector.
fn entry(vector: u32, cause: u32, interrupt: bool) -> u32
    requires { cause < 16 }
    ensures is { result ≡ handler_of vector cause interrupt }
    ensures aligned { result % 4 ≡ 0 }
{
    let base = vector - vector % 4;
    if interrupt && vector % 4 == 1 {
        base.wrapping_add(4 * cause)
    } else {
        base
    }
}

// The mode of a field of mstatus, which is never the reserved one.
fn named(bits: u32) -> Mode
    requires real { bits ≢ 2 }
    requires fits { bits < 4 }
    ensures { mode_word result ≡ bits }
{
    match bits {
        0 => Mode::U,
        1 => Mode::S,
        _ => Mode::M,
    }
}

// Whether SRET is legal: in M, and in S without TSR.
fn may_sret(cpu: &Cpu) -> bool
    ensures { result ≡ may_sret_of cpu.now }
{
    match cpu.mode {
        Mode::U => false,
        Mode::S => field::<TSR, 1>(cpu.mstatus) == 0,
        Mode::M => true,
    }
}
