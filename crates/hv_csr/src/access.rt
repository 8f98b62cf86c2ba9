//! Reading and writing a control register by its number.

ghost use Rattle.std.specs.Prelude.{◌≡◌, ◌≢◌, ◌<◌, ℕ, Some, OnErr, slice_index};
ghost use Rattle.std.specs.Result.{result_ok};
ghost use Rattle.hv_cpu.specs.Regs.{Regs, spelled};
ghost use Rattle.hv_csr.specs.Access.{csr_read_of, csr_write_of, is_barred, is_read_only, left_by};

use crate::csr::Csr;
use hv_cpu::mstatus::TVM;
use hv_cpu::{Cpu, Mode};
use hv_word::field;

/// The instruction is illegal here.
#[derive(Clone, Copy, Debug, PartialEq, Eq)]
pub struct Illegal;

/// The word in control register `number`, on the hart with number `hart`. Illegal where no register has
/// the number, where the mode is too low, and for satp in S with TVM.
pub fn csr_read(cpu: &Cpu, hart: u32, number: u32) -> Result<u32, Illegal>
    ensures { result_ok result ≡ csr_read_of cpu.now hart number }
{
    if barred(cpu, number) {
        return Err(Illegal);
    }
    let csr = Csr::find(number).ok_or(Illegal)?;
    Ok(csr.read(cpu, hart))
}

/// Writes `value` to control register `number`; each keeps what can be set in it. Illegal where reading
/// is, and where the register can only be read; then nothing has changed.
pub fn csr_write(cpu: &mut Cpu, number: u32, value: u32) -> Result<(), Illegal>
    ensures written { left_by result cpu.new ≡ csr_write_of cpu.old number value }
    ensures refused { OnErr result (cpu.new ≡ cpu.old) }
{
    if barred(cpu, number) || is_only_read(number) {
        return Err(Illegal);
    }
    let csr = Csr::find(number).ok_or(Illegal)?;
    csr.write(cpu, value);
    Ok(())
}

/// The word of the registers that a write of control register `number` can change, by its place in a control block: 0
/// where it changes nothing, or there is no such register.
pub fn word_written(number: u32) -> u32
    ensures below { result < 49 }
    ensures others { (r q : Regs) (v k : ℕ) → csr_write_of r number v ≡ Some q → k ≢ result
        → slice_index (spelled q) k ≡ slice_index (spelled r) k }
{
    match Csr::find(number) {
        Some(csr) => csr.word(),
        None => 0,
    }
}

// Whether the hart may not use the register: the mode is too low, or it is satp in S with TVM.
fn barred(cpu: &Cpu, number: u32) -> bool
    ensures { result ≡ is_barred cpu.now number }
{
    cpu.mode.word() < field::<8, 2>(number)
        || (number == 0x180 && cpu.mode == Mode::S && field::<TVM, 1>(cpu.mstatus) == 1)
}

// Whether the register can only be read.
fn is_only_read(number: u32) -> bool
    ensures { result ≡ is_read_only number }
{
    field::<10, 2>(number) == 3
}
