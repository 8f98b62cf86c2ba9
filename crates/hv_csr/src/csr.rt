//! The control registers: their numbers, what is read from each, and what a write leaves.

ghost use Rattle.std.specs.Prelude.{◌≡◌, ◌≢◌, ℕ, ◌%◌, ◌<◌, slice_index};
ghost use Rattle.std.specs.Int.RustNames.{bit_and};
ghost use Rattle.hv_csr.specs.Table.{csr_of, row_of, merge, mpp_bits, vector as vector_of, on_word as word_of};
ghost use Rattle.hv_word.specs.Words.{field_of};
ghost use Rattle.hv_cpu.specs.Regs.{Regs, spelled};

use crate::status;
use hv_cpu::{Cpu, MEDELEG_MASK, MIDELEG_MASK, MIE_MASK, SATP_MASK};

/// The bits of mstatus that S sees.
pub const SSTATUS_MASK: u32 = 0x000C_0122;
/// The software interrupt of S in sip.
const SSI_MASK: u32 = 0x2;
/// The bits of mip that an instruction may write.
const MIP_WRITABLE: u32 = 0x222;
/// 32 bits, with the extensions I, S and U.
const MISA: u32 = 0x4014_0100;

/// A control register, by its name in the manual.
#[derive(Clone, Copy)]
pub enum Csr {
    Sstatus,
    Sie,
    Stvec,
    Scounteren,
    Sscratch,
    Sepc,
    Scause,
    Stval,
    Sip,
    Satp,
    Mstatus,
    Misa,
    Medeleg,
    Mideleg,
    Mie,
    Mtvec,
    Mcounteren,
    Mstatush,
    Mscratch,
    Mepc,
    Mcause,
    Mtval,
    Mip,
    Mvendorid,
    Marchid,
    Mimpid,
    Mhartid,
}

impl Csr {
    /// The register with that number, None where no register has it.
    #[inline(always)]
    pub fn find(number: u32) -> Option<Csr>
        ensures { result ≡ csr_of number }
    {
        match number {
            0x100 => Some(Csr::Sstatus),
            0x104 => Some(Csr::Sie),
            0x105 => Some(Csr::Stvec),
            0x106 => Some(Csr::Scounteren),
            0x140 => Some(Csr::Sscratch),
            0x141 => Some(Csr::Sepc),
            0x142 => Some(Csr::Scause),
            0x143 => Some(Csr::Stval),
            0x144 => Some(Csr::Sip),
            0x180 => Some(Csr::Satp),
            0x300 => Some(Csr::Mstatus),
            0x301 => Some(Csr::Misa),
            0x302 => Some(Csr::Medeleg),
            0x303 => Some(Csr::Mideleg),
            0x304 => Some(Csr::Mie),
            0x305 => Some(Csr::Mtvec),
            0x306 => Some(Csr::Mcounteren),
            0x310 => Some(Csr::Mstatush),
            0x340 => Some(Csr::Mscratch),
            0x341 => Some(Csr::Mepc),
            0x342 => Some(Csr::Mcause),
            0x343 => Some(Csr::Mtval),
            0x344 => Some(Csr::Mip),
            0xF11 => Some(Csr::Mvendorid),
            0xF12 => Some(Csr::Marchid),
            0xF13 => Some(Csr::Mimpid),
            0xF14 => Some(Csr::Mhartid),
            _ => None,
        }
    }

    /// What is read from it on the hart with number `hart`.
    pub fn read(self, cpu: &Cpu, hart: u32) -> u32
        ensures { result ≡ (row_of self).read cpu.now hart }
    {
        match self {
            Csr::Sstatus => cpu.mstatus & SSTATUS_MASK,
            Csr::Sie => cpu.mie & cpu.mideleg,
            Csr::Stvec => cpu.stvec,
            Csr::Sscratch => cpu.sscratch,
            Csr::Sepc => cpu.sepc,
            Csr::Scause => cpu.scause,
            Csr::Stval => cpu.stval,
            Csr::Sip => cpu.mip & cpu.mideleg,
            Csr::Satp => cpu.satp,
            Csr::Mstatus => cpu.mstatus,
            Csr::Misa => MISA,
            Csr::Medeleg => cpu.medeleg,
            Csr::Mideleg => cpu.mideleg,
            Csr::Mie => cpu.mie,
            Csr::Mtvec => cpu.mtvec,
            Csr::Mscratch => cpu.mscratch,
            Csr::Mepc => cpu.mepc,
            Csr::Mcause => cpu.mcause,
            Csr::Mtval => cpu.mtval,
            Csr::Mip => cpu.mip,
            Csr::Mhartid => hart,
            // those without a state
            _ => 0,
        }
    }

    /// Writes `value` to it: each register keeps the bits that can be set in it.
    #[tactic(auto, using(crate::proofs::Merge::cut_inside, crate::proofs::Merge::delegated_inside, crate::proofs::Merge::ssi_inside))]
    pub fn write(self, cpu: &mut Cpu, value: u32)
        ensures { cpu.new ≡ (row_of self).write cpu.old value }
    {
        match self {
            Csr::Sstatus => cpu.mstatus = merged(cpu.mstatus, SSTATUS_MASK, value),
            Csr::Sie => cpu.mie = merged(cpu.mie, cpu.mideleg, value),
            Csr::Stvec => cpu.stvec = vector(value),
            Csr::Sscratch => cpu.sscratch = value,
            Csr::Sepc => cpu.sepc = on_word(value),
            Csr::Scause => cpu.scause = value,
            Csr::Stval => cpu.stval = value,
            Csr::Sip => cpu.mip = merged(cpu.mip, cpu.mideleg & SSI_MASK, value),
            Csr::Satp => cpu.satp = value & SATP_MASK,
            Csr::Mstatus => cpu.mstatus = status::written(cpu.mstatus, value),
            Csr::Medeleg => cpu.medeleg = value & MEDELEG_MASK,
            Csr::Mideleg => cpu.mideleg = value & MIDELEG_MASK,
            Csr::Mie => cpu.mie = value & MIE_MASK,
            Csr::Mtvec => cpu.mtvec = vector(value),
            Csr::Mscratch => cpu.mscratch = value,
            Csr::Mepc => cpu.mepc = on_word(value),
            Csr::Mcause => cpu.mcause = value,
            Csr::Mtval => cpu.mtval = value,
            Csr::Mip => cpu.mip = merged(cpu.mip, MIP_WRITABLE, value),
            // those that only tell something
            _ => {}
        }
    }

    /// The word of the registers that a write can change, by its place in a control block: 0 for a register without a
    /// state, whose write changes nothing.
    pub fn word(self) -> u32
        ensures below { result < 49 }
        ensures others { (r : Regs) (v k : ℕ) → k ≢ result
            → slice_index (spelled ((row_of self).write r v)) k ≡ slice_index (spelled r) k }
    {
        match self {
            Csr::Sstatus | Csr::Mstatus => 33,
            Csr::Mtvec => 34,
            Csr::Mepc => 35,
            Csr::Mcause => 36,
            Csr::Mtval => 37,
            Csr::Mscratch => 38,
            Csr::Medeleg => 39,
            Csr::Mideleg => 40,
            Csr::Sie | Csr::Mie => 41,
            Csr::Sip | Csr::Mip => 42,
            Csr::Stvec => 43,
            Csr::Sepc => 44,
            Csr::Scause => 45,
            Csr::Stval => 46,
            Csr::Sscratch => 47,
            Csr::Satp => 48,
            // those without a state
            _ => 0,
        }
    }
}

// `word` with its bits in `mask` taken from `value`.
#[tactic(auto, using(crate::proofs::Merge::merged_is, crate::proofs::Merge::merged_inside, crate::proofs::Merge::merged_mpp))]
fn merged(word: u32, mask: u32, value: u32) -> u32
    ensures is { result ≡ merge word mask value }
    ensures inside { (m : ℕ) → bit_and word m ≡ word → bit_and mask m ≡ mask → bit_and result m ≡ result }
    ensures mpp { bit_and mask mpp_bits ≡ 0 → field_of result 11 2 ≡ field_of word 11 2 }
{
    (word & !mask) | (value & mask)
}

// A trap vector: a reserved mode becomes mode 0.
fn vector(value: u32) -> u32
    ensures is { result ≡ vector_of value }
    ensures mode { result % 4 < 2 }
{
    if value % 4 < 2 { value } else { on_word(value) }
}

// The word that `value` lies in.
fn on_word(value: u32) -> u32
    ensures is { result ≡ word_of value }
    ensures aligned { result % 4 ≡ 0 }
{
    value - value % 4
}
