//! The registers of a hart.
#![tactic(auto)]

ghost use Rattle.std.specs.Prelude.{◌≡◌, ◌<◌, ◌==◌, ◌||◌, ◌⊎◌, nat_lt, drop, IfSome, IfNone};
ghost use Rattle.std.specs.Int.RustNames.{bit_and};
ghost use Rattle.hv_limits.specs.Limits.{lines_mask};
ghost use Rattle.hv_cpu.specs.Lines.{lined_of};
ghost use Rattle.hv_cpu.specs.Modes.{mode_word};
ghost use Rattle.hv_cpu.specs.Regs.{reset_regs, reg, with_reg, spelled};

mod interrupts;
pub mod mstatus;

use hv_limits::LINES;
pub use interrupts::Interrupts;
use std::marker::Model;

/// The bits of mstatus that can be set.
pub const MSTATUS_MASK: u32 = 0x007E_19AA;
/// The bits of medeleg that can be set.
pub const MEDELEG_MASK: u32 = 0xB3FF;
/// The bits of mideleg that can be set.
pub const MIDELEG_MASK: u32 = 0x222;
/// The bits of mie that can be set.
pub const MIE_MASK: u32 = 0xAAA;
/// The bits of mip that can be set.
pub const MIP_MASK: u32 = 0xAAA;
/// The bits of satp that can be set.
pub const SATP_MASK: u32 = 0x803F_FFFF;

/// A privilege mode: user, supervisor or machine.
#[derive(Clone, Copy, Debug, PartialEq, Eq)]
pub enum Mode {
    U,
    S,
    M,
}

impl Mode {
    /// The two bits that name the mode: 0 for U, 1 for S, 3 for M.
    pub fn word(self) -> u32
        ensures { result ≡ mode_word self }
    {
        match self {
            Mode::U => 0,
            Mode::S => 1,
            Mode::M => 3,
        }
    }

    /// The mode that `word` names; 2 and the words past 3 name none.
    pub fn from_word(word: u32) -> Option<Mode>
        ensures named { IfSome result (λ mode. mode_word mode ≡ word) }
        ensures reserved { IfNone result ((word ≡ 2) ⊎ (3 < word)) }
    {
        match word {
            0 => Some(Mode::U),
            1 => Some(Mode::S),
            3 => Some(Mode::M),
            _ => None,
        }
    }
}

/// The registers of a hart: the program counter, x0 to x31, the mode, the control registers that are
/// kept, and the page of the machine that it runs. Control registers are inside their masks, pc, mepc
/// and sepc are multiples of 4, MPP is a mode, and `next` isn't page 0.
#[derive(Clone, Copy, Debug)]
pub struct Cpu {
    pub pc: u32,
    /// x0 to x31; x0 is always 0.
    pub x: [u32; 32],
    pub mode: Mode,
    pub mstatus: u32,
    pub mtvec: u32,
    pub mepc: u32,
    pub mcause: u32,
    pub mtval: u32,
    pub mscratch: u32,
    pub medeleg: u32,
    pub mideleg: u32,
    pub mie: u32,
    pub mip: u32,
    pub stvec: u32,
    pub sepc: u32,
    pub scause: u32,
    pub stval: u32,
    pub sscratch: u32,
    pub satp: u32,
    pub next: Option<u32>,
}

impl Model for Cpu {
    ghost use Rattle.hv_cpu.specs.Regs.{Regs};

    ghost Value = { Regs };

    ghost use Rattle.hv_cpu.specs.View.{regs_of, Inv, inside};
    ghost use Rattle.hv_cpu.specs.Arrays.{inside_is};

    ghost view = { regs_of };

    ghost invariant = { Inv };

    ghost inverse = { inside };

    ghost inverse_ok = { inside_is };
}

/// A hart as it starts: all registers zero, in mode M, with no machine to run.
pub fn reset() -> Cpu
    ensures { result ≡ reset_regs }
{
    Cpu {
        pc: 0,
        x: [0; 32],
        mode: Mode::M,
        mstatus: 0,
        mtvec: 0,
        mepc: 0,
        mcause: 0,
        mtval: 0,
        mscratch: 0,
        medeleg: 0,
        mideleg: 0,
        mie: 0,
        mip: 0,
        stvec: 0,
        sepc: 0,
        scause: 0,
        stval: 0,
        sscratch: 0,
        satp: 0,
        next: None,
    }
}

impl Cpu {
    /// Register `i` of x0 to x31; x0 is always 0.
    #[inline(always)]
    pub fn x(&self, i: u8) -> u32
        requires { i < 32 }
        ensures { result ≡ reg self.now i }
    {
        self.x[i as usize]
    }

    /// Writes register `i` of x0 to x31; what is written to x0 is lost.
    #[inline(always)]
    pub fn set_x(&mut self, i: u8, value: u32)
        requires { i < 32 }
        ensures { self.new ≡ with_reg self.old i value }
    {
        self.x[i as usize] = value;
        self.x[0] = 0;
    }

    /// Whether there is no machine to run, or one on a page below `pages`.
    #[inline(always)]
    pub fn well_formed(&self, pages: u32) -> bool
        ensures { result ≡ ((self.now.next == 0) || nat_lt self.now.next pages) }
    {
        self.next.is_none_or(|next| next < pages)
    }

    /// Makes the lines from outside those of `mask`, which has no other bits. They stay until changed.
    #[tactic(auto, using(crate::proofs::Lines::relined_is, crate::proofs::Lines::relined_inside))]
    pub fn set_lines(&mut self, mask: u32)
        requires { bit_and mask lines_mask ≡ mask }
        ensures { self.new ≡ lined_of self.old mask }
    {
        self.mip = (self.mip & !LINES) | mask;
    }

    /// The registers as words: pc, x1 to x31, the mode, the control registers in the order of the
    /// fields, and `next` with 0 for none.
    pub fn words(&self) -> [u32; 50]
        ensures { result ≡ spelled self.now }
    {
        let mut words = [0; 50];
        words[0] = self.pc;
        words[1..32].copy_from_slice(&self.x[1..]);
        words[32..].copy_from_slice(&self.control_words());
        words
    }

    // The words behind x31: the mode, the control registers and `next`.
    fn control_words(&self) -> [u32; 18]
        ensures { result ≡ drop 32 (spelled self.now) }
    {
        [
            self.mode.word(),
            self.mstatus,
            self.mtvec,
            self.mepc,
            self.mcause,
            self.mtval,
            self.mscratch,
            self.medeleg,
            self.mideleg,
            self.mie,
            self.mip,
            self.stvec,
            self.sepc,
            self.scause,
            self.stval,
            self.sscratch,
            self.satp,
            self.next.unwrap_or(0),
        ]
    }
}
