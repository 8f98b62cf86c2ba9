//! The rows of the instruction table, and what each does.

ghost use Rattle.std.specs.Prelude.{◌≡◌};
ghost use Rattle.hv_isa.specs.Table.{b_immediate, fields_of, i_immediate, row_of, s_immediate};
ghost use Rattle.hv_exec.specs.Arithmetic.{sum_of};
ghost use Rattle.hv_exec.specs.Answer.{answered, KeepsUnlessDone, TouchesAsTold, IsInRange};
ghost use Rattle.hv_exec.specs.Do.{do_of, fetched_of};

use crate::answer::{Task, Width, branch, give, jump, pass};
use crate::arithmetic::{even, flag, left, less_signed, right, right_signed};
use crate::memory::{load, store};
use crate::system::{Update, call, csr, enter, may_fence, may_wait, mret, sret};
use hv_cpu::Cpu;
use hv_isa::{
    Op, branch_offset, immediate, jump_offset, rd, rs1, rs2, shift_amount, store_offset, upper,
};
use hv_store::Space;

/// An instruction that was fetched: its word, its address, and the values of the registers that the fields rs1 and rs2 name.
#[derive(Clone, Copy)]
pub(crate) struct Fetched {
    word: u32,
    pc: u32,
    a: u32,
    b: u32,
}

impl Fetched {
    /// The instruction of this word, of a hart with these registers.
    #[inline(always)]
    pub(crate) fn new(cpu: &Cpu, word: u32) -> Fetched
        ensures { result ≡ fetched_of word cpu.now }
    {
        Fetched {
            word,
            pc: cpu.pc,
            a: cpu.x(rs1(word)),
            b: cpu.x(rs2(word)),
        }
    }
}

/// An instruction's own work on the registers of a hart, and what is left to do. Each kind of space has a copy of its own: a
/// function that is called in one place alone becomes a part of that, whatever its size.
#[tactic(auto, using(crate::proofs::Keeps::keeps_same), unfolding(crate::specs::Do::do_of))]
pub(crate) fn perform<S: Space>(cpu: &mut Cpu, hart: u32, op: Op, fetched: Fetched) -> Task
    requires { fetched ≡ fetched_of fetched.word cpu.old }
    ensures does { answered result cpu.new
        ≡ do_of (fields_of (row_of op) op fetched.word) fetched.word cpu.old hart }
    ensures keeps { KeepsUnlessDone result cpu.old cpu.new }
    ensures touches { TouchesAsTold result cpu.old cpu.new }
    ensures range { IsInRange result }
    ensures next { cpu.new.next ≡ cpu.old.next }
{
    let Fetched { word, pc, a, b } = fetched;
    match op {
        Op::Lui => give(cpu, rd(word), upper(word)),
        Op::Auipc => give(cpu, rd(word), pc.wrapping_add(upper(word))),
        Op::Jal => jump(cpu, rd(word), pc.wrapping_add(jump_offset(word))),
        Op::Jalr => jump(cpu, rd(word), even(near(a, word))),
        Op::Beq => branch(cpu, a == b, branch_target(pc, word)),
        Op::Bne => branch(cpu, a != b, branch_target(pc, word)),
        Op::Blt => branch(cpu, less_signed(a, b), branch_target(pc, word)),
        Op::Bge => branch(cpu, !less_signed(a, b), branch_target(pc, word)),
        Op::Bltu => branch(cpu, a < b, branch_target(pc, word)),
        Op::Bgeu => branch(cpu, a >= b, branch_target(pc, word)),
        Op::Lb => load(near(a, word), Width::Byte, true, rd(word)),
        Op::Lh => load(near(a, word), Width::Half, true, rd(word)),
        Op::Lw => load(near(a, word), Width::Word, true, rd(word)),
        Op::Lbu => load(near(a, word), Width::Byte, false, rd(word)),
        Op::Lhu => load(near(a, word), Width::Half, false, rd(word)),
        Op::Sb => store(store_address(a, word), Width::Byte, b),
        Op::Sh => store(store_address(a, word), Width::Half, b),
        Op::Sw => store(store_address(a, word), Width::Word, b),
        Op::Addi => give(cpu, rd(word), near(a, word)),
        Op::Slti => give(cpu, rd(word), flag(less_signed(a, immediate(word)))),
        Op::Sltiu => give(cpu, rd(word), flag(a < immediate(word))),
        Op::Xori => give(cpu, rd(word), a ^ immediate(word)),
        Op::Ori => give(cpu, rd(word), a | immediate(word)),
        Op::Andi => give(cpu, rd(word), a & immediate(word)),
        Op::Slli => give(cpu, rd(word), left(a, shift_amount(word))),
        Op::Srli => give(cpu, rd(word), right(a, shift_amount(word))),
        Op::Srai => give(cpu, rd(word), right_signed(a, shift_amount(word))),
        Op::Add => give(cpu, rd(word), a.wrapping_add(b)),
        Op::Sub => give(cpu, rd(word), a.wrapping_sub(b)),
        Op::Sll => give(cpu, rd(word), left(a, b)),
        Op::Slt => give(cpu, rd(word), flag(less_signed(a, b))),
        Op::Sltu => give(cpu, rd(word), flag(a < b)),
        Op::Xor => give(cpu, rd(word), a ^ b),
        Op::Srl => give(cpu, rd(word), right(a, b)),
        Op::Sra => give(cpu, rd(word), right_signed(a, b)),
        Op::Or => give(cpu, rd(word), a | b),
        Op::And => give(cpu, rd(word), a & b),
        Op::Fence | Op::FenceI => pass(cpu, true, word),
        Op::Ecall => call(cpu),
        Op::Ebreak => Task::Trap { cause: 3, tval: 0 },
        Op::Csrrw => csr(cpu, hart, op, word, Update::Replace, a),
        Op::Csrrs => csr(cpu, hart, op, word, Update::Set, a),
        Op::Csrrc => csr(cpu, hart, op, word, Update::Clear, a),
        Op::Csrrwi => csr(cpu, hart, op, word, Update::Replace, rs1(word) as u32),
        Op::Csrrsi => csr(cpu, hart, op, word, Update::Set, rs1(word) as u32),
        Op::Csrrci => csr(cpu, hart, op, word, Update::Clear, rs1(word) as u32),
        Op::Sret => sret(cpu, word),
        Op::Mret => mret(cpu, word),
        Op::Wfi => {
            let allowed = may_wait(cpu);
            pass(cpu, allowed, word)
        }
        Op::SfenceVma => {
            let allowed = may_fence(cpu);
            pass(cpu, allowed, word)
        }
        Op::Vmenter => enter(cpu, word, a),
    }
}

// The sum of a source and the immediate of the format I.
#[inline(always)]
fn near(a: u32, word: u32) -> u32
    ensures { result ≡ sum_of a (i_immediate word) }
{
    a.wrapping_add(immediate(word))
}

// The address that a store writes, of the format S.
#[inline(always)]
fn store_address(a: u32, word: u32) -> u32
    ensures { result ≡ sum_of a (s_immediate word) }
{
    a.wrapping_add(store_offset(word))
}

// Where a branch at pc goes, of the format B.
#[inline(always)]
fn branch_target(pc: u32, word: u32) -> u32
    ensures { result ≡ sum_of pc (b_immediate word) }
{
    pc.wrapping_add(branch_offset(word))
}
