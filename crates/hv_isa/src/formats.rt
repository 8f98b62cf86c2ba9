//! The formats: a word read as an instruction, and an instruction's fields put into a word.

ghost use Rattle.std.specs.Prelude.{ℕ, ◌≡◌, ◌<◌};
ghost use Rattle.hv_word.specs.Words.{field_of};
ghost use Rattle.hv_isa.specs.Table.{B, Csr, Fits, I, J, One, Pair, R, S, Shift, U, Whole, fields_of, spell};
ghost use Rattle.hv_isa.specs.declared.Instr.{Instr};
ghost use Rattle.hv_isa.specs.declared.Op.{Op};

use crate::fields::{
    branch_offset, csr_number, immediate, jump_offset, rd, rs1, rs2, shift_amount, store_offset,
    upper,
};
use crate::{Instr, Op};
use hv_word::field;

pub(crate) fn read_upper(op: Op, word: u32) -> Instr
    ensures { result ≡ fields_of (U 0) op word }
{
    Instr {
        op,
        rd: rd(word),
        rs1: 0,
        rs2: 0,
        imm: upper(word),
    }
}

pub(crate) fn read_jump(op: Op, word: u32) -> Instr
    ensures { result ≡ fields_of (J 0) op word }
{
    Instr {
        op,
        rd: rd(word),
        rs1: 0,
        rs2: 0,
        imm: jump_offset(word),
    }
}

pub(crate) fn read_branch(op: Op, word: u32) -> Instr
    ensures { result ≡ fields_of (B 0 0) op word }
{
    Instr {
        op,
        rd: 0,
        rs1: rs1(word),
        rs2: rs2(word),
        imm: branch_offset(word),
    }
}

pub(crate) fn read_immediate(op: Op, word: u32) -> Instr
    ensures { result ≡ fields_of (I 0 0) op word }
{
    Instr {
        op,
        rd: rd(word),
        rs1: rs1(word),
        rs2: 0,
        imm: immediate(word),
    }
}

pub(crate) fn read_store(op: Op, word: u32) -> Instr
    ensures { result ≡ fields_of (S 0 0) op word }
{
    Instr {
        op,
        rd: 0,
        rs1: rs1(word),
        rs2: rs2(word),
        imm: store_offset(word),
    }
}

pub(crate) fn read_registers(op: Op, word: u32) -> Instr
    ensures { result ≡ fields_of (R 0 0 0) op word }
{
    Instr {
        op,
        rd: rd(word),
        rs1: rs1(word),
        rs2: rs2(word),
        imm: 0,
    }
}

pub(crate) fn read_shift(op: Op, word: u32) -> Instr
    ensures { result ≡ fields_of (Shift 0 0 0) op word }
{
    Instr {
        op,
        rd: rd(word),
        rs1: rs1(word),
        rs2: 0,
        imm: shift_amount(word),
    }
}

pub(crate) fn read_control(op: Op, word: u32) -> Instr
    ensures { result ≡ fields_of (Csr 0 0) op word }
{
    Instr {
        op,
        rd: rd(word),
        rs1: rs1(word),
        rs2: 0,
        imm: csr_number(word),
    }
}

pub(crate) fn read_pair(op: Op, word: u32) -> Instr
    ensures { result ≡ fields_of (Pair 0 0 0) op word }
{
    Instr {
        op,
        rd: 0,
        rs1: rs1(word),
        rs2: rs2(word),
        imm: 0,
    }
}

pub(crate) fn read_source(op: Op, word: u32) -> Instr
    ensures { result ≡ fields_of (One 0 0) op word }
{
    Instr {
        op,
        rd: 0,
        rs1: rs1(word),
        rs2: 0,
        imm: 0,
    }
}

pub(crate) fn read_whole(op: Op) -> Instr
    ensures { result ≡ fields_of (Whole 0 0 0) op 0 }
{
    Instr {
        op,
        rd: 0,
        rs1: 0,
        rs2: 0,
        imm: 0,
    }
}

pub(crate) fn spell_upper(opcode: u32, instr: &Instr) -> u32
    requires opcode { opcode < 128 }
    requires fits { Fits (U opcode) instr.now }
    ensures { result ≡ spell (U opcode) instr.now }
{
    opcode + (u32::from(instr.rd) << 7) + instr.imm
}

pub(crate) fn spell_jump(opcode: u32, instr: &Instr) -> u32
    requires opcode { opcode < 128 }
    requires fits { Fits (J opcode) instr.now }
    ensures { result ≡ spell (J opcode) instr.now }
{
    let imm = instr.imm;
    let low = (field::<12, 8>(imm) << 12) + (field::<11, 1>(imm) << 20);
    let high = (field::<1, 10>(imm) << 21) + (field::<20, 1>(imm) << 31);
    opcode + (u32::from(instr.rd) << 7) + low + high
}

pub(crate) fn spell_branch(opcode: u32, f3: u32, instr: &Instr) -> u32
    requires fixed { (opcode < 128) × (f3 < 8) }
    requires fits { Fits (B opcode f3) instr.now }
    ensures { result ≡ spell (B opcode f3) instr.now }
{
    let imm = instr.imm;
    let low = (field::<11, 1>(imm) << 7) + (field::<1, 4>(imm) << 8);
    let high = (field::<5, 6>(imm) << 25) + (field::<12, 1>(imm) << 31);
    let registers = (u32::from(instr.rs1) << 15) + (u32::from(instr.rs2) << 20);
    opcode + low + (f3 << 12) + registers + high
}

pub(crate) fn spell_immediate(opcode: u32, f3: u32, instr: &Instr) -> u32
    requires fixed { (opcode < 128) × (f3 < 8) }
    requires fits { Fits (I opcode f3) instr.now }
    ensures { result ≡ spell (I opcode f3) instr.now }
{
    let registers = (u32::from(instr.rd) << 7) + (u32::from(instr.rs1) << 15);
    opcode + (f3 << 12) + registers + (field::<0, 12>(instr.imm) << 20)
}

pub(crate) fn spell_store(opcode: u32, f3: u32, instr: &Instr) -> u32
    requires fixed { (opcode < 128) × (f3 < 8) }
    requires fits { Fits (S opcode f3) instr.now }
    ensures { result ≡ spell (S opcode f3) instr.now }
{
    let imm = instr.imm;
    let registers = (u32::from(instr.rs1) << 15) + (u32::from(instr.rs2) << 20);
    opcode + (field::<0, 5>(imm) << 7) + (f3 << 12) + registers + (field::<5, 7>(imm) << 25)
}

pub(crate) fn spell_registers(opcode: u32, f3: u32, f7: u32, instr: &Instr) -> u32
    requires fixed { (opcode < 128) × (f3 < 8) × (f7 < 128) }
    requires fits { (instr.now.rd < 32) × (instr.now.rs1 < 32) × (instr.now.rs2 < 32) }
    ensures { result ≡ spell (R opcode f3 f7) instr.now }
{
    let registers = (u32::from(instr.rs1) << 15) + (u32::from(instr.rs2) << 20);
    opcode + (u32::from(instr.rd) << 7) + (f3 << 12) + registers + (f7 << 25)
}

pub(crate) fn spell_shift(opcode: u32, f3: u32, f7: u32, instr: &Instr) -> u32
    requires fixed { (opcode < 128) × (f3 < 8) × (f7 < 128) }
    requires fits { Fits (Shift opcode f3 f7) instr.now }
    ensures { result ≡ spell (Shift opcode f3 f7) instr.now }
{
    let registers = (u32::from(instr.rd) << 7) + (u32::from(instr.rs1) << 15);
    opcode + (f3 << 12) + registers + (instr.imm << 20) + (f7 << 25)
}

pub(crate) fn spell_control(opcode: u32, f3: u32, instr: &Instr) -> u32
    requires fixed { (opcode < 128) × (f3 < 8) }
    requires fits { Fits (Csr opcode f3) instr.now }
    ensures { result ≡ spell (Csr opcode f3) instr.now }
{
    let registers = (u32::from(instr.rd) << 7) + (u32::from(instr.rs1) << 15);
    opcode + (f3 << 12) + registers + (instr.imm << 20)
}
