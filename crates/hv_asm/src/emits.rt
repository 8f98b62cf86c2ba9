//! The words of an operation.

ghost use Rattle.std.specs.Prelude.{◌≡◌, ◌<◌, ◌%◌, ◌++◌, OnOk};
ghost use Rattle.std.specs.List.{list_all};
ghost use Rattle.hv_isa.specs.Table.{row_of};
ghost use Rattle.hv_asm.specs.Emitted.{Appends};
ghost use Rattle.std.specs.Prelude.{replicate};
ghost use Rattle.hv_asm.specs.Forms.{UsesRegisters, form_of};
ghost use Rattle.hv_asm.specs.Labels.{place_in};
ghost use Rattle.hv_asm.specs.Words.{single, zeros_of, bare_short as bare_short_of, csr_read_word as csr_read_word_of, csr_write_word as csr_write_word_of, high_part as high_part_of, is_defined as is_defined_of, is_value as is_value_of, la_words as la_words_of, li_words as li_words_of, low_part as low_part_of, move_word as move_word_of, one_word as one_word_of, pair_words as pair_words_of, space_count as space_count_of, value as value_of, value_at as value_at_of, value_words as value_words_of, values_of, words_with as words_with_of};

use crate::AsmKind;
use crate::amounts::{Amount, word};
use crate::forms::{Form, instruction};
use crate::labels::Labels;
use crate::limits::SPACE_BYTES;
use crate::names::Operation;
use crate::operands::{Operand, text};
use crate::rows::{address, csr, number, plain_jump_word, register, row_word, zero_word};
use hv_isa::Op;
use std::alloc::{AllocError, AllocFailed};

/// Why a line has no words.
#[derive(Clone, Copy)]
pub(crate) enum EmitEnd {
    Fault(AsmKind),
    Memory,
}

impl From<AsmKind> for EmitEnd {
    ghost use Rattle.std.specs.Prelude.{◌≡◌};
    ghost use Rattle.hv_asm.specs.declared.emits.EmitEnd.TheVariants.{Fault};

    ghost from_gives = { λ kind end. end ≡ Fault kind };

    fn from(kind: AsmKind) -> EmitEnd {
        EmitEnd::Fault(kind)
    }
}

impl From<AllocError> for EmitEnd {
    ghost use Rattle.std.specs.Prelude.{◌≡◌};
    ghost use Rattle.hv_asm.specs.declared.emits.EmitEnd.TheVariants.{Memory};

    ghost from_gives = { λ _ end. end ≡ Memory };

    fn from(_error: AllocError) -> EmitEnd {
        EmitEnd::Memory
    }
}

impl From<AllocFailed<u32>> for EmitEnd {
    ghost use Rattle.std.specs.Prelude.{◌≡◌};
    ghost use Rattle.hv_asm.specs.declared.emits.EmitEnd.TheVariants.{Memory};

    ghost from_gives = { λ _ end. end ≡ Memory };

    fn from(_failed: AllocFailed<u32>) -> EmitEnd {
        EmitEnd::Memory
    }
}

// A word given by a number.
#[tactic(auto, unfolding(crate::specs::Words::value))]
fn value(amount: Amount) -> Result<u32, AsmKind>
    ensures { result ≡ value_of amount }
{
    match amount {
        Amount::Plus(size) => {
            if size < 0x1_0000_0000 {
                Ok(size as u32)
            } else {
                Err(AsmKind::Range)
            }
        }
        Amount::Minus(size) => {
            if size <= 0x8000_0000 {
                Ok(word(amount))
            } else {
                Err(AsmKind::Range)
            }
        }
    }
}

// The low 12 bits as a signed number.
#[tactic(auto, unfolding(crate::specs::Words::low_part))]
fn low_part(value: u32) -> Amount
    ensures { result ≡ low_part_of value }
{
    let low = u64::from(value % 4096);
    if low < 2048 {
        Amount::Plus(low)
    } else {
        Amount::Minus(4096 - low)
    }
}

// What is left above them.
#[tactic(auto, unfolding(crate::specs::Words::high_part))]
fn high_part(value: u32) -> Amount
    ensures { result ≡ high_part_of value }
{
    let high = if value % 4096 < 2048 {
        value / 4096
    } else {
        value / 4096 + 1
    };
    Amount::Plus(u64::from(high % 0x10_0000))
}

// lui and addi make a word in a register.
#[tactic(auto, unfolding(crate::specs::Words::pair_words))]
fn pair_words(rd: u8, value: u32) -> Result<[u32; 2], AsmKind>
    requires { rd < 32 }
    ensures { result ≡ pair_words_of rd value }
{
    let high = instruction(Form::Upper, Op::Lui, rd, 0, 0, high_part(value))?;
    let low = instruction(Form::Immediate, Op::Addi, rd, rd, 0, low_part(value))?;
    Ok([high, low])
}

#[tactic(auto, unfolding(crate::specs::Words::li_words))]
fn li_words(line: &[u8], operands: &[Operand]) -> Result<[u32; 2], AsmKind>
    ensures { result ≡ li_words_of line.now operands.now }
{
    let [a, n] = operands else {
        return Err(AsmKind::Operand);
    };
    let rd = register(line, *a)?;
    let amount = number(*n)?;
    let value = value(amount)?;
    pair_words(rd, value)
}

#[tactic(auto, unfolding(crate::specs::Words::la_words))]
fn la_words(labels: &Labels, line: &[u8], operands: &[Operand]) -> Result<[u32; 2], AsmKind>
    ensures { result ≡ la_words_of (place_in labels.now) line.now operands.now }
{
    let [a, Operand::Name(token)] = operands else {
        return Err(AsmKind::Operand);
    };
    let rd = register(line, *a)?;
    let to = address(labels, line, *token)?;
    pair_words(rd, (to % 0x1_0000_0000) as u32)
}

// A short form without operands: an instruction with only rs1.
#[tactic(auto, unfolding(crate::specs::Words::bare_short))]
fn bare_short(form: Form, op: Op, rs1: u8, operands: &[Operand]) -> Result<u32, AsmKind>
    requires same { form ≡ form_of (row_of op) }
    requires registers { UsesRegisters form 0 rs1 0 }
    ensures { result ≡ bare_short_of op rs1 operands.now }
{
    if !operands.is_empty() {
        return Err(AsmKind::Operand);
    }
    instruction(form, op, 0, rs1, 0, Amount::Plus(0))
}

#[tactic(auto, unfolding(crate::specs::Words::move_word))]
fn move_word(line: &[u8], operands: &[Operand]) -> Result<u32, AsmKind>
    ensures { result ≡ move_word_of line.now operands.now }
{
    let [a, b] = operands else {
        return Err(AsmKind::Operand);
    };
    let rd = register(line, *a)?;
    let rs1 = register(line, *b)?;
    instruction(Form::Immediate, Op::Addi, rd, rs1, 0, Amount::Plus(0))
}

#[tactic(auto, unfolding(crate::specs::Words::csr_read_word))]
fn csr_read_word(line: &[u8], operands: &[Operand]) -> Result<u32, AsmKind>
    ensures { result ≡ csr_read_word_of line.now operands.now }
{
    let [a, b] = operands else {
        return Err(AsmKind::Operand);
    };
    let rd = register(line, *a)?;
    let imm = csr(line, *b)?;
    instruction(Form::CsrRegister, Op::Csrrs, rd, 0, 0, imm)
}

#[tactic(auto, unfolding(crate::specs::Words::csr_write_word))]
fn csr_write_word(line: &[u8], operands: &[Operand]) -> Result<u32, AsmKind>
    ensures { result ≡ csr_write_word_of line.now operands.now }
{
    let [a, b] = operands else {
        return Err(AsmKind::Operand);
    };
    let imm = csr(line, *a)?;
    let rs1 = register(line, *b)?;
    instruction(Form::CsrRegister, Op::Csrrw, 0, rs1, 0, imm)
}

// The word of an operation that makes one.
#[tactic(auto, unfolding(crate::specs::Words::one_word))]
fn one_word(
    labels: &Labels,
    at: u64,
    line: &[u8],
    operation: Operation,
    operands: &[Operand],
) -> Result<u32, AsmKind>
    ensures { result ≡ one_word_of (place_in labels.now) at line.now operation operands.now }
{
    match operation {
        Operation::Row(op) => row_word(labels, at, line, op, operands),
        Operation::Nop => bare_short(Form::Immediate, Op::Addi, 0, operands),
        Operation::Mv => move_word(line, operands),
        Operation::J => plain_jump_word(labels, at, line, operands),
        Operation::Ret => bare_short(Form::Load, Op::Jalr, 1, operands),
        Operation::Beqz => zero_word(labels, at, line, Op::Beq, operands),
        Operation::Bnez => zero_word(labels, at, line, Op::Bne, operands),
        Operation::Csrr => csr_read_word(line, operands),
        Operation::Csrw => csr_write_word(line, operands),
        Operation::Li | Operation::La | Operation::Words | Operation::Space => Err(
            AsmKind::Operand,
        ),
    }
}

fn is_value(operand: Operand) -> bool
    ensures { result ≡ is_value_of operand }
{
    match operand {
        Operand::Name(_) | Operand::Number(_) => true,
        Operand::Based(_, _) => false,
    }
}

fn is_defined(labels: &Labels, line: &[u8], operand: Operand) -> bool
    ensures { result ≡ is_defined_of (place_in labels.now) line.now operand }
{
    match operand {
        Operand::Name(token) => labels.find(text(line, token)).is_some(),
        Operand::Number(_) | Operand::Based(_, _) => true,
    }
}

// The word of a number or a label.
#[tactic(auto, unfolding(crate::specs::Words::value_at))]
fn value_at(labels: &Labels, line: &[u8], operand: Operand) -> Result<u32, AsmKind>
    ensures { result ≡ value_at_of (place_in labels.now) line.now operand }
{
    match operand {
        Operand::Name(token) => {
            let at = address(labels, line, token)?;
            Ok((at % 0x1_0000_0000) as u32)
        }
        Operand::Number(amount) => value(amount),
        Operand::Based(_, _) => Err(AsmKind::Operand),
    }
}

fn are_values(operands: &[Operand]) -> bool
    ensures { result ≡ list_all is_value_of operands.now }
{
    operands.iter().all(|operand| is_value(*operand))
}

fn are_defined(labels: &Labels, line: &[u8], operands: &[Operand]) -> bool
    ensures { result ≡ list_all (is_defined_of (place_in labels.now) line.now) operands.now }
{
    operands
        .iter()
        .all(|operand| is_defined(labels, line, *operand))
}

// How many words of zero `.space` makes.
#[tactic(auto, unfolding(crate::specs::Words::space_count))]
fn space_count(operands: &[Operand]) -> Result<u64, AsmKind>
    ensures { result ≡ space_count_of operands.now }
{
    let [Operand::Number(amount)] = operands else {
        return Err(AsmKind::Operand);
    };
    match *amount {
        Amount::Plus(size) => {
            if size <= SPACE_BYTES && size % 4 == 0 {
                Ok(size / 4)
            } else {
                Err(AsmKind::Range)
            }
        }
        Amount::Minus(_) => Err(AsmKind::Range),
    }
}

// Appends the words of numbers and labels.
fn push_values(
    out: &mut Vec<u32>,
    labels: &Labels,
    line: &[u8],
    operands: &[Operand],
) -> Result<(), EmitEnd>
    ensures { Appends result (values_of (place_in labels.now) line.now operands.now) out.old.items out.new.items }
{
    for operand in operands {
        let word = value_at(labels, line, *operand)?;
        out.push(word)?;
    }
    Ok(())
}

// Appends zeros.
fn push_zeros(out: &mut Vec<u32>, count: u64) -> Result<(), AllocFailed<u32>>
    ensures { OnOk result (out.new.items ≡ out.old.items ++ replicate count 0) }
{
    for _ in 0..count {
        out.push(0)?;
    }
    Ok(())
}

#[tactic(auto, unfolding(crate::specs::Words::value_words))]
fn push_value_words(
    out: &mut Vec<u32>,
    labels: &Labels,
    line: &[u8],
    operands: &[Operand],
) -> Result<(), EmitEnd>
    ensures { Appends result (value_words_of (place_in labels.now) line.now operands.now) out.old.items out.new.items }
{
    if operands.is_empty() || !are_values(operands) {
        return Err(EmitEnd::Fault(AsmKind::Operand));
    }
    if !are_defined(labels, line, operands) {
        return Err(EmitEnd::Fault(AsmKind::Label));
    }
    push_values(out, labels, line, operands)
}

fn push_space(out: &mut Vec<u32>, operands: &[Operand]) -> Result<(), EmitEnd>
    ensures { Appends result (zeros_of operands.now) out.old.items out.new.items }
{
    let count = space_count(operands)?;
    push_zeros(out, count)?;
    Ok(())
}

fn push_pair(out: &mut Vec<u32>, pair: Result<[u32; 2], AsmKind>) -> Result<(), EmitEnd>
    ensures { Appends result pair out.old.items out.new.items }
{
    let pair = pair?;
    out.extend_from_slice(&pair)?;
    Ok(())
}

fn push_one(out: &mut Vec<u32>, word: Result<u32, AsmKind>) -> Result<(), EmitEnd>
    ensures { Appends result (single word) out.old.items out.new.items }
{
    let word = word?;
    out.push(word)?;
    Ok(())
}

/// Appends the words of an operation.
#[tactic(auto, unfolding(crate::specs::Words::words_with))]
pub(crate) fn push_words(
    out: &mut Vec<u32>,
    labels: &Labels,
    at: u64,
    line: &[u8],
    operation: Operation,
    operands: &[Operand],
) -> Result<(), EmitEnd>
    ensures { Appends result (words_with_of (place_in labels.now) at line.now operation operands.now)
        out.old.items out.new.items }
{
    match operation {
        Operation::Li => push_pair(out, li_words(line, operands)),
        Operation::La => push_pair(out, la_words(labels, line, operands)),
        Operation::Words => push_value_words(out, labels, line, operands),
        Operation::Space => push_space(out, operands),
        _ => push_one(out, one_word(labels, at, line, operation, operands)),
    }
}
