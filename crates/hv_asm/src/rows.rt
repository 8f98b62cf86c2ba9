//! The word of an instruction, from its operands.

ghost use Rattle.std.specs.Prelude.{◌≡◌, ◌<◌, ℕ, IfOk};
ghost use Rattle.hv_isa.specs.Table.{row_of};
ghost use Rattle.hv_asm.specs.Forms.{UsesRegisters, form_of};
ghost use Rattle.hv_asm.specs.Labels.{place_in};
ghost use Rattle.hv_asm.specs.Rows.{address as address_of, bare_word as bare_word_of, branch_word as branch_word_of, csr as csr_of, csr_number_word as csr_number_word_of, csr_register_word as csr_register_word_of, immediate_word as immediate_word_of, jump_word as jump_word_of, load_word as load_word_of, number as number_of, plain_jump_word as plain_jump_word_of, register as register_of, register_at as register_at_of, registers_word as registers_word_of, row_word as row_word_of, small as small_of, source_word as source_word_of, sources_word as sources_word_of, store_word as store_word_of, target as target_of, upper_word as upper_word_of, zero_word as zero_word_of};

use crate::AsmKind;
use crate::amounts::{Amount, distance, within, word};
use crate::forms::{Form, form_for, instruction};
use crate::labels::Labels;
use crate::names::{csr_named, register_named};
use crate::operands::{Operand, text};
use hv_isa::Op;
use hv_lex::Token;

#[tactic(auto, unfolding(crate::specs::Rows::register_at))]
fn register_at(line: &[u8], token: Token) -> Result<u8, AsmKind>
    ensures value { result ≡ register_at_of line.now token }
    ensures below { IfOk result (λ number. number < 32) }
{
    match register_named(text(line, token)) {
        Some(number) => Ok(number),
        None => Err(AsmKind::Operand),
    }
}

#[tactic(auto, unfolding(crate::specs::Rows::register))]
pub(crate) fn register(line: &[u8], operand: Operand) -> Result<u8, AsmKind>
    ensures value { result ≡ register_of line.now operand }
    ensures below { IfOk result (λ number. number < 32) }
{
    match operand {
        Operand::Name(token) => register_at(line, token),
        Operand::Number(_) | Operand::Based(_, _) => Err(AsmKind::Operand),
    }
}

#[tactic(auto, unfolding(crate::specs::Rows::number))]
pub(crate) fn number(operand: Operand) -> Result<Amount, AsmKind>
    ensures { result ≡ number_of operand }
{
    match operand {
        Operand::Number(amount) => Ok(amount),
        Operand::Name(_) | Operand::Based(_, _) => Err(AsmKind::Operand),
    }
}

// A control and status register, by name or by number.
#[tactic(auto, unfolding(crate::specs::Rows::csr))]
pub(crate) fn csr(line: &[u8], operand: Operand) -> Result<Amount, AsmKind>
    ensures { result ≡ csr_of line.now operand }
{
    match operand {
        Operand::Name(token) => match csr_named(text(line, token)) {
            Some(number) => Ok(Amount::Plus(u64::from(number))),
            None => Err(AsmKind::Operand),
        },
        Operand::Number(amount) => Ok(amount),
        Operand::Based(_, _) => Err(AsmKind::Operand),
    }
}

/// The address of a label.
#[tactic(auto, unfolding(crate::specs::Rows::address))]
pub(crate) fn address(labels: &Labels, line: &[u8], token: Token) -> Result<u64, AsmKind>
    ensures { result ≡ address_of (place_in labels.now) line.now token }
{
    match labels.find(text(line, token)) {
        Some(place) => Ok(place.at),
        None => Err(AsmKind::Label),
    }
}

// How far a target is from the instruction at this address.
#[tactic(auto, unfolding(crate::specs::Rows::target))]
fn target(labels: &Labels, at: u64, line: &[u8], operand: Operand) -> Result<Amount, AsmKind>
    ensures { result ≡ target_of (place_in labels.now) at line.now operand }
{
    match operand {
        Operand::Name(token) => {
            let to = address(labels, line, token)?;
            Ok(distance(at, to))
        }
        Operand::Number(amount) => Ok(amount),
        Operand::Based(_, _) => Err(AsmKind::Operand),
    }
}

#[tactic(auto, unfolding(crate::specs::Rows::registers_word))]
fn registers_word(line: &[u8], op: Op, operands: &[Operand]) -> Result<u32, AsmKind>
    requires { form_of (row_of op) ≡ Form.Registers }
    ensures { result ≡ registers_word_of line.now op operands.now }
{
    let [a, b, c] = operands else {
        return Err(AsmKind::Operand);
    };
    let rd = register(line, *a)?;
    let rs1 = register(line, *b)?;
    let rs2 = register(line, *c)?;
    instruction(Form::Registers, op, rd, rs1, rs2, Amount::Plus(0))
}

// rd, rs1 and a number.
#[tactic(auto, unfolding(crate::specs::Rows::immediate_word))]
fn immediate_word(form: Form, line: &[u8], op: Op, operands: &[Operand]) -> Result<u32, AsmKind>
    requires same { form ≡ form_of (row_of op) }
    requires registers { (rd rs1 : ℕ) → rd < 32 → rs1 < 32 → UsesRegisters form rd rs1 0 }
    ensures { result ≡ immediate_word_of line.now op operands.now }
{
    let [a, b, n] = operands else {
        return Err(AsmKind::Operand);
    };
    let rd = register(line, *a)?;
    let rs1 = register(line, *b)?;
    let imm = number(*n)?;
    instruction(form, op, rd, rs1, 0, imm)
}

#[tactic(auto, unfolding(crate::specs::Rows::load_word))]
fn load_word(line: &[u8], op: Op, operands: &[Operand]) -> Result<u32, AsmKind>
    requires { form_of (row_of op) ≡ Form.Load }
    ensures { result ≡ load_word_of line.now op operands.now }
{
    let [a, Operand::Based(imm, base)] = operands else {
        return Err(AsmKind::Operand);
    };
    let rd = register(line, *a)?;
    let rs1 = register_at(line, *base)?;
    instruction(Form::Load, op, rd, rs1, 0, *imm)
}

#[tactic(auto, unfolding(crate::specs::Rows::store_word))]
fn store_word(line: &[u8], op: Op, operands: &[Operand]) -> Result<u32, AsmKind>
    requires { form_of (row_of op) ≡ Form.Store }
    ensures { result ≡ store_word_of line.now op operands.now }
{
    let [a, Operand::Based(imm, base)] = operands else {
        return Err(AsmKind::Operand);
    };
    let rs2 = register(line, *a)?;
    let rs1 = register_at(line, *base)?;
    instruction(Form::Store, op, 0, rs1, rs2, *imm)
}

#[tactic(auto, unfolding(crate::specs::Rows::branch_word))]
fn branch_word(
    labels: &Labels,
    at: u64,
    line: &[u8],
    op: Op,
    operands: &[Operand],
) -> Result<u32, AsmKind>
    requires { form_of (row_of op) ≡ Form.Branch }
    ensures { result ≡ branch_word_of (place_in labels.now) at line.now op operands.now }
{
    let [a, b, to] = operands else {
        return Err(AsmKind::Operand);
    };
    let rs1 = register(line, *a)?;
    let rs2 = register(line, *b)?;
    let offset = target(labels, at, line, *to)?;
    instruction(Form::Branch, op, 0, rs1, rs2, offset)
}

/// A branch that compares with zero.
#[tactic(auto, unfolding(crate::specs::Rows::zero_word))]
pub(crate) fn zero_word(
    labels: &Labels,
    at: u64,
    line: &[u8],
    op: Op,
    operands: &[Operand],
) -> Result<u32, AsmKind>
    requires { form_of (row_of op) ≡ Form.Branch }
    ensures { result ≡ zero_word_of (place_in labels.now) at line.now op operands.now }
{
    let [a, to] = operands else {
        return Err(AsmKind::Operand);
    };
    let rs1 = register(line, *a)?;
    let offset = target(labels, at, line, *to)?;
    instruction(Form::Branch, op, 0, rs1, 0, offset)
}

#[tactic(auto, unfolding(crate::specs::Rows::jump_word))]
fn jump_word(labels: &Labels, at: u64, line: &[u8], operands: &[Operand]) -> Result<u32, AsmKind>
    ensures { result ≡ jump_word_of (place_in labels.now) at line.now operands.now }
{
    let [a, to] = operands else {
        return Err(AsmKind::Operand);
    };
    let rd = register(line, *a)?;
    let offset = target(labels, at, line, *to)?;
    instruction(Form::Jump, Op::Jal, rd, 0, 0, offset)
}

/// A jump that keeps no return address.
#[tactic(auto, unfolding(crate::specs::Rows::plain_jump_word))]
pub(crate) fn plain_jump_word(
    labels: &Labels,
    at: u64,
    line: &[u8],
    operands: &[Operand],
) -> Result<u32, AsmKind>
    ensures { result ≡ plain_jump_word_of (place_in labels.now) at line.now operands.now }
{
    let [to] = operands else {
        return Err(AsmKind::Operand);
    };
    let offset = target(labels, at, line, *to)?;
    instruction(Form::Jump, Op::Jal, 0, 0, 0, offset)
}

#[tactic(auto, unfolding(crate::specs::Rows::upper_word))]
fn upper_word(line: &[u8], op: Op, operands: &[Operand]) -> Result<u32, AsmKind>
    requires { form_of (row_of op) ≡ Form.Upper }
    ensures { result ≡ upper_word_of line.now op operands.now }
{
    let [a, n] = operands else {
        return Err(AsmKind::Operand);
    };
    let rd = register(line, *a)?;
    let imm = number(*n)?;
    instruction(Form::Upper, op, rd, 0, 0, imm)
}

#[tactic(auto, unfolding(crate::specs::Rows::csr_register_word))]
fn csr_register_word(line: &[u8], op: Op, operands: &[Operand]) -> Result<u32, AsmKind>
    requires { form_of (row_of op) ≡ Form.CsrRegister }
    ensures { result ≡ csr_register_word_of line.now op operands.now }
{
    let [a, b, c] = operands else {
        return Err(AsmKind::Operand);
    };
    let rd = register(line, *a)?;
    let imm = csr(line, *b)?;
    let rs1 = register(line, *c)?;
    instruction(Form::CsrRegister, op, rd, rs1, 0, imm)
}

// The number that stands in the place of rs1.
#[tactic(auto, unfolding(crate::specs::Rows::small))]
fn small(amount: Amount) -> Result<u8, AsmKind>
    ensures value { result ≡ small_of amount }
    ensures below { IfOk result (λ number. number < 32) }
{
    if within(32, amount) {
        Ok(word(amount) as u8)
    } else {
        Err(AsmKind::Range)
    }
}

#[tactic(auto, unfolding(crate::specs::Rows::csr_number_word))]
fn csr_number_word(line: &[u8], op: Op, operands: &[Operand]) -> Result<u32, AsmKind>
    requires { form_of (row_of op) ≡ Form.CsrNumber }
    ensures { result ≡ csr_number_word_of line.now op operands.now }
{
    let [a, b, n] = operands else {
        return Err(AsmKind::Operand);
    };
    let rd = register(line, *a)?;
    let imm = csr(line, *b)?;
    let value = number(*n)?;
    let rs1 = small(value)?;
    instruction(Form::CsrNumber, op, rd, rs1, 0, imm)
}

#[tactic(auto, unfolding(crate::specs::Rows::sources_word))]
fn sources_word(line: &[u8], op: Op, operands: &[Operand]) -> Result<u32, AsmKind>
    requires { form_of (row_of op) ≡ Form.Sources }
    ensures { result ≡ sources_word_of line.now op operands.now }
{
    let [a, b] = operands else {
        return Err(AsmKind::Operand);
    };
    let rs1 = register(line, *a)?;
    let rs2 = register(line, *b)?;
    instruction(Form::Sources, op, 0, rs1, rs2, Amount::Plus(0))
}

#[tactic(auto, unfolding(crate::specs::Rows::source_word))]
fn source_word(line: &[u8], op: Op, operands: &[Operand]) -> Result<u32, AsmKind>
    requires { form_of (row_of op) ≡ Form.Source }
    ensures { result ≡ source_word_of line.now op operands.now }
{
    let [a] = operands else {
        return Err(AsmKind::Operand);
    };
    let rs1 = register(line, *a)?;
    instruction(Form::Source, op, 0, rs1, 0, Amount::Plus(0))
}

// The whole word of a row without operands; the fences order everything.
#[tactic(auto, unfolding(crate::specs::Rows::bare_word))]
fn bare_word(op: Op, operands: &[Operand]) -> Result<u32, AsmKind>
    requires { form_of (row_of op) ≡ Form.Bare }
    ensures { result ≡ bare_word_of op operands.now }
{
    if !operands.is_empty() {
        return Err(AsmKind::Operand);
    }
    match op {
        Op::Fence => Ok(0x0ff0_000f),
        Op::FenceI => Ok(0x0000_100f),
        _ => instruction(Form::Bare, op, 0, 0, 0, Amount::Plus(0)),
    }
}

/// The word of an instruction of the table.
#[tactic(auto, unfolding(crate::specs::Rows::form_word))]
pub(crate) fn row_word(
    labels: &Labels,
    at: u64,
    line: &[u8],
    op: Op,
    operands: &[Operand],
) -> Result<u32, AsmKind>
    ensures { result ≡ row_word_of (place_in labels.now) at line.now op operands.now }
{
    let form = form_for(op);
    match form {
        Form::Registers => registers_word(line, op, operands),
        Form::Immediate | Form::ShiftAmount => immediate_word(form, line, op, operands),
        Form::Load => load_word(line, op, operands),
        Form::Store => store_word(line, op, operands),
        Form::Branch => branch_word(labels, at, line, op, operands),
        Form::Jump => jump_word(labels, at, line, operands),
        Form::Upper => upper_word(line, op, operands),
        Form::CsrRegister => csr_register_word(line, op, operands),
        Form::CsrNumber => csr_number_word(line, op, operands),
        Form::Sources => sources_word(line, op, operands),
        Form::Source => source_word(line, op, operands),
        Form::Bare => bare_word(op, operands),
    }
}
