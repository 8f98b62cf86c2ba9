//! The forms of operands, and the words that they make.

ghost use Rattle.std.specs.Prelude.{◌≡◌};
ghost use Rattle.hv_isa.specs.Table.{row_of};
ghost use Rattle.hv_asm.specs.Forms.{UsesRegisters, form_of, immediate_of, word_with};

use crate::AsmKind;
use crate::amounts::{Amount, is_even, within, within_signed, word};
use hv_isa::{Instr, Op, encode};

/// How the operands of an instruction are written.
#[derive(Clone, Copy)]
pub(crate) enum Form {
    /// rd, rs1, rs2
    Registers,
    /// rd, rs1, imm
    Immediate,
    /// rd, rs1, n
    ShiftAmount,
    /// rd, imm(rs1)
    Load,
    /// rs2, imm(rs1)
    Store,
    /// rs1, rs2, target
    Branch,
    /// rd, target
    Jump,
    /// rd, imm
    Upper,
    /// rd, csr, rs1
    CsrRegister,
    /// rd, csr, n
    CsrNumber,
    /// rs1, rs2
    Sources,
    /// rs1
    Source,
    /// none
    Bare,
}

/// The form of an operation.
pub(crate) fn form_for(op: Op) -> Form
    ensures { result ≡ form_of (row_of op) }
{
    match op {
        Op::Lui | Op::Auipc => Form::Upper,
        Op::Jal => Form::Jump,
        Op::Beq | Op::Bne | Op::Blt | Op::Bge | Op::Bltu | Op::Bgeu => Form::Branch,
        Op::Jalr | Op::Lb | Op::Lh | Op::Lw | Op::Lbu | Op::Lhu => Form::Load,
        Op::Sb | Op::Sh | Op::Sw => Form::Store,
        Op::Addi | Op::Slti | Op::Sltiu | Op::Xori | Op::Ori | Op::Andi => Form::Immediate,
        Op::Slli | Op::Srli | Op::Srai => Form::ShiftAmount,
        Op::Add | Op::Sub | Op::Sll | Op::Slt | Op::Sltu => Form::Registers,
        Op::Xor | Op::Srl | Op::Sra | Op::Or | Op::And => Form::Registers,
        Op::Csrrw | Op::Csrrs | Op::Csrrc => Form::CsrRegister,
        Op::Csrrwi | Op::Csrrsi | Op::Csrrci => Form::CsrNumber,
        Op::SfenceVma => Form::Sources,
        Op::Vmenter => Form::Source,
        Op::Fence | Op::FenceI | Op::Ecall | Op::Ebreak | Op::Sret | Op::Mret | Op::Wfi =>
            Form::Bare,
    }
}

// The immediate that a number gives in a form.
#[tactic(auto, unfolding(crate::specs::Forms::immediate_of))]
fn immediate(form: Form, amount: Amount) -> Result<u32, AsmKind>
    ensures { result ≡ immediate_of form amount }
{
    let inside = match form {
        Form::Immediate | Form::Load | Form::Store => within_signed(2048, amount),
        Form::Branch => within_signed(4096, amount) && is_even(amount),
        Form::Jump => within_signed(0x10_0000, amount) && is_even(amount),
        Form::Upper => return upper(amount),
        Form::ShiftAmount => within(32, amount),
        Form::CsrRegister | Form::CsrNumber => within(4096, amount),
        Form::Registers | Form::Sources | Form::Source | Form::Bare => return Ok(0),
    };
    if inside {
        Ok(word(amount))
    } else {
        Err(AsmKind::Range)
    }
}

// The 20 bits of lui and auipc in place.
#[tactic(auto, unfolding(crate::specs::Forms::immediate_of))]
fn upper(amount: Amount) -> Result<u32, AsmKind>
    ensures { result ≡ immediate_of Form.Upper amount }
{
    if within(0x10_0000, amount) {
        Ok(word(amount) * 4096)
    } else {
        Err(AsmKind::Range)
    }
}

/// The word of an instruction with this number.
pub(crate) fn instruction(
    form: Form,
    op: Op,
    rd: u8,
    rs1: u8,
    rs2: u8,
    amount: Amount,
) -> Result<u32, AsmKind>
    requires form { form ≡ form_of (row_of op) }
    requires registers { UsesRegisters form rd rs1 rs2 }
    ensures { result ≡ word_with op rd rs1 rs2 amount }
{
    let imm = immediate(form, amount)?;
    let instr = Instr {
        op,
        rd,
        rs1,
        rs2,
        imm,
    };
    Ok(encode(&instr))
}
