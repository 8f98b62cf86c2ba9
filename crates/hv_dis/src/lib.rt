//! Words as lines of assembly.
#![tactic(auto)]

ghost use Rattle.std.specs.Prelude.{ℕ, ◌≡◌, ◌+◌, ◌^◌, ◌≤◌, [], ◌∷◌, ◌++◌, string_bytes, true, false, Ok, IfOk, OnOk};
ghost use Rattle.hv_asm.specs.Assembly.{asm_of};
ghost use Rattle.hv_isa.specs.Table.{row_of};
ghost use Rattle.hv_dis.specs.Dis.{access, based, branch, control, dis_of, immediate, instr_line, jump, lower_digits, operands, pair, says_all, shift, signed, source, three, upper, upper_digits, word_line};

use hv_isa::{Instr, Op, csr_name, decode, name};
use hv_word::field;
use std::alloc::{AllocError, Global};

/// The line of assembly of a word, without a line feed: `addi x5, x5, 0`. Registers are x0 to x31, numbers decimal
/// but for lui and auipc, targets offsets, and control and status registers named. A word that is no instruction, or a
/// fence with other fields than the assembler gives it, is `.word 0x` and eight hex digits. Assembled at any base, the
/// line gives the word again.
#[tactic(auto, unfolding(crate::specs::Dis::dis_of))]
pub fn disassemble(alloc: Global, word: u32) -> Result<String, AllocError>
    ensures line { IfOk result (λ text. string_bytes text ≡ dis_of word) }
    ensures back { IfOk result
        (λ text. (base : ℕ) → base + 4 ≤ 2 ^ 32 → asm_of (string_bytes text) base ≡ Ok (word ∷ [])) }
{
    let mut out = String::new(alloc);
    match decode(word) {
        Some(instr) if is_whole(instr.op, word) => put_instr(&mut out, &instr)?,
        _ => put_word(&mut out, word)?,
    }
    Ok(out)
}

// The name and the operands say the whole word.
fn is_whole(op: Op, word: u32) -> bool
    ensures { result ≡ says_all op word }
{
    match op {
        Op::Fence => word == 0x0ff0_000f,
        Op::FenceI => word == 0x0000_100f,
        _ => true,
    }
}

// Appends the line of a word that is no instruction's.
#[tactic(auto, using(crate::proofs::Eights::word_written))]
fn put_word(out: &mut String, word: u32) -> Result<(), AllocError>
    ensures { OnOk result (string_bytes out.new ≡ string_bytes out.old ++ word_line word) }
{
    out.push_str(".word 0x")?;
    put_upper_digits(out, word)?;
    put_lower_digits(out, word)
}

// Appends a word's upper four digits.
#[tactic(auto, unfolding(crate::specs::Dis::upper_digits))]
fn put_upper_digits(out: &mut String, word: u32) -> Result<(), AllocError>
    ensures { OnOk result (string_bytes out.new ≡ string_bytes out.old ++ upper_digits word) }
{
    let [a, b, c, d] = [
        field::<28, 4>(word),
        field::<24, 4>(word),
        field::<20, 4>(word),
        field::<16, 4>(word),
    ];
    write!(out, "{a:x}{b:x}{c:x}{d:x}")
}

// Appends a word's lower four digits.
#[tactic(auto, unfolding(crate::specs::Dis::lower_digits))]
fn put_lower_digits(out: &mut String, word: u32) -> Result<(), AllocError>
    ensures { OnOk result (string_bytes out.new ≡ string_bytes out.old ++ lower_digits word) }
{
    let [a, b, c, d] = [
        field::<12, 4>(word),
        field::<8, 4>(word),
        field::<4, 4>(word),
        field::<0, 4>(word),
    ];
    write!(out, "{a:x}{b:x}{c:x}{d:x}")
}

// Appends a word as a signed number.
#[tactic(auto, unfolding(crate::specs::Dis::signed))]
fn put_signed(out: &mut String, value: u32) -> Result<(), AllocError>
    ensures { OnOk result (string_bytes out.new ≡ string_bytes out.old ++ signed value) }
{
    if value < 0x8000_0000 {
        write!(out, "{value}")
    } else {
        let magnitude = 0x1_0000_0000 - u64::from(value);
        write!(out, "-{magnitude}")
    }
}

// Appends the name of a control and status register, or its number.
#[tactic(auto, unfolding(crate::specs::Dis::control))]
fn put_control(out: &mut String, number: u32) -> Result<(), AllocError>
    ensures { OnOk result (string_bytes out.new ≡ string_bytes out.old ++ control number) }
{
    match csr_name(number) {
        Some(name) => out.push_str(name),
        None => write!(out, "0x{number:x}"),
    }
}

// Appends the line of an instruction.
#[tactic(auto, unfolding(crate::specs::Dis::instr_line))]
fn put_instr(out: &mut String, instr: &Instr) -> Result<(), AllocError>
    ensures { OnOk result (string_bytes out.new ≡ string_bytes out.old ++ instr_line instr.now) }
{
    out.push_str(name(instr.op))?;
    put_operands(out, instr)
}

// Appends what stands behind the name of an instruction.
fn put_operands(out: &mut String, instr: &Instr) -> Result<(), AllocError>
    ensures { OnOk result (string_bytes out.new ≡ string_bytes out.old ++ operands (row_of instr.now.op) instr.now) }
{
    match instr.op {
        Op::Lui | Op::Auipc => put_upper(out, instr),
        Op::Jal => put_jump(out, instr),
        Op::Beq | Op::Bne | Op::Blt | Op::Bge | Op::Bltu | Op::Bgeu => put_branch(out, instr),
        Op::Jalr | Op::Lb | Op::Lh | Op::Lw | Op::Lbu | Op::Lhu => put_based(out, instr.rd, instr),
        Op::Sb | Op::Sh | Op::Sw => put_based(out, instr.rs2, instr),
        Op::Addi | Op::Slti | Op::Sltiu | Op::Xori | Op::Ori | Op::Andi => put_immediate(
            out, instr,
        ),
        Op::Slli | Op::Srli | Op::Srai => put_shift(out, instr),
        Op::Add | Op::Sub | Op::Sll | Op::Slt | Op::Sltu => put_three(out, instr),
        Op::Xor | Op::Srl | Op::Sra | Op::Or | Op::And => put_three(out, instr),
        Op::Csrrw | Op::Csrrs | Op::Csrrc => put_access(out, instr),
        Op::Csrrwi | Op::Csrrsi | Op::Csrrci => put_access_number(out, instr),
        Op::SfenceVma => put_pair(out, instr),
        Op::Vmenter => put_source(out, instr),
        Op::Fence | Op::FenceI | Op::Ecall | Op::Ebreak | Op::Sret | Op::Mret | Op::Wfi => Ok(()),
    }
}

// Appends rd, rs1, rs2.
fn put_three(out: &mut String, instr: &Instr) -> Result<(), AllocError>
    ensures { OnOk result (string_bytes out.new ≡ string_bytes out.old ++ three instr.now) }
{
    write!(out, " x{}, x{}, x{}", instr.rd, instr.rs1, instr.rs2)
}

// Appends rd, rs1 and the immediate.
fn put_immediate(out: &mut String, instr: &Instr) -> Result<(), AllocError>
    ensures { OnOk result (string_bytes out.new ≡ string_bytes out.old ++ immediate instr.now) }
{
    write!(out, " x{}, x{}, ", instr.rd, instr.rs1)?;
    put_signed(out, instr.imm)
}

// Appends rd, rs1 and the shift's amount.
fn put_shift(out: &mut String, instr: &Instr) -> Result<(), AllocError>
    ensures { OnOk result (string_bytes out.new ≡ string_bytes out.old ++ shift instr.now) }
{
    write!(out, " x{}, x{}, {}", instr.rd, instr.rs1, instr.imm)
}

// Appends a register, the offset and its base.
fn put_based(out: &mut String, register: u8, instr: &Instr) -> Result<(), AllocError>
    ensures { OnOk result (string_bytes out.new ≡ string_bytes out.old ++ based register instr.now) }
{
    write!(out, " x{register}, ")?;
    put_signed(out, instr.imm)?;
    write!(out, "(x{})", instr.rs1)
}

// Appends rs1, rs2 and the target's offset.
fn put_branch(out: &mut String, instr: &Instr) -> Result<(), AllocError>
    ensures { OnOk result (string_bytes out.new ≡ string_bytes out.old ++ branch instr.now) }
{
    write!(out, " x{}, x{}, ", instr.rs1, instr.rs2)?;
    put_signed(out, instr.imm)
}

// Appends rd and the target's offset.
fn put_jump(out: &mut String, instr: &Instr) -> Result<(), AllocError>
    ensures { OnOk result (string_bytes out.new ≡ string_bytes out.old ++ jump instr.now) }
{
    write!(out, " x{}, ", instr.rd)?;
    put_signed(out, instr.imm)
}

// Appends rd and the bits 31 to 12.
fn put_upper(out: &mut String, instr: &Instr) -> Result<(), AllocError>
    ensures { OnOk result (string_bytes out.new ≡ string_bytes out.old ++ upper instr.now) }
{
    let high = instr.imm >> 12;
    write!(out, " x{}, 0x{high:x}", instr.rd)
}

// Appends rd, a control and status register, and the register rs1.
fn put_access(out: &mut String, instr: &Instr) -> Result<(), AllocError>
    ensures { OnOk result (string_bytes out.new ≡ string_bytes out.old ++ access true instr.now) }
{
    write!(out, " x{}, ", instr.rd)?;
    put_control(out, instr.imm)?;
    write!(out, ", x{}", instr.rs1)
}

// Appends rd, a control and status register, and rs1 as a number.
fn put_access_number(out: &mut String, instr: &Instr) -> Result<(), AllocError>
    ensures { OnOk result (string_bytes out.new ≡ string_bytes out.old ++ access false instr.now) }
{
    write!(out, " x{}, ", instr.rd)?;
    put_control(out, instr.imm)?;
    write!(out, ", {}", instr.rs1)
}

// Appends rs1, rs2.
fn put_pair(out: &mut String, instr: &Instr) -> Result<(), AllocError>
    ensures { OnOk result (string_bytes out.new ≡ string_bytes out.old ++ pair instr.now) }
{
    write!(out, " x{}, x{}", instr.rs1, instr.rs2)
}

// Appends rs1.
fn put_source(out: &mut String, instr: &Instr) -> Result<(), AllocError>
    ensures { OnOk result (string_bytes out.new ≡ string_bytes out.old ++ source instr.now) }
{
    write!(out, " x{}", instr.rs1)
}
