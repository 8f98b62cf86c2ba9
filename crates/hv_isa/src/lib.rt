//! The table of the 52 instructions: words to instructions and back, and their names.
#![tactic(auto)]

ghost use Rattle.std.specs.Prelude.{◌≡◌, ◌≢◌, IfNone, IfSome};
ghost use Rattle.hv_isa.specs.Names.{name_of};
ghost use Rattle.hv_isa.specs.Table.{Fits, NamesRegs, Row, decode_of, fields_of, op_of, row_of, spell};
ghost use Rattle.hv_isa.specs.declared.Instr.{Instr};
ghost use Rattle.hv_isa.specs.declared.Op.{Op};

mod csrs;
mod fields;
mod formats;

pub use csrs::{csr_by_name, csr_name};
pub use fields::{
    branch_offset, csr_number, immediate, jump_offset, rd, rs1, rs2, shift_amount, store_offset,
    upper,
};
use formats::{
    read_branch, read_control, read_immediate, read_jump, read_pair, read_registers, read_shift,
    read_source, read_store, read_upper, read_whole, spell_branch, spell_control, spell_immediate,
    spell_jump, spell_registers, spell_shift, spell_store, spell_upper,
};
use hv_word::field;

/// The operation of an instruction: one for each row of the table.
#[derive(Clone, Copy, Debug, PartialEq, Eq)]
pub enum Op {
    Lui,
    Auipc,
    Jal,
    Jalr,
    Beq,
    Bne,
    Blt,
    Bge,
    Bltu,
    Bgeu,
    Lb,
    Lh,
    Lw,
    Lbu,
    Lhu,
    Sb,
    Sh,
    Sw,
    Addi,
    Slti,
    Sltiu,
    Xori,
    Ori,
    Andi,
    Slli,
    Srli,
    Srai,
    Add,
    Sub,
    Sll,
    Slt,
    Sltu,
    Xor,
    Srl,
    Sra,
    Or,
    And,
    Fence,
    FenceI,
    Ecall,
    Ebreak,
    Csrrw,
    Csrrs,
    Csrrc,
    Csrrwi,
    Csrrsi,
    Csrrci,
    Sret,
    Mret,
    Wfi,
    SfenceVma,
    Vmenter,
}

/// An instruction; a field that its row lacks is zero.
/// `imm` is the sign-extended immediate of the formats I, S, B and J, the word's bits 31 to 12 in place
/// for U, a shift amount, or the number of a CSR. The two fences keep all three fields of the format I.
/// In csrrwi, csrrsi and csrrci `rs1` is no register but the number 0 to 31.
#[derive(Clone, Copy, Debug, PartialEq, Eq)]
pub struct Instr {
    pub op: Op,
    pub rd: u8,
    pub rs1: u8,
    pub rs2: u8,
    pub imm: u32,
}

// The table, by opcode: each row's name, its format, and the fields besides the opcode that are fixed
// in it. The rows that have nothing else fixed come first.
macro_rules! rows {
    ($then:ident $($arg:tt)*) => {
        $then! { [$($arg)*]
            {
                0x37 Lui "lui" (U),
                0x17 Auipc "auipc" (U),
                0x6f Jal "jal" (J),
            }
            0x67 {
                Jalr "jalr" (I 0),
            }
            0x63 {
                Beq "beq" (B 0),
                Bne "bne" (B 1),
                Blt "blt" (B 4),
                Bge "bge" (B 5),
                Bltu "bltu" (B 6),
                Bgeu "bgeu" (B 7),
            }
            0x03 {
                Lb "lb" (I 0),
                Lh "lh" (I 1),
                Lw "lw" (I 2),
                Lbu "lbu" (I 4),
                Lhu "lhu" (I 5),
            }
            0x23 {
                Sb "sb" (S 0),
                Sh "sh" (S 1),
                Sw "sw" (S 2),
            }
            0x13 {
                Addi "addi" (I 0),
                Slti "slti" (I 2),
                Sltiu "sltiu" (I 3),
                Xori "xori" (I 4),
                Ori "ori" (I 6),
                Andi "andi" (I 7),
                Slli "slli" (Shift 1 0x00),
                Srli "srli" (Shift 5 0x00),
                Srai "srai" (Shift 5 0x20),
            }
            0x33 {
                Add "add" (R 0 0x00),
                Sub "sub" (R 0 0x20),
                Sll "sll" (R 1 0x00),
                Slt "slt" (R 2 0x00),
                Sltu "sltu" (R 3 0x00),
                Xor "xor" (R 4 0x00),
                Srl "srl" (R 5 0x00),
                Sra "sra" (R 5 0x20),
                Or "or" (R 6 0x00),
                And "and" (R 7 0x00),
            }
            0x0f {
                Fence "fence" (I 0),
                FenceI "fence.i" (I 1),
            }
            0x73 {
                Ecall "ecall" (Whole 0x00 0),
                Ebreak "ebreak" (Whole 0x00 1),
                Csrrw "csrrw" (Csr 1),
                Csrrs "csrrs" (Csr 2),
                Csrrc "csrrc" (Csr 3),
                Csrrwi "csrrwi" (Csr 5),
                Csrrsi "csrrsi" (Csr 6),
                Csrrci "csrrci" (Csr 7),
                Sret "sret" (Whole 0x08 2),
                Mret "mret" (Whole 0x18 2),
                Wfi "wfi" (Whole 0x08 5),
                SfenceVma "sfence.vma" (Pair 0 0x09),
            }
            0x0b {
                Vmenter "vmenter" (One 0),
            }
        }
    };
}

// The fixed fields of a row as a pattern for funct3, funct7, rd, rs1 and rs2.
macro_rules! fixed {
    (B $f3:literal) => { ($f3, _, _, _, _) };
    (I $f3:literal) => { ($f3, _, _, _, _) };
    (S $f3:literal) => { ($f3, _, _, _, _) };
    (R $f3:literal $f7:literal) => { ($f3, $f7, _, _, _) };
    (Shift $f3:literal $f7:literal) => { ($f3, $f7, _, _, _) };
    (Csr $f3:literal) => { ($f3, _, _, _, _) };
    (Pair $f3:literal $f7:literal) => { ($f3, $f7, 0, _, _) };
    (One $f3:literal) => { ($f3, 0, 0, _, 0) };
    (Whole $f7:literal $rs2:literal) => { (0, $f7, 0, 0, $rs2) };
}

macro_rules! operation_arms {
    ([$word:ident]
        { $($single:literal $row:ident $text:literal $format:tt,)* }
        $($opcode:literal { $($op:ident $name:literal ($($fixed:tt)*),)* })*
    ) => {{
        let opcode = field::<0, 7>($word);
        let rd = field::<7, 5>($word);
        let f3 = field::<12, 3>($word);
        let rs1 = field::<15, 5>($word);
        let rs2 = field::<20, 5>($word);
        let f7 = field::<25, 7>($word);
        match opcode {
            $($single => Some(Op::$row),)*
            $($opcode => match (f3, f7, rd, rs1, rs2) {
                $(fixed!($($fixed)*) => Some(Op::$op),)*
                _ => None,
            },)*
            _ => None,
        }
    }};
}

/// The operation of the row that has this word; None where no row has it.
#[inline(always)]
pub fn operation(word: u32) -> Option<Op>
    ensures { result ≡ op_of word }
{
    rows!(operation_arms word)
}

// The instruction of a word of the row, by the row's format.
macro_rules! read {
    ($op:ident $word:ident (U)) => { read_upper(Op::$op, $word) };
    ($op:ident $word:ident (J)) => { read_jump(Op::$op, $word) };
    ($op:ident $word:ident (B $($fixed:literal)*)) => { read_branch(Op::$op, $word) };
    ($op:ident $word:ident (I $($fixed:literal)*)) => { read_immediate(Op::$op, $word) };
    ($op:ident $word:ident (S $($fixed:literal)*)) => { read_store(Op::$op, $word) };
    ($op:ident $word:ident (R $($fixed:literal)*)) => { read_registers(Op::$op, $word) };
    ($op:ident $word:ident (Shift $($fixed:literal)*)) => { read_shift(Op::$op, $word) };
    ($op:ident $word:ident (Csr $($fixed:literal)*)) => { read_control(Op::$op, $word) };
    ($op:ident $word:ident (Pair $($fixed:literal)*)) => { read_pair(Op::$op, $word) };
    ($op:ident $word:ident (One $($fixed:literal)*)) => { read_source(Op::$op, $word) };
    ($op:ident $word:ident (Whole $($fixed:literal)*)) => { read_whole(Op::$op) };
}

macro_rules! read_arms {
    ([$choice:ident $word:ident]
        { $($single:literal $row:ident $text:literal $format:tt,)* }
        $($opcode:literal { $($op:ident $name:literal $fixed:tt,)* })*
    ) => {
        match $choice {
            $(Op::$row => read!($row $word $format),)*
            $($(Op::$op => read!($op $word $fixed),)*)*
        }
    };
}

// The fields of a word as those of an instruction of this operation.
fn read_row(op: Op, word: u32) -> Instr
    ensures { result ≡ fields_of (row_of op) op word }
{
    rows!(read_arms op word)
}

// The word of an instruction, from its row's opcode and format.
macro_rules! spell {
    ($instr:ident $opcode:literal (U)) => { spell_upper($opcode, $instr) };
    ($instr:ident $opcode:literal (J)) => { spell_jump($opcode, $instr) };
    ($instr:ident $opcode:literal (B $f3:literal)) => { spell_branch($opcode, $f3, $instr) };
    ($instr:ident $opcode:literal (I $f3:literal)) => { spell_immediate($opcode, $f3, $instr) };
    ($instr:ident $opcode:literal (S $f3:literal)) => { spell_store($opcode, $f3, $instr) };
    ($instr:ident $opcode:literal (R $f3:literal $f7:literal)) => { spell_registers($opcode, $f3, $f7, $instr) };
    ($instr:ident $opcode:literal (Shift $f3:literal $f7:literal)) => { spell_shift($opcode, $f3, $f7, $instr) };
    ($instr:ident $opcode:literal (Csr $f3:literal)) => { spell_control($opcode, $f3, $instr) };
    ($instr:ident $opcode:literal (Pair $f3:literal $f7:literal)) => { spell_registers($opcode, $f3, $f7, $instr) };
    ($instr:ident $opcode:literal (One $f3:literal)) => { spell_registers($opcode, $f3, 0, $instr) };
    ($instr:ident $opcode:literal (Whole $f7:literal $rs2:literal)) => { $opcode + ($rs2 << 20) + ($f7 << 25) };
}

macro_rules! encode_arms {
    ([$instr:ident]
        { $($single:literal $row:ident $text:literal $format:tt,)* }
        $($opcode:literal { $($op:ident $name:literal $fixed:tt,)* })*
    ) => {
        match $instr.op {
            $(Op::$row => spell!($instr $single $format),)*
            $($(Op::$op => spell!($instr $opcode $fixed),)*)*
        }
    };
}

macro_rules! name_arms {
    ([$choice:ident]
        { $($single:literal $row:ident $text:literal $format:tt,)* }
        $($opcode:literal { $($op:ident $name:literal $fixed:tt,)* })*
    ) => {
        match $choice {
            $(Op::$row => $text,)*
            $($(Op::$op => $name,)*)*
        }
    };
}

macro_rules! by_name_arms {
    ([$choice:ident]
        { $($single:literal $row:ident $text:literal $format:tt,)* }
        $($opcode:literal { $($op:ident $name:literal $fixed:tt,)* })*
    ) => {
        match $choice {
            $($text => Some(Op::$row),)*
            $($($name => Some(Op::$op),)*)*
            _ => None,
        }
    };
}

fn spell_row(instr: &Instr) -> u32
    requires { Fits (row_of instr.now.op) instr.now }
    ensures { result ≡ spell (row_of instr.now.op) instr.now }
{
    rows!(encode_arms instr)
}

#[tactic(auto, unfolding(crate::specs::Table::decode_of))]
fn find_row(word: u32) -> Option<Instr>
    ensures { result ≡ decode_of word }
{
    let op = operation(word)?;
    Some(read_row(op, word))
}

/// The instruction whose word this is; None where no row has the word.
pub fn decode(word: u32) -> Option<Instr>
    ensures row { result ≡ decode_of word }
    ensures found { IfSome result (λ i. Row i word) }
    ensures only { (i : Instr) → Row i word → result ≡ Some i }
    ensures registers { IfSome result NamesRegs }
{
    find_row(word)
}

/// The word of an instruction whose fields are in its row's ranges. `decode` gives the instruction back.
pub fn encode(instr: &Instr) -> u32
    requires { Fits (row_of instr.now.op) instr.now }
    ensures word { result ≡ spell (row_of instr.now.op) instr.now }
    ensures back { decode_of result ≡ Some instr.now }
{
    spell_row(instr)
}

/// The name of an operation in assembly, as `addi` or `fence.i`.
pub fn name(op: Op) -> &'static str
    ensures { result.now ≡ name_of op }
{
    rows!(name_arms op)
}

fn find_name(text: &str) -> Option<Op>
    ensures found { IfSome result (λ op. text.now ≡ name_of op) }
    ensures none { IfNone result ((op : Op) → text.now ≢ name_of op) }
{
    rows!(by_name_arms text)
}

/// The operation of that name; None where no row has it.
pub fn by_name(text: &str) -> Option<Op>
    ensures found { IfSome result (λ op. text.now ≡ name_of op) }
    ensures only { (op : Op) → text.now ≡ name_of op → result ≡ Some op }
{
    find_name(text)
}
