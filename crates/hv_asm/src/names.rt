//! The names of registers and operations.

ghost use Rattle.std.specs.Prelude.{◌≡◌, ◌≢◌, ◌<◌, Some, IfSome, IfNone, MatchOption};
ghost use Rattle.std.specs.Str.{IsUtf8};
ghost use Rattle.hv_isa.specs.Csrs.{csr_number_of};
ghost use Rattle.hv_asm.specs.Names.{Lacks, name_in, numbered, operation_name, operation_of, register_of, used};
ghost use Rattle.hv_asm.specs.declared.names.Operation.{Operation};

use hv_isa::{Op, by_name, csr_by_name};

/// What a line does.
#[derive(Clone, Copy)]
pub(crate) enum Operation {
    /// An instruction of the table.
    Row(Op),
    Nop,
    Mv,
    J,
    Ret,
    Beqz,
    Bnez,
    Csrr,
    Csrw,
    Li,
    La,
    Words,
    Space,
}

// The name of a word, if it can be one.
fn as_name(text: &[u8]) -> Option<&str>
    ensures { MatchOption result (¬ (IsUtf8 text.now)) (λ name. name.now ≡ text.now) }
{
    match str::from_utf8(text) {
        Ok(name) => Some(name),
        Err(_) => None,
    }
}

#[tactic(auto, unfolding(crate::specs::Names::name_in))]
fn find_number(name: &str) -> Option<u8>
    ensures found { IfSome result (λ number. name_in numbered number ≡ Some name.now) }
    ensures none { IfNone result (Lacks numbered name.now) }
    ensures below { IfSome result (λ number. number < 32) }
{
    match name {
        "x0" => Some(0),
        "x1" => Some(1),
        "x2" => Some(2),
        "x3" => Some(3),
        "x4" => Some(4),
        "x5" => Some(5),
        "x6" => Some(6),
        "x7" => Some(7),
        "x8" => Some(8),
        "x9" => Some(9),
        "x10" => Some(10),
        "x11" => Some(11),
        "x12" => Some(12),
        "x13" => Some(13),
        "x14" => Some(14),
        "x15" => Some(15),
        "x16" => Some(16),
        "x17" => Some(17),
        "x18" => Some(18),
        "x19" => Some(19),
        "x20" => Some(20),
        "x21" => Some(21),
        "x22" => Some(22),
        "x23" => Some(23),
        "x24" => Some(24),
        "x25" => Some(25),
        "x26" => Some(26),
        "x27" => Some(27),
        "x28" => Some(28),
        "x29" => Some(29),
        "x30" => Some(30),
        "x31" => Some(31),
        _ => None,
    }
}

#[tactic(auto, unfolding(crate::specs::Names::name_in))]
fn find_use(name: &str) -> Option<u8>
    ensures found { IfSome result (λ number. name_in used number ≡ Some name.now) }
    ensures none { IfNone result (Lacks used name.now) }
    ensures below { IfSome result (λ number. number < 32) }
{
    match name {
        "zero" => Some(0),
        "ra" => Some(1),
        "sp" => Some(2),
        "gp" => Some(3),
        "tp" => Some(4),
        "t0" => Some(5),
        "t1" => Some(6),
        "t2" => Some(7),
        "s0" => Some(8),
        "s1" => Some(9),
        "a0" => Some(10),
        "a1" => Some(11),
        "a2" => Some(12),
        "a3" => Some(13),
        "a4" => Some(14),
        "a5" => Some(15),
        "a6" => Some(16),
        "a7" => Some(17),
        "s2" => Some(18),
        "s3" => Some(19),
        "s4" => Some(20),
        "s5" => Some(21),
        "s6" => Some(22),
        "s7" => Some(23),
        "s8" => Some(24),
        "s9" => Some(25),
        "s10" => Some(26),
        "s11" => Some(27),
        "t3" => Some(28),
        "t4" => Some(29),
        "t5" => Some(30),
        "t6" => Some(31),
        _ => None,
    }
}

/// The number of the register of this name.
pub(crate) fn register_named(text: &[u8]) -> Option<u8>
    ensures value { result ≡ register_of text.now }
    ensures below { IfSome result (λ number. number < 32) }
{
    let Some(name) = as_name(text) else {
        return None;
    };
    if name == "fp" {
        return Some(8);
    }
    let Some(number) = find_number(name) else {
        return find_use(name);
    };
    Some(number)
}

fn find_operation(name: &str) -> Option<Operation>
    ensures found { IfSome result (λ operation. name.now ≡ operation_name operation) }
    ensures none { IfNone result ((operation : Operation) → name.now ≢ operation_name operation) }
{
    let short = match name {
        "nop" => Operation::Nop,
        "mv" => Operation::Mv,
        "j" => Operation::J,
        "ret" => Operation::Ret,
        "beqz" => Operation::Beqz,
        "bnez" => Operation::Bnez,
        "csrr" => Operation::Csrr,
        "csrw" => Operation::Csrw,
        "li" => Operation::Li,
        "la" => Operation::La,
        ".word" => Operation::Words,
        ".space" => Operation::Space,
        _ => return Some(Operation::Row(by_name(name)?)),
    };
    Some(short)
}

/// The operation of this name.
pub(crate) fn operation_named(text: &[u8]) -> Option<Operation>
    ensures { result ≡ operation_of text.now }
{
    let Some(name) = as_name(text) else {
        return None;
    };
    find_operation(name)
}

/// The number of the control and status register of this name.
pub(crate) fn csr_named(text: &[u8]) -> Option<u32>
    ensures { result ≡ csr_number_of text.now }
{
    let Some(name) = as_name(text) else {
        return None;
    };
    csr_by_name(name)
}
