//! The fields of a word that depend on the instruction: numbers of registers, and immediates.

ghost use Rattle.std.specs.Prelude.{◌≡◌, ◌<◌};
ghost use Rattle.hv_word.specs.Words.{field_of};
ghost use Rattle.hv_isa.specs.Table.{i_immediate, s_immediate, b_immediate, u_immediate, j_immediate};

use hv_word::{field, sext};

/// The number of the register that gets the result.
#[inline(always)]
pub fn rd(word: u32) -> u8
    ensures field { result ≡ field_of word 7 5 }
    ensures register { result < 32 }
{
    field::<7, 5>(word) as u8
}

/// The number of the first source register.
#[inline(always)]
pub fn rs1(word: u32) -> u8
    ensures field { result ≡ field_of word 15 5 }
    ensures register { result < 32 }
{
    field::<15, 5>(word) as u8
}

/// The number of the second source register.
#[inline(always)]
pub fn rs2(word: u32) -> u8
    ensures field { result ≡ field_of word 20 5 }
    ensures register { result < 32 }
{
    field::<20, 5>(word) as u8
}

/// The immediate of the format I.
#[inline(always)]
pub fn immediate(word: u32) -> u32
    ensures { result ≡ i_immediate word }
{
    sext::<12>(field::<20, 12>(word))
}

/// The immediate of the format S.
#[inline(always)]
pub fn store_offset(word: u32) -> u32
    ensures { result ≡ s_immediate word }
{
    sext::<12>(field::<7, 5>(word) + (field::<25, 7>(word) << 5))
}

/// The immediate of the format B.
#[inline(always)]
pub fn branch_offset(word: u32) -> u32
    ensures { result ≡ b_immediate word }
{
    let low = (field::<8, 4>(word) << 1) + (field::<25, 6>(word) << 5);
    let high = (field::<7, 1>(word) << 11) + (field::<31, 1>(word) << 12);
    sext::<13>(low + high)
}

/// The immediate of the format U, in place.
#[inline(always)]
pub fn upper(word: u32) -> u32
    ensures { result ≡ u_immediate word }
{
    field::<12, 20>(word) << 12
}

/// The immediate of the format J.
#[inline(always)]
pub fn jump_offset(word: u32) -> u32
    ensures { result ≡ j_immediate word }
{
    let low = (field::<21, 10>(word) << 1) + (field::<20, 1>(word) << 11);
    let high = (field::<12, 8>(word) << 12) + (field::<31, 1>(word) << 20);
    sext::<21>(low + high)
}

/// How far slli, srli and srai shift.
#[inline(always)]
pub fn shift_amount(word: u32) -> u32
    ensures { result ≡ field_of word 20 5 }
{
    field::<20, 5>(word)
}

/// The number of the control register.
#[inline(always)]
pub fn csr_number(word: u32) -> u32
    ensures { result ≡ field_of word 20 12 }
{
    field::<20, 12>(word)
}
