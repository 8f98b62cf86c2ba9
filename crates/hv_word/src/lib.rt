//! Words of 32 bits: their fields, their sign extension and their lanes.
#![tactic(auto)]

ghost use Rattle.std.specs.Prelude.{ℕ, ◌≡◌, ◌+◌, ◌^◌, ◌≤◌};
ghost use Rattle.hv_word.specs.Words.{IsLane, field_of, field_put, lane_of, lane_with, sext_of};

/// A part of a word that one access moves, in little-endian order.
/// `Byte` holds 0 to 3 and `Half` 0 or 1, counted from the word's low end.
#[derive(Clone, Copy, Debug, PartialEq, Eq)]
pub enum Lane {
    Byte(u8),
    Half(u8),
    Word,
}

/// The `LEN` bits of `word` from bit `LO` on, as a number.
#[inline(always)]
pub fn field<const LO: u32, const LEN: u32>(word: u32) -> u32
    requires some { 1 ≤ LEN }
    requires inside { LO + LEN ≤ 32 }
    ensures { result ≡ field_of word LO LEN }
{
    bits_at(word, LO, LEN)
}

/// `word` with the `LEN` bits from bit `LO` on replaced by the low bits of `value`.
pub fn field_set<const LO: u32, const LEN: u32>(word: u32, value: u32) -> u32
    requires some { 1 ≤ LEN }
    requires inside { LO + LEN ≤ 32 }
    ensures { result ≡ field_put word LO LEN value }
{
    with_bits(word, LO, LEN, value)
}

/// The low `BITS` bits of `value`, with the highest of them copied into all bits above it.
#[tactic(auto, using(crate::proofs::Fields::sext_plain, crate::proofs::Fields::sext_below))]
#[inline(always)]
pub fn sext<const BITS: u32>(value: u32) -> u32
    requires some { 1 ≤ BITS }
    requires inside { BITS ≤ 32 }
    ensures { result ≡ sext_of BITS value }
{
    let ones = low_ones(BITS);
    let low = value & ones;
    if low <= ones >> 1 {
        low
    } else {
        low + (u32::MAX - ones)
    }
}

/// The lane of `word`, unsigned.
#[inline(always)]
pub fn lane_get(word: u32, lane: Lane) -> u32
    requires { IsLane lane }
    ensures { result ≡ lane_of word lane }
{
    match lane {
        Lane::Byte(index) => bits_at(word, 8 * index as u32, 8),
        Lane::Half(index) => bits_at(word, 16 * index as u32, 16),
        Lane::Word => word,
    }
}

/// `word` with its lane replaced by the low bits of `value`.
#[inline(always)]
pub fn lane_put(word: u32, lane: Lane, value: u32) -> u32
    requires { IsLane lane }
    ensures { result ≡ lane_with word lane value }
{
    match lane {
        Lane::Byte(index) => with_bits(word, 8 * index as u32, 8, value),
        Lane::Half(index) => with_bits(word, 16 * index as u32, 16, value),
        Lane::Word => value,
    }
}

// A number whose lowest `count` bits are ones.
#[tactic(auto, using(crate::proofs::Fields::ones_low))]
#[inline(always)]
fn low_ones(count: u32) -> u32
    requires some { 1 ≤ count }
    requires inside { count ≤ 32 }
    ensures { result + 1 ≡ 2 ^ count }
{
    u32::MAX >> (32 - count)
}

// The `count` bits of `word` from bit `low` on.
#[tactic(auto, using(crate::proofs::Fields::and_ones))]
#[inline(always)]
fn bits_at(word: u32, low: u32, count: u32) -> u32
    requires some { 1 ≤ count }
    requires inside { low + count ≤ 32 }
    ensures { result ≡ field_of word low count }
{
    (word >> low) & low_ones(count)
}

// `word` with the `count` bits from bit `low` on taken from the low end of `value`.
#[tactic(auto, using(crate::proofs::Fields::put_bits))]
#[inline(always)]
fn with_bits(word: u32, low: u32, count: u32, value: u32) -> u32
    requires some { 1 ≤ count }
    requires inside { low + count ≤ 32 }
    ensures { result ≡ field_put word low count value }
{
    let ones = low_ones(count);
    (word & !(ones << low)) | ((value & ones) << low)
}
