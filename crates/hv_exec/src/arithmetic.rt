//! Arithmetic on words.

ghost use Rattle.std.specs.Prelude.{◌≡◌};
ghost use Rattle.hv_exec.specs.Arithmetic.{is_less_signed, flag_of, shift_left, shift_right, shift_right_signed, even_of};

/// Whether a word is less than another, both in two's complement.
#[inline(always)]
pub(crate) fn less_signed(a: u32, b: u32) -> bool
    ensures { result ≡ is_less_signed a b }
{
    a.cast_signed() < b.cast_signed()
}

/// 1 where a comparison holds, and else 0.
#[inline(always)]
pub(crate) fn flag(holds: bool) -> u32
    ensures { result ≡ flag_of holds }
{
    u32::from(holds)
}

/// A word shifted left by the low five bits of `by`.
#[inline(always)]
pub(crate) fn left(a: u32, by: u32) -> u32
    ensures { result ≡ shift_left a by }
{
    a << (by % 32)
}

/// A word shifted right by the low five bits of `by`, with zeros coming in.
#[inline(always)]
pub(crate) fn right(a: u32, by: u32) -> u32
    ensures { result ≡ shift_right a by }
{
    a >> (by % 32)
}

/// A word shifted right by the low five bits of `by`, with copies of its sign coming in.
#[inline(always)]
pub(crate) fn right_signed(a: u32, by: u32) -> u32
    ensures { result ≡ shift_right_signed a by }
{
    (a.cast_signed() >> (by % 32)).cast_unsigned()
}

/// A word with bit 0 clear.
#[inline(always)]
pub(crate) fn even(a: u32) -> u32
    ensures { result ≡ even_of a }
{
    a & !1
}
