//! Numbers as operands have them.

ghost use Rattle.std.specs.Prelude.{◌≡◌, ◌<◌};
ghost use Rattle.hv_asm.specs.Amounts.{amount_of, distance as distance_of, is_even as is_even_of, within as within_of, within_signed as within_signed_of, word_of};

/// A number: its sign and its size.
#[derive(Clone, Copy)]
pub(crate) enum Amount {
    Plus(u64),
    Minus(u64),
}

pub(crate) fn signed(value: i64) -> Amount
    ensures { result ≡ amount_of value }
{
    let size = value.unsigned_abs();
    if value < 0 {
        Amount::Minus(size)
    } else {
        Amount::Plus(size)
    }
}

/// From 0 to below the bound.
pub(crate) fn within(bound: u64, amount: Amount) -> bool
    ensures { result ≡ within_of bound amount }
{
    match amount {
        Amount::Plus(size) => size < bound,
        Amount::Minus(size) => size == 0,
    }
}

/// From the bound's negative to below the bound.
pub(crate) fn within_signed(bound: u64, amount: Amount) -> bool
    ensures { result ≡ within_signed_of bound amount }
{
    match amount {
        Amount::Plus(size) => size < bound,
        Amount::Minus(size) => size <= bound,
    }
}

pub(crate) fn is_even(amount: Amount) -> bool
    ensures { result ≡ is_even_of amount }
{
    match amount {
        Amount::Plus(size) => size % 2 == 0,
        Amount::Minus(size) => size % 2 == 0,
    }
}

/// The number modulo 2^32.
pub(crate) fn word(amount: Amount) -> u32
    ensures { result ≡ word_of amount }
{
    match amount {
        Amount::Plus(size) => (size % 0x1_0000_0000) as u32,
        Amount::Minus(size) => ((0x1_0000_0000 - size % 0x1_0000_0000) % 0x1_0000_0000) as u32,
    }
}

/// How far it is from one address to another.
pub(crate) fn distance(from: u64, to: u64) -> Amount
    ensures { result ≡ distance_of from to }
{
    if to < from {
        Amount::Minus(from - to)
    } else {
        Amount::Plus(to - from)
    }
}
