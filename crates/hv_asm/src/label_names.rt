//! The names of labels, as they are compared.

ghost use Rattle.std.specs.Prelude.{◌≡◌};
ghost use Rattle.hv_asm.specs.Heads.{head_of};

use std::cmp::Ordering;

/// A name. Its head tells it from most others without a look at the bytes.
#[derive(Clone, Copy)]
pub(crate) struct LabelName<'a> {
    head: u64,
    bytes: &'a [u8],
    ghost headed: { head ≡ head_of bytes.now },
}

// The number that the first bytes make, eight at most.
#[tactic(auto, unfolding(crate::specs::Heads::head_of))]
fn head(name: &[u8]) -> u64
    ensures { result ≡ head_of name.now }
{
    let (front, _) = name.split_at(name.len().min(8));
    let mut head: u64 = 0;
    for byte in front {
        head = head.wrapping_mul(256).wrapping_add(u64::from(*byte));
    }
    head
}

impl<'a> LabelName<'a> {
    ghost use Rattle.std.specs.Prelude.{◌≡◌};
    ghost use Rattle.std.specs.Str.{bytes_eq};
    ghost use Rattle.hv_asm.specs.Definitions.{by_name};

    pub fn new(bytes: &'a [u8]) -> Self
        ensures { result.bytes.now ≡ bytes.now }
    {
        LabelName {
            head: head(bytes),
            bytes,
        }
    }

    /// Before or behind another name, in an order of the names.
    pub fn compare(&self, other: &LabelName<'_>) -> Ordering
        ensures { result ≡ by_name self.now other.now }
    {
        (self.head, self.bytes).cmp(&(other.head, other.bytes))
    }

    pub fn is(&self, other: &LabelName<'_>) -> bool
        ensures { result ≡ bytes_eq self.now.bytes.now other.now.bytes.now }
    {
        self.bytes == other.bytes
    }
}
