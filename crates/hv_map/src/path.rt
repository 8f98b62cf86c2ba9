//! Paths to machines inside machines.

ghost use Rattle.std.specs.Prelude.{◌≡◌, ◌<◌, ◌≤◌, ◌++◌, ◌∷◌, [], length, nat_eq, slice_index};
ghost use Rattle.std.specs.List.{starts_with};
ghost use Rattle.hv_limits.specs.Limits.{depth_limit};

use hv_limits::DEPTH;
use std::marker::Model;

/// A path to a machine, from the outside in: each syllable is the page on which a machine has its child's control block.
/// It has at most `DEPTH` syllables.
#[derive(Drop)]
pub struct Path {
    len: u32,
    syllables: [u32; DEPTH],
}

impl Model for Path {
    ghost use Rattle.std.specs.Prelude.{◌≡◌, ◌≤◌, ℕ, List, length, take};
    ghost use Rattle.hv_limits.specs.Limits.{depth_limit};

    ghost Value = { List ℕ };

    ghost view = { λ p. take p.len p.syllables };

    ghost invariant = { λ p. (p.len ≤ depth_limit) × (length p.syllables ≡ depth_limit) };
}

impl Path {
    /// The path of the bare machine.
    pub fn new() -> Path
        ensures { result ≡ [] }
    {
        Path {
            len: 0,
            syllables: [0; DEPTH],
        }
    }

    /// The number of syllables.
    #[inline(always)]
    pub fn len(&self) -> u32
        ensures len { result ≡ length self.now }
        ensures bound { result ≤ depth_limit }
    {
        self.len
    }

    /// The syllables in order.
    #[inline(always)]
    pub fn as_slice(&self) -> &[u32]
        ensures items { result.now ≡ self.now }
        ensures bound { length result.now ≤ depth_limit }
    {
        &self.syllables[..self.len as usize]
    }

    /// The same path.
    pub fn copied(&self) -> Path
        ensures { result ≡ self.now }
    {
        Path {
            len: self.len,
            syllables: self.syllables,
        }
    }

    /// Syllable `i`, counted from 0.
    pub fn at(&self, i: u32) -> u32
        requires { i < length self.now }
        ensures { result ≡ slice_index self.now i }
    {
        self.as_slice()[i as usize]
    }

    /// Goes one level deeper.
    pub fn push(&mut self, syllable: u32)
        requires { length self.old < depth_limit }
        ensures { self.new ≡ self.old ++ syllable ∷ [] }
    {
        self.syllables[self.len as usize] = syllable;
        self.len += 1;
    }

    /// Whether this path is a prefix of the other.
    #[inline(always)]
    pub fn begins(&self, other: &Path) -> bool
        ensures { result ≡ starts_with nat_eq other.now self.now }
    {
        other.as_slice().starts_with(self.as_slice())
    }
}

/// A machine that is watched: the one at the end of a path, as a hart runs it.
#[derive(Drop)]
pub struct Watch {
    pub hart: u32,
    pub path: Path,
}
