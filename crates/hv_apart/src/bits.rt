//! Sets of numbers, a bit for each.

ghost use Rattle.std.specs.Prelude.{◌≡◌, ℕ, ◌*◌, ◌/◌, ◌<◌, ◌==◌, ◌||◌, ◌&&◌, not, length};
ghost use Rattle.std.specs.List.{range_with_len};
ghost use Rattle.hv_apart.specs.Marked.{Joined, is_marked};

/// Whether a number is in the set.
#[tactic(auto, using(crate::proofs::BitSets::bit_sets))]
pub(crate) fn is_set(words: &[u32], at: u32) -> bool
    ensures { result ≡ is_marked words.now at }
{
    match words.get(at as usize / 32) {
        None => false,
        Some(word) => *word >> (at % 32) & 1 == 1,
    }
}

/// Puts a number into the set, and answers whether it was there.
#[tactic(auto, using(crate::proofs::BitSets::bit_sets))]
pub(crate) fn set(words: &mut [u32], at: u32) -> bool
    requires { at / 32 < length words.old }
    ensures was { result ≡ is_marked words.old at }
    ensures set { (a : ℕ) → is_marked words.new a ≡ (a == at) || is_marked words.old a }
    ensures length { length words.new ≡ length words.old }
{
    let i = at as usize / 32;
    let word = words[i];
    words[i] = word | 1 << (at % 32);
    word >> (at % 32) & 1 == 1
}

/// Puts the 32 numbers of a word into the set.
pub(crate) fn fill(words: &mut [u32], i: usize)
    requires { i < length words.old }
    ensures filled { Joined words.old words.new (range_with_len (32 * i) 32) }
    ensures length { length words.new ≡ length words.old }
{
    words[i] = u32::MAX;
}

/// Takes a number out of the set.
#[tactic(auto, using(crate::proofs::Clearing::clearings))]
pub(crate) fn clear(words: &mut [u32], at: u32)
    requires { at / 32 < length words.old }
    ensures cleared { (a : ℕ) → is_marked words.new a ≡ not (a == at) && is_marked words.old a }
    ensures length { length words.new ≡ length words.old }
{
    let i = at as usize / 32;
    let word = words[i];
    words[i] = word & !(1 << (at % 32));
}
