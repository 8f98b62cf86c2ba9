//! Names of machines.

ghost use Rattle.std.specs.Prelude.{◌≡◌, ◌≤◌, length, true};
ghost use Rattle.std.specs.Str.{bytes_eq};
ghost use Rattle.std.specs.List.{list_all};
ghost use Rattle.hv_line.specs.Names.{is_letter as is_letter_of, is_name as is_name_of, is_name_byte as is_name_byte_of, name_limit, name_of};

use std::marker::Model;

/// How many bytes a name can have.
pub const LETTERS: usize = 16;

/// A name of a machine: a letter a to z, followed by at most 15 letters a to z, digits or `_`. It is seen as the list of
/// its bytes.
#[derive(Debug, Drop)]
pub struct Name {
    pub len: u32,
    pub letters: [u8; LETTERS],
}

impl Model for Name {
    ghost use Rattle.std.specs.Prelude.{◌≡◌, ◌≤◌, ◌-◌, ℕ, List, length, take, drop, replicate};
    ghost use Rattle.hv_line.specs.Names.{name_limit};

    ghost Value = { List ℕ };

    ghost view = { λ n. take n.len n.letters };

    ghost invariant = { λ n. (n.len ≤ name_limit) × (length n.letters ≡ name_limit)
        × (drop n.len n.letters ≡ replicate (name_limit - n.len) 0) };
}

impl Name {
    /// The name that a word is.
    #[tactic(auto, unfolding(crate::specs::Names::name_of))]
    pub fn read(word: &[u8]) -> Option<Name>
        ensures { result ≡ name_of word.now }
    {
        if !is_name(word) {
            return None;
        }
        let mut letters = [0; LETTERS];
        letters[..word.len()].copy_from_slice(word);
        Some(Name {
            len: word.len() as u32,
            letters,
        })
    }

    /// The same name.
    pub fn copied(&self) -> Name
        ensures { result ≡ self.now }
    {
        Name {
            len: self.len,
            letters: self.letters,
        }
    }

    /// Whether these are the letters of the name.
    pub fn is(&self, letters: &[u8]) -> bool
        ensures { result ≡ bytes_eq self.now letters.now }
    {
        self.as_slice() == letters
    }

    /// The letters.
    pub fn as_slice(&self) -> &[u8]
        ensures letters { result.now ≡ self.now }
        ensures bound { length result.now ≤ name_limit }
    {
        &self.letters[..self.len as usize]
    }
}

// Whether a word is a name.
fn is_name(word: &[u8]) -> bool
    ensures value { result ≡ is_name_of word.now }
    ensures short { result ≡ true → length word.now ≤ name_limit }
{
    match word {
        [first, behind @ ..] => {
            is_letter(*first) && behind.len() < LETTERS && are_name_bytes(behind)
        }
        [] => false,
    }
}

fn are_name_bytes(bytes: &[u8]) -> bool
    ensures { result ≡ list_all is_name_byte_of bytes.now }
{
    bytes.iter().all(|byte| is_name_byte(*byte))
}

fn is_name_byte(byte: u8) -> bool
    ensures { result ≡ is_name_byte_of byte }
{
    is_letter(byte) || (byte >= b'0' && byte <= b'9') || byte == b'_'
}

fn is_letter(byte: u8) -> bool
    ensures { result ≡ is_letter_of byte }
{
    byte >= b'a' && byte <= b'z'
}
