//! Which bare words a step changed.

ghost use Rattle.std.specs.Prelude.{◌≡◌, ◌<◌, ◌++◌, [], ◌∷◌, length, replicate};
ghost use Rattle.hv_nest.specs.Rows.{no_row, rows_limit, with_row};

use std::marker::Model;

/// How many bare words a step can change.
pub const ROWS: usize = 8;

/// The constant of the code is the number that the definitions speak of.
pub fn rows_are_the_limit()
    ensures { ROWS ≡ rows_limit }
{}

/// A bare word, counted from 0, with its new value.
#[derive(Clone, Copy, Debug, PartialEq, Eq)]
pub struct ChangedRow {
    pub at: u32,
    pub value: u32,
}

/// The bare words whose value a step changed, by rising place: the first `len` rows. The others are zero.
#[derive(Clone, Copy, Debug)]
pub struct Changed {
    pub len: u32,
    pub rows: [ChangedRow; ROWS],
}

impl Model for Changed {
    ghost use Rattle.std.specs.Prelude.{◌≡◌, ◌≤◌, ◌-◌, List, length, take, drop, replicate};
    ghost use Rattle.hv_nest.specs.declared.changed.ChangedRow.{ChangedRow};

    ghost Value = { List ChangedRow };

    ghost use Rattle.hv_nest.specs.Rows.{no_row, rows_limit, filled_up, filled_back};

    ghost view = { λ c. take c.len c.rows };

    ghost invariant = { λ c. (c.len ≤ rows_limit) × (length c.rows ≡ rows_limit)
        × (drop c.len c.rows ≡ replicate (rows_limit - c.len) no_row) };

    ghost inverse = { filled_up };

    ghost inverse_ok = { λ c h. filled_back c h.0 h.1 h.2 };
}

impl Changed {
    /// No word.
    pub fn none() -> Changed
        ensures { result ≡ [] }
    {
        Changed {
            len: 0,
            rows: [ChangedRow { at: 0, value: 0 }; ROWS],
        }
    }

    /// Forgets its words.
    #[inline(always)]
    pub(crate) fn clear(&mut self)
        ensures { self.new ≡ [] }
    {
        if self.len > 0 {
            self.rows = [ChangedRow { at: 0, value: 0 }; ROWS];
            self.len = 0;
        }
    }

    /// Tells one more word, before those of greater places.
    #[inline(always)]
    pub(crate) fn insert(&mut self, row: ChangedRow)
        requires { length self.old < rows_limit }
        ensures { self.new ≡ with_row row self.old }
    {
        let last = put_among(&mut self.rows[..self.len as usize], row);
        self.rows[self.len as usize] = last;
        self.len += 1;
    }

    /// The rows of the words that changed.
    pub fn as_slice(&self) -> &[ChangedRow]
        ensures { result.now ≡ self.now }
    {
        &self.rows[..self.len as usize]
    }
}

// Puts a row among others before those of greater places, which move on by one: the last has no room and is answered.
#[inline(always)]
#[tactic(auto, using(crate::proofs::Inserted::inserting))]
fn put_among(rows: &mut [ChangedRow], row: ChangedRow) -> ChangedRow
    ensures { rows.new ++ result ∷ [] ≡ with_row row rows.old }
{
    let mut moved = row;
    for i in 0..rows.len() {
        if moved.at < rows[i].at {
            let next = rows[i];
            rows[i] = moved;
            moved = next;
        }
    }
    moved
}
