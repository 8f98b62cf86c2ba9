//! The last faults of a play.

ghost use Rattle.std.specs.Prelude.{◌≡◌, ◌+◌, ◌<◌, ◌≤◌, ◌^◌, [], ◌∷◌, ◌++◌, IfOk, Some, length, slice_get};
ghost use Rattle.hv_run.specs.Record.{last_kept};
ghost use Rattle.hv_limits.specs.Limits.{kept_limit};

use crate::fault::FaultRow;
use hv_limits::KEPT;
use std::alloc::{AllocError, Global};
use std::marker::Model;

/// The last faults of a play, at most `KEPT`. Once so many are held, the next takes the place of the oldest, at `oldest`.
#[derive(Drop)]
pub(crate) struct Faults {
    rows: Vec<FaultRow>,
    oldest: usize,
}

impl Model for Faults {
    ghost use Rattle.std.specs.Prelude.{◌≡◌, ◌<◌, ◌≤◌, List, ◌++◌, length, take, drop, vec_capacity};
    ghost use Rattle.hv_run.specs.Record.{FaultRecord};
    ghost use Rattle.hv_limits.specs.Limits.{kept_limit};

    ghost Value = { List FaultRecord };

    ghost view = { λ f. drop f.oldest f.rows.items ++ take f.oldest f.rows.items };

    ghost invariant = { λ f. (length f.rows.items ≤ kept_limit) × (kept_limit ≤ vec_capacity f.rows) × (f.oldest < kept_limit) × (length f.rows.items < kept_limit → f.oldest ≡ 0) };
}

impl Faults {
    /// None yet, with room for all that are kept.
    pub(crate) fn new(alloc: Global) -> Result<Faults, AllocError>
        ensures { IfOk result (λ f. f ≡ []) }
    {
        let rows = Vec::with_capacity(alloc, KEPT)?;
        Ok(Faults { rows, oldest: 0 })
    }

    /// How many are kept.
    pub(crate) fn len(&self) -> usize
        ensures len { result ≡ length self.now }
        ensures bound { result ≤ kept_limit }
    {
        self.rows.len()
    }

    /// Fault `i` of those that are kept, in order.
    pub(crate) fn get(&self, i: usize) -> FaultRow
        requires { i < length self.now }
        ensures { slice_get self.now i ≡ Some result }
    {
        let newer = self.rows.len() - self.oldest;
        if i < newer {
            self.rows[self.oldest + i]
        } else {
            self.rows[i - newer]
        }
    }

    /// Keeps one more. It is no part of its caller's code, since most steps come to no fault.
    #[inline(never)]
    pub(crate) fn push(&mut self, row: FaultRow)
        ensures { self.new ≡ last_kept (self.old ++ row ∷ []) }
    {
        if self.rows.len() < KEPT {
            let _ = self.rows.push(row);
        } else {
            self.rows[self.oldest] = row;
            self.oldest = if self.oldest + 1 == KEPT {
                0
            } else {
                self.oldest + 1
            };
        }
    }

    /// All that are kept, in order.
    pub(crate) fn into_vec(mut self) -> Vec<FaultRow>
        ensures { result.items ≡ self }
    {
        self.rows.rotate_left(self.oldest);
        self.rows
    }
}
