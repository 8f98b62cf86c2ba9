//! A trace.

use crate::row::TraceRow;
use hv_capsule::Capsule;
use std::marker::Model;

/// A machine at its start, and row by row what it then did. A row's places are those of registers, and its word of the
/// storage is one of the start's.
#[derive(Drop)]
pub struct Trace {
    pub start: Capsule,
    pub rows: Vec<TraceRow>,
}

impl Model for Trace {
    ghost use Rattle.std.specs.Prelude.{length};
    ghost use Rattle.hv_trace.specs.Rows.{AreRows, Traced};

    ghost Value = { Traced };

    ghost view = { λ t. record { start = t.start; rows = t.rows.items } };

    ghost invariant = { λ t. AreRows (length t.start.storage) t.rows.items };
}
