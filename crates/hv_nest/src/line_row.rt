//! Changes of a watched machine's interrupt lines.

use std::marker::Model;

/// A change of a machine's interrupt lines from outside: how many of its steps were counted before it, and the new lines,
/// inside `LINES`.
#[derive(Clone, Copy, Debug)]
pub struct LineRow {
    pub count: u64,
    pub bits: u32,
}

impl Model for LineRow {
    ghost use Rattle.hv_nest.specs.Watched.{LineChange};

    ghost Value = { LineChange };

    ghost view = { λ r. record { count = r.count; bits = r.bits } };

    ghost inverse = { λ c. record { count = c.count; bits = c.bits } };
}
