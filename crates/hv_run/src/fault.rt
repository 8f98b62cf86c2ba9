//! The faults of a play.

ghost use Rattle.std.specs.Prelude.{◌≡◌};

use hv_store::Access;
use std::marker::Model;

/// One fault: the number of its step, counted from 1, the hart that made the step, the level of the machine that received
/// the fault, and what it was told.
#[derive(Clone, Copy, Debug)]
pub struct FaultRow {
    pub step: u64,
    pub hart: u32,
    pub receiver: u32,
    pub cause: u32,
    pub address: u32,
    pub access: Access,
}

impl Model for FaultRow {
    ghost use Rattle.hv_run.specs.Record.{FaultRecord};

    ghost Value = { FaultRecord };

    ghost view = { λ f. record {
      step = f.step;
      hart = f.hart;
      receiver = f.receiver;
      cause = f.cause;
      address = f.address;
      access = f.access;
    } };

    ghost inverse = { λ f. record {
      step = f.step;
      hart = f.hart;
      receiver = f.receiver;
      cause = f.cause;
      address = f.address;
      access = f.access;
    } };
}
