//! A parked machine.

use hv_store::Store;
use std::marker::Model;

/// A machine that is parked: the 50 words of its registers, in the order of a hart's words, and its pages as a storage of
/// its own. A hart can have the registers, and what it runs next, if any, is one of the pages.
#[derive(Drop)]
pub struct Capsule {
    pub regs: [u32; 50],
    pub store: Store,
}

impl Model for Capsule {
    ghost use Rattle.std.specs.Prelude.{◌≡◌, length};
    ghost use Rattle.hv_capsule.specs.Parked.{IsParked, Parked, regs_of_words};

    ghost Value = { Parked };

    ghost view = { λ c. record { regs = regs_of_words c.regs; storage = c.store } };

    ghost invariant = { λ c. (length c.regs ≡ 50) × IsParked record { regs = regs_of_words c.regs; storage = c.store } };
}
