//! Where steps end.

use hv_map::Path;

/// A breakpoint: a machine, and an address of its program counter.
#[derive(Drop)]
pub(crate) struct Break {
    pub(crate) path: Path,
    pub(crate) at: u32,
}

/// Why the steps of a command ended: all were made, a breakpoint stopped before the next, or the schedule has no more.
#[derive(Clone, Copy, Debug)]
pub(crate) enum Stop {
    Done,
    AtBreak,
    AtEnd,
}
