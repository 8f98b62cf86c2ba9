//! How large machines, schedules and texts can be.
#![tactic(auto)]

ghost use Rattle.std.specs.Prelude.{◌≡◌, ◌+◌};
ghost use Rattle.hv_limits.specs.Limits.{depth_limit, harts_limit, lines_mask, pages_limit, steps_limit, events_limit, kept_limit, input_limit};

/// At how deep a level a machine can be: a path has at most as many syllables.
pub const DEPTH: usize = 12;

/// How many levels there are, from the bare machine's, 0, to the deepest.
pub const LEVELS: usize = DEPTH + 1;

/// How many harts the bare machine can have.
pub const HARTS: usize = 8;

/// The interrupt lines from outside: MSI, MTI and MEI, bits 3, 7 and 11 of mip.
pub const LINES: u32 = 0x888;

/// How many pages the bare storage, and a machine that is watched, can have.
pub const PAGES: u32 = 16_384;

/// How many steps the events of one schedule can take together.
pub const STEPS: u64 = 1_000_000_000;

/// How many events one schedule can have.
pub const EVENTS: usize = 65_536;

/// How many faults of a play, and how many changes of lines for each watch, are kept.
pub const KEPT: usize = 1024;

/// How many bytes a text that is read can have.
pub const INPUT_BYTES: u32 = 1_048_576;

/// The constants of the code are the numbers that the definitions speak of.
pub fn constants_are_the_limits()
    ensures depth { DEPTH ≡ depth_limit }
    ensures levels { LEVELS ≡ depth_limit + 1 }
    ensures harts { HARTS ≡ harts_limit }
    ensures lines { LINES ≡ lines_mask }
    ensures pages { PAGES ≡ pages_limit }
    ensures steps { STEPS ≡ steps_limit }
    ensures events { EVENTS ≡ events_limit }
    ensures kept { KEPT ≡ kept_limit }
    ensures input { INPUT_BYTES ≡ input_limit }
{}
