//! What a text asks for.

use hv_irq::Recording;
use hv_line::{DebugCommand, Directive};
use hv_list::Items;

/// A directive and the number of its line.
#[derive(Drop)]
pub struct Placed {
    pub line: u32,
    pub what: Directive,
}

/// A command of the debugger, the number of its line, and its words with one blank between them.
#[derive(Drop)]
pub struct DebugLine {
    pub line: u32,
    pub words: Items<u8>,
    pub what: DebugCommand,
}

/// What a text asks for: a storage of this many pages, this many harts, the directives in the order of their lines, the
/// schedule, and the commands of the debugger.
#[derive(Drop)]
pub struct Job {
    pub pages: u32,
    pub harts: u32,
    pub lines: Items<Placed>,
    pub recording: Recording,
    pub commands: Items<DebugLine>,
}
