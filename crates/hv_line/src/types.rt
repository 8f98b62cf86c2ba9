//! What a line of a job says.

use crate::name::Name;
use hv_asm::Image;
use hv_irq::Event;
use hv_list::Items;
use hv_samples::Sample;

/// What is to be done before the machine runs, and beside it. Addresses and pages are those of the machine that is named.
#[derive(Drop)]
pub enum Directive {
    /// The program counter of a hart at the start.
    Hart {
        hart: u32,
        pc: u32,
    },
    /// A machine with this many pages, from the parent's page `at` on; its block and its table are on these pages of the
    /// parent.
    Machine {
        name: Name,
        parent: Name,
        block: u32,
        pages: u32,
        table: u32,
        at: u32,
    },
    /// The entry of a page in a machine's map.
    Map {
        name: Name,
        page: u32,
        entry: u32,
    },
    /// The program counter of a machine at the start.
    Start {
        name: Name,
        pc: u32,
    },
    /// Words that were assembled.
    Image {
        name: Name,
        image: Image,
    },
    /// The words of a sample.
    Sample {
        name: Name,
        image: Image,
    },
    /// Words from an address on.
    Word {
        name: Name,
        at: u32,
        values: Items<u32>,
    },
    /// Machines inside one another, each with a sample that runs the next.
    Tower {
        depth: u32,
        pages: u32,
        which: Sample,
    },
    /// Steps of a hart; how many stands in the recording.
    Turn {
        hart: u32,
    },
    /// A change of a hart's interrupt lines, which stands in the recording.
    Lines {
        hart: u32,
    },
    /// A watch on a machine, as a hart runs it.
    Watch {
        hart: u32,
        name: Name,
    },
    /// A page of a machine, to be shown at the end.
    Dump {
        name: Name,
        page: u32,
    },
    /// A machine whose map becomes one of two levels, with its directory on this page of its parent.
    Upgrade {
        name: Name,
        dir: u32,
    },
}

/// What a line among the directives says.
#[derive(Drop)]
pub enum Statement {
    /// This many harts.
    Harts { harts: u32 },
    /// The text of assembly on the lines that follow, from this address on.
    Image { name: Name, at: u32 },
    /// The text of a sample, from this address on.
    Sample { name: Name, at: u32, which: Sample },
    /// An event of the schedule.
    Event(Event),
    /// Any other directive.
    Directive(Directive),
}

/// What a line of the debugger asks for.
#[derive(Drop)]
pub enum DebugCommand {
    /// The next steps of the schedule.
    Step { count: u32 },
    /// A stop before each step of a machine at an address.
    Break { name: Name, at: u32 },
    /// The registers of a machine.
    Regs { name: Name },
    /// A word of a machine's storage.
    Mem { name: Name, at: u32 },
    /// The path of the machine that a hart runs.
    Path { hart: u32 },
    /// The way of a page outwards.
    Map { name: Name, page: u32 },
    /// The faults so far.
    Faults,
}
