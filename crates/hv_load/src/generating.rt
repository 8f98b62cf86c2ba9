//! The job of a number: a kernel of additions at the top of a tower, and turns that run it.

ghost use Rattle.std.specs.Prelude.{◌≡◌, ◌+◌, ◌<◌, ◌≤◌, ◌++◌, ◌∷◌, [], IfOk, OnOk, length};
ghost use Rattle.hv_irq.specs.Events.{total_of};
ghost use Rattle.hv_limits.specs.Limits.{events_limit, steps_limit};
ghost use Rattle.hv_isa.specs.Table.{Fits, row_of};
ghost use Rattle.hv_job.specs.IsJob.{IsJob};
ghost use Rattle.hv_load.specs.Generator.{addition as addition_of, depths, gen_job_of, jump_back as jump_back_of, kernel_of, lines_of, next as next_of, register as register_of, schedule_of};

use crate::levels::name;
use hv_asm::Image;
use hv_irq::{Event, PushEnd, Recording};
use hv_isa::{Instr, Op, encode};
use hv_job::{Directive, Job, Placed};
use hv_list::Items;
use hv_samples::Sample;
use hv_word::sext;
use std::alloc::{AllocError, Global};

/// How many depths the jobs go through: the bare machine, and towers of one machine and more.
pub const DEPTHS: u32 = 9;

/// The pages of the storage: those of the deepest of these towers.
const PAGES: u32 = 28;

/// The pages of the machine at the top.
const TOP_PAGES: u32 = 4;

/// The additions of the kernel, which stand before its jump.
const ADDITIONS: u32 = 511;

/// The long turns, and the steps of each.
const TURNS: u32 = 100;

const TURN_STEPS: u32 = 2000;

/// The steps that a level takes to enter the next.
const ENTRY_STEPS: u32 = 3;

/// The lines of the tower, the kernel and the first turn, as in a text that has a line for each word of the kernel.
const TOWER_LINE: u32 = 3;

const KERNEL_LINE: u32 = 4;

const FIRST_TURN_LINE: u32 = 518;

/// The job of a number: a kernel of 512 words at the top of a tower of `number` mod `DEPTHS` machines, which hart 0 runs
/// for 200,000 steps, and a watch on it.
#[tactic(auto, unfolding(crate::specs::Generator::gen_job_of))]
pub fn gen_job(alloc: Global, number: u32) -> Result<Job, AllocError>
    ensures job { IfOk result (λ job. job ≡ gen_job_of number) }
    ensures limits { IfOk result IsJob }
{
    let depth = number % DEPTHS;
    let kernel = kernel(alloc, number / DEPTHS)?;
    let recording = schedule(alloc, depth)?;
    let turns = recording.events().len() as u32;
    Ok(Job {
        pages: PAGES,
        harts: 1,
        lines: Items::new(lines(alloc, depth, kernel, turns)?),
        recording,
        commands: Items::new(Vec::new(alloc)),
    })
}

// The words of the kernel.
fn kernel(alloc: Global, seed: u32) -> Result<Items<u32>, AllocError>
    ensures { IfOk result (λ words. words ≡ kernel_of seed) }
{
    let mut words = Vec::new(alloc);
    let mut number = seed;
    for place in 0..ADDITIONS {
        number = next(number);
        words.push(encode(&addition(number)))?;
    }
    words.push(encode(&jump_back()))?;
    Ok(Items::new(words))
}

// The number behind a number.
fn next(number: u32) -> u32
    ensures { result ≡ next_of number }
{
    number.wrapping_mul(1_664_525).wrapping_add(1_013_904_223)
}

// The `addi` of a number.
fn addition(number: u32) -> Instr
    ensures value { result ≡ addition_of number }
    ensures fits { Fits (row_of result.op) result }
{
    Instr {
        op: Op::Addi,
        rd: register(number >> 8),
        rs1: register(number >> 16),
        rs2: 0,
        imm: sext::<12>(number >> 20),
    }
}

// A register, which isn't x0.
fn register(number: u32) -> u8
    ensures { result ≡ register_of number }
{
    1 + (number % 31) as u8
}

// The jump from behind the additions to the first of them.
fn jump_back() -> Instr
    ensures value { result ≡ jump_back_of }
    ensures fits { Fits (row_of result.op) result }
{
    Instr {
        op: Op::Jal,
        rd: 0,
        rs1: 0,
        rs2: 0,
        imm: (4 * ADDITIONS).wrapping_neg(),
    }
}

// The turns of hart 0.
#[tactic(auto, unfolding(crate::specs::Generator::schedule_of))]
fn schedule(alloc: Global, depth: u32) -> Result<Recording, AllocError>
    requires { depth < depths }
    ensures { IfOk result (λ recording. recording ≡ schedule_of depth) }
{
    let mut recording = Recording::new(alloc);
    if depth > 0 {
        push_turn(&mut recording, ENTRY_STEPS * depth)?;
    }
    for turn in 0..TURNS {
        push_turn(&mut recording, TURN_STEPS)?;
    }
    Ok(recording)
}

// Appends a turn of hart 0 to a recording that has room for it.
fn push_turn(recording: &mut Recording, count: u32) -> Result<(), AllocError>
    requires steps { total_of recording.old + count ≤ steps_limit }
    requires many { length recording.old < events_limit }
    ensures { OnOk result (recording.new ≡ recording.old ++ Event.Turn 0 count ∷ []) }
{
    match recording.push(Event::Turn { hart: 0, count }) {
        Ok(()) => Ok(()),
        Err(PushEnd::Memory) => Err(AllocError),
        Err(_) => unreachable!("the recording has room"),
    }
}

// The directives: the tower, the kernel, the turns and the watch.
fn lines(
    alloc: Global,
    depth: u32,
    words: Items<u32>,
    turns: u32,
) -> Result<Vec<Placed>, AllocError>
    requires { turns ≤ events_limit }
    ensures { IfOk result (λ lines. lines.items ≡ lines_of depth words turns) }
{
    let mut lines = Vec::new(alloc);
    lines.push(Placed {
        line: TOWER_LINE,
        what: Directive::Tower {
            depth,
            pages: TOP_PAGES,
            which: Sample::Pass,
        },
    })?;
    lines.push(Placed {
        line: KERNEL_LINE,
        what: Directive::Image {
            name: name(b"top"),
            image: Image { base: 0, words },
        },
    })?;
    for turn in 0..turns {
        lines.push(Placed {
            line: FIRST_TURN_LINE + turn,
            what: Directive::Turn { hart: 0 },
        })?;
    }
    lines.push(Placed {
        line: FIRST_TURN_LINE + turns,
        what: Directive::Watch {
            hart: 0,
            name: name(b"top"),
        },
    })?;
    Ok(lines)
}
