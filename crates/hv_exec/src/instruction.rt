//! One instruction of a machine over its storage.

ghost use Rattle.std.specs.Prelude.{◌≡◌, ◌≢◌, ◌<◌, ℕ, Bool, false, OnErr, IfErr, IfOk, length};
ghost use Rattle.hv_isa.specs.Table.{decode_of};
ghost use Rattle.hv_csr.specs.Traps.{take_trap_of};
ghost use Rattle.hv_store.specs.Space.{Keeps};
ghost use Rattle.hv_sv32.specs.Stop.{IsStopped};
ghost use Rattle.hv_sv32.specs.Walk.{walk_of};
ghost use Rattle.hv_exec.specs.Act.{act_of, acted, decoded, fetch_at, load_at, store_at, enter_at};
ghost use Rattle.hv_exec.specs.Kept.{ChangedNothing};
ghost use Rattle.hv_exec.specs.declared.answer.Width.{Width as WidthOf};
ghost use Rattle.hv_exec.specs.Touched.{Touches};

use crate::answer::{Task, Width, advance, illegal, put};
use crate::memory::{extend, lane};
use crate::rows::{Fetched, perform};
use crate::touched::Touched;
use hv_cpu::{Cpu, Mode};
use hv_csr::take_trap;
use hv_isa::operation;
use hv_store::{Access, Refusal, Space};
use hv_sv32::{Stop, direct, translate};
use hv_word::lane_get;

/// Executes one instruction of a hart, or takes its trap. An error is the refusal of a word that was asked for; then
/// nothing changed. At most one of its asks writes, and it is the last: the space need have room for one alone.
#[inline(always)]
pub fn act<S: Space>(cpu: &mut Cpu, hart: u32, space: &mut S) -> Result<(), Refusal>
    requires next { cpu.old.next ≡ 0 }
    requires room { 0 < S.room space.old }
    ensures acts { acted result (S.storage space.new) cpu.new
        ≡ act_of (S.storage space.old) (S.slots space.old) hart cpu.old }
    ensures next { cpu.new.next ≢ 0 → cpu.new.next < length (S.slots space.old) }
    ensures level { IfErr result (λ e. e.level < S.depth space.old) }
    ensures keeps { Keeps S.Space space.old space.new }
    ensures err { OnErr result (ChangedNothing S.Space space.old space.new cpu.old cpu.new) }
{
    act_telling(cpu, hart, space)?;
    Ok(())
}

/// The same, with what it may have changed of the registers.
#[tactic(auto, unfolding(crate::specs::Act::act_of, crate::specs::Act::fetch_at, crate::specs::Act::decoded))]
#[inline(always)]
pub fn act_telling<S: Space>(cpu: &mut Cpu, hart: u32, space: &mut S) -> Result<Touched, Refusal>
    requires next { cpu.old.next ≡ 0 }
    requires room { 0 < S.room space.old }
    ensures acts { acted result (S.storage space.new) cpu.new
        ≡ act_of (S.storage space.old) (S.slots space.old) hart cpu.old }
    ensures touches { IfOk result (λ touched. Touches touched cpu.old cpu.new) }
    ensures next { cpu.new.next ≢ 0 → cpu.new.next < length (S.slots space.old) }
    ensures level { IfErr result (λ e. e.level < S.depth space.old) }
    ensures keeps { Keeps S.Space space.old space.new }
    ensures err { OnErr result (ChangedNothing S.Space space.old space.new cpu.old cpu.new) }
{
    let pc = cpu.pc;
    let Some(at) = direct(cpu, space, pc, Access::Fetch) else {
        return stopped(cpu, space, pc, Access::Fetch);
    };
    let _pages = space.pages();
    let word = space.read((at / 4096) as u32, (at % 4096 / 4) as u32, Access::Fetch)?;
    execute(cpu, hart, space, word)
}

// Executes the instruction of a word that was fetched. Its row is found and its work done in one function, so that one jump can
// do both.
#[tactic(auto, unfolding(crate::specs::Act::carried_out, crate::specs::Act::decoded, hv_isa::specs::Table::decode_of))]
#[inline(always)]
fn execute<S: Space>(cpu: &mut Cpu, hart: u32, space: &mut S, word: u32) -> Result<Touched, Refusal>
    requires next { cpu.old.next ≡ 0 }
    requires room { 0 < S.room space.old }
    ensures acts { acted result (S.storage space.new) cpu.new
        ≡ decoded (S.storage space.old) (S.slots space.old) hart cpu.old word (decode_of word) }
    ensures touches { IfOk result (λ touched. Touches touched cpu.old cpu.new) }
    ensures next { cpu.new.next ≢ 0 → cpu.new.next < length (S.slots space.old) }
    ensures level { IfErr result (λ e. e.level < S.depth space.old) }
    ensures keeps { Keeps S.Space space.old space.new }
    ensures err { OnErr result (ChangedNothing S.Space space.old space.new cpu.old cpu.new) }
{
    let fetched = Fetched::new(cpu, word);
    let task = match operation(word) {
        Some(op) => perform::<S>(cpu, hart, op, fetched),
        None => illegal(word),
    };
    match task {
        Task::Done { touched } => Ok(touched),
        Task::Trap { cause, tval } => Ok(trap(cpu, cause, tval)),
        Task::Load {
            address,
            width,
            signed,
            rd,
        } => load(cpu, space, address, width, signed, rd),
        Task::Store {
            address,
            width,
            value,
        } => store(cpu, space, address, width, value),
        Task::Enter { value } => enter(cpu, space, value),
    }
}

// Takes the trap of an access whose address leads nowhere, or tells the refusal. It is no part of what most accesses are.
#[tactic(auto, unfolding(crate::specs::Act::fetch_at))]
#[inline(never)]
fn stopped<S: Space>(
    cpu: &mut Cpu,
    space: &mut S,
    address: u32,
    access: Access,
) -> Result<Touched, Refusal>
    requires next { cpu.old.next ≡ 0 }
    requires room { 0 < S.room space.old }
    requires stops { IsStopped (walk_of (S.storage space.old) (S.slots space.old) cpu.old address access) }
    ensures fetch { (hart : ℕ) → acted result (S.storage space.new) cpu.new
        ≡ fetch_at (S.storage space.old) (S.slots space.old) hart cpu.old
        (walk_of (S.storage space.old) (S.slots space.old) cpu.old address access) }
    ensures load { (at : ℕ) (width : Width) (signed : Bool) (rd : ℕ) → acted result (S.storage space.new) cpu.new
        ≡ load_at (S.storage space.old) (S.slots space.old) cpu.old at width signed rd
        (walk_of (S.storage space.old) (S.slots space.old) cpu.old address access) }
    ensures store { (at : ℕ) (width : Width) (value : ℕ) → acted result (S.storage space.new) cpu.new
        ≡ store_at (S.storage space.old) (S.slots space.old) cpu.old at width value
        (walk_of (S.storage space.old) (S.slots space.old) cpu.old address access) }
    ensures touches { IfOk result (λ touched. Touches touched cpu.old cpu.new) }
    ensures next { cpu.new.next ≢ 0 → cpu.new.next < length (S.slots space.old) }
    ensures level { IfErr result (λ e. e.level < S.depth space.old) }
    ensures keeps { Keeps S.Space space.old space.new }
    ensures err { OnErr result (ChangedNothing S.Space space.old space.new cpu.old cpu.new) }
{
    match translate(cpu, space, address, access) {
        Ok(_) => unreachable!(),
        Err(Stop::Trap { cause, tval }) => Ok(trap(cpu, cause, tval)),
        Err(Stop::Refused(refusal)) => Err(refusal),
    }
}

// Loads register `rd` from an aligned address.
#[inline(always)]
fn load<S: Space>(
    cpu: &mut Cpu,
    space: &mut S,
    address: u32,
    width: Width,
    signed: bool,
    rd: u8,
) -> Result<Touched, Refusal>
    requires rd { rd < 32 }
    requires next { cpu.old.next ≡ 0 }
    requires room { 0 < S.room space.old }
    ensures acts { acted result (S.storage space.new) cpu.new
        ≡ load_at (S.storage space.old) (S.slots space.old) cpu.old address width signed rd
        (walk_of (S.storage space.old) (S.slots space.old) cpu.old address Access.Read) }
    ensures touches { IfOk result (λ touched. Touches touched cpu.old cpu.new) }
    ensures next { cpu.new.next ≢ 0 → cpu.new.next < length (S.slots space.old) }
    ensures level { IfErr result (λ e. e.level < S.depth space.old) }
    ensures keeps { Keeps S.Space space.old space.new }
    ensures err { OnErr result (ChangedNothing S.Space space.old space.new cpu.old cpu.new) }
{
    let Some(at) = direct(cpu, space, address, Access::Read) else {
        return stopped(cpu, space, address, Access::Read);
    };
    let _pages = space.pages();
    let offset = (at % 4096) as u32;
    let word = space.read((at / 4096) as u32, offset / 4, Access::Read)?;
    let value = lane_get(word, lane(width, offset));
    Ok(put(cpu, rd, extend(width, signed, value)))
}

// Stores a value's low bits at an aligned address.
#[inline(always)]
fn store<S: Space>(
    cpu: &mut Cpu,
    space: &mut S,
    address: u32,
    width: Width,
    value: u32,
) -> Result<Touched, Refusal>
    requires next { cpu.old.next ≡ 0 }
    requires room { 0 < S.room space.old }
    ensures acts { acted result (S.storage space.new) cpu.new
        ≡ store_at (S.storage space.old) (S.slots space.old) cpu.old address width value
        (walk_of (S.storage space.old) (S.slots space.old) cpu.old address Access.Write) }
    ensures touches { IfOk result (λ touched. Touches touched cpu.old cpu.new) }
    ensures next { cpu.new.next ≢ 0 → cpu.new.next < length (S.slots space.old) }
    ensures level { IfErr result (λ e. e.level < S.depth space.old) }
    ensures keeps { Keeps S.Space space.old space.new }
    ensures err { OnErr result (ChangedNothing S.Space space.old space.new cpu.old cpu.new) }
{
    let Some(at) = direct(cpu, space, address, Access::Write) else {
        return stopped(cpu, space, address, Access::Write);
    };
    let _pages = space.pages();
    let offset = (at % 4096) as u32;
    space.write((at / 4096) as u32, offset / 4, lane(width, offset), value)?;
    Ok(advance(cpu))
}

// Makes the machine whose block is in the page at the address `value` the one to run.
fn enter<S: Space>(cpu: &mut Cpu, space: &mut S, value: u32) -> Result<Touched, Refusal>
    requires next { cpu.old.next ≡ 0 }
    requires room { 0 < S.room space.old }
    ensures acts { acted result (S.storage space.new) cpu.new
        ≡ enter_at (S.storage space.old) (S.slots space.old) cpu.old value }
    ensures touches { IfOk result (λ touched. Touches touched cpu.old cpu.new) }
    ensures next { cpu.new.next ≢ 0 → cpu.new.next < length (S.slots space.old) }
    ensures level { IfErr result (λ e. e.level < S.depth space.old) }
    ensures keeps { Keeps S.Space space.old space.new }
    ensures err { OnErr result (ChangedNothing S.Space space.old space.new cpu.old cpu.new) }
{
    if value % 4096 != 0 {
        return Ok(trap(cpu, 6, value));
    }
    let page = value / 4096;
    if page == 0 || page >= space.pages() {
        return Ok(trap(cpu, 7, value));
    }
    space.clear_fault(page)?;
    cpu.next = Some(page);
    advance(cpu);
    Ok(Touched::Any)
}

// Takes the trap of an exception, and tells what that touches.
#[inline(always)]
fn trap(cpu: &mut Cpu, cause: u32, tval: u32) -> Touched
    requires { cause < 16 }
    ensures traps { cpu.new ≡ take_trap_of cpu.old cause false tval }
    ensures touches { Touches result cpu.old cpu.new }
    ensures next { cpu.new.next ≡ cpu.old.next }
{
    take_trap(cpu, cause, false, tval);
    match cpu.mode {
        Mode::M => Touched::TrapToM,
        Mode::S | Mode::U => Touched::TrapToS,
    }
}
