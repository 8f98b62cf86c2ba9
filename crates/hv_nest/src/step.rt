//! One step of a machine, with the machines inside it.

ghost use Rattle.std.specs.Prelude.{◌≡◌, ◌≢◌, ℕ, ◌+◌, ◌-◌, ◌<◌, ◌≤◌, ◌^◌, [], IfErr, IfNone, IfSome, OnErr, OnOk, List, length};
ghost use Rattle.hv_word.specs.Storage.{page_count};
ghost use Rattle.hv_exec.specs.Act.{act_of};
ghost use Rattle.hv_block.specs.Block.{access_word};
ghost use Rattle.hv_map.specs.Chain.{map_along, running_path};
ghost use Rattle.hv_limits.specs.Limits.{depth_limit};
ghost use Rattle.hv_exec.specs.Changes.{changed_regs};
ghost use Rattle.hv_nest.specs.Changes.{differences};
ghost use Rattle.hv_nest.specs.Frame.{IsFramedBy};
ghost use Rattle.hv_nest.specs.Notes.{undone};
ghost use Rattle.hv_nest.specs.Noted.{AreNoted, NothingDone};
ghost use Rattle.hv_store.specs.Access.{identity};
ghost use Rattle.hv_nest.specs.Step.{Worked, idle, interrupt_of, act_step, tell_of, too_deep, malformed, step_of, host_step_of};
ghost use Rattle.hv_nest.specs.Kinds.{step_as, step_result, NextBelow};

use crate::notes::Notes;
use crate::noting::{Noting, NotingBare, put_cpu, put_fault};
use crate::outcome::{Outcome, StepKind};
use hv_cpu::Cpu;
use hv_csr::{pending, take_trap};
use hv_exec::act;
use hv_limits::DEPTH;
use hv_map::{Chain, Found, child};
use hv_store::{Access, Refusal, Store};

/// One step of a hart of the bare machine, told in `outcome` in place of what that told; `notes` is room for it. The hart's next,
/// if it has one, is a page of the storage.
#[inline(always)]
pub fn host_step_into(
    store: &mut Store,
    notes: &mut Notes,
    cpu: &mut Cpu,
    hart: u32,
    outcome: &mut Outcome,
)
    requires { NextBelow (page_count store.old) cpu.old }
    ensures steps { step_as outcome.new.kind store.new cpu.new ≡ host_step_of store.old hart cpu.old }
    ensures changed { outcome.new.changed ≡ differences store.old store.new }
    ensures frame { IsFramedBy store.old (running_path store.old cpu.old) store.new }
    ensures next { NextBelow (page_count store.old) cpu.new }
    ensures len { length store.new ≡ length store.old }
{
    notes.clear();
    if entered(cpu).is_some() {
        inner_step(store, notes, cpu, hart, outcome);
    } else {
        bare_step(store, notes, cpu, hart, outcome);
    }
}

/// The same with an outcome of its own.
#[inline(always)]
pub fn host_step(store: &mut Store, cpu: &mut Cpu, hart: u32) -> Outcome
    requires { NextBelow (page_count store.old) cpu.old }
    ensures steps { step_as result.kind store.new cpu.new ≡ host_step_of store.old hart cpu.old }
    ensures changed { result.changed ≡ differences store.old store.new }
    ensures frame { IsFramedBy store.old (running_path store.old cpu.old) store.new }
    ensures next { NextBelow (page_count store.old) cpu.new }
    ensures len { length store.new ≡ length store.old }
{
    let mut notes = Notes::new();
    let mut outcome = Outcome::none();
    host_step_into(store, &mut notes, cpu, hart, &mut outcome);
    outcome
}

// The same where the hart runs a machine. It needs much more room than a step of the bare machine alone.
#[inline(never)]
#[tactic(auto, using(crate::proofs::Rows::hosting))]
fn inner_step(store: &mut Store, notes: &mut Notes, cpu: &mut Cpu, hart: u32, outcome: &mut Outcome)
    requires fresh { notes.old ≡ [] }
    requires next { NextBelow (page_count store.old) cpu.old }
    ensures steps { step_as outcome.new.kind store.new cpu.new ≡ host_step_of store.old hart cpu.old }
    ensures changed { outcome.new.changed ≡ differences store.old store.new }
    ensures frame { IsFramedBy store.old (running_path store.old cpu.old) store.new }
    ensures next { NextBelow (page_count store.old) cpu.new }
    ensures len { length store.new ≡ length store.old }
{
    match step_at(store, notes, &Chain::new(), hart, cpu) {
        Ok(kind) => outcome.kind = kind,
        Err(_) => unreachable!(),
    }
    notes.tell(store, &mut outcome.changed);
}

// The same where the hart runs no machine.
#[inline(always)]
#[tactic(auto, using(crate::proofs::Rows::hosting))]
fn bare_step(store: &mut Store, notes: &mut Notes, cpu: &mut Cpu, hart: u32, outcome: &mut Outcome)
    requires fresh { notes.old ≡ [] }
    requires idle { cpu.old.next ≡ 0 }
    ensures steps { step_as outcome.new.kind store.new cpu.new ≡ host_step_of store.old hart cpu.old }
    ensures changed { outcome.new.changed ≡ differences store.old store.new }
    ensures frame { IsFramedBy store.old (running_path store.old cpu.old) store.new }
    ensures next { NextBelow (page_count store.old) cpu.new }
    ensures len { length store.new ≡ length store.old }
{
    outcome.kind = StepKind::Worked;
    if let Some(cause) = pending(cpu) {
        take_trap(cpu, cause, true, 0);
        outcome.changed.clear();
        return;
    }
    act_bare(store, notes, hart, cpu);
    notes.tell(store, &mut outcome.changed);
}

// One instruction of the bare machine. It is called in several places, and so large that it stays a function of its own.
#[inline(never)]
#[tactic(auto, using(crate::proofs::Counts::counts))]
fn act_bare(store: &mut Store, notes: &mut Notes, hart: u32, cpu: &mut Cpu)
    requires fresh { notes.old ≡ [] }
    requires next { cpu.old.next ≡ 0 }
    ensures acts { Worked store.new cpu.new ≡ act_step (act_of store.old (identity (page_count store.old)) hart cpu.old) }
    ensures next { NextBelow (page_count store.old) cpu.new }
    ensures len { length store.new ≡ length store.old }
    ensures origin { undone store.new notes.new ≡ store.old }
{
    let mut noting = NotingBare { store, notes };
    match act(cpu, hart, &mut noting) {
        Ok(()) => {}
        Err(_) => unreachable!(),
    }
}

// The step of the last machine of a chain, with its registers. An error is a refusal for a machine further out; then nothing
// changed.
#[tactic(auto, using(crate::proofs::Rows::rows, crate::proofs::Counts::counts))]
pub(crate) fn step_at(
    store: &mut Store,
    notes: &mut Notes,
    chain: &Chain,
    hart: u32,
    cpu: &mut Cpu,
) -> Result<StepKind, Refusal>
    requires fresh { notes.old ≡ [] }
    requires next { NextBelow (length (map_along store.old chain.now)) cpu.old }
    ensures steps { step_result result store.new cpu.new
        ≡ step_of (depth_limit - length chain.now) store.old (map_along store.old chain.now) (length chain.now) hart cpu.old }
    ensures next { NextBelow (length (map_along store.old chain.now)) cpu.new }
    ensures level { IfErr result (λ e. e.level < length chain.now) }
    ensures err { OnErr result (NothingDone store.old store.new cpu.old cpu.new notes.new) }
    ensures noted { AreNoted store.old store.new cpu.old cpu.new notes.new }
{
    let level = chain.len();
    if let Some(cause) = pending(cpu) {
        return Ok(interrupt(cpu, level, cause));
    }
    let Some(page) = entered(cpu) else {
        return act_along(store, notes, chain, hart, cpu);
    };
    let _pages = chain.pages(store);
    if level as usize == DEPTH {
        return Err(too_deep(page));
    }
    match child(store, chain, page) {
        Found::Child { host, block } => {
            let deeper = chain.deeper(page, host, &block);
            let mut inner = block.cpu;
            match step_at(store, notes, &deeper, 0, &mut inner) {
                Ok(kind) => {
                    put_cpu(store, notes, host, &inner);
                    Ok(kind)
                }
                Err(refusal) => tell(store, notes, level, cpu, host, refusal),
            }
        }
        Found::Malformed { host } => {
            tell(store, notes, level, cpu, host, malformed(level, page))
        }
        Found::Refused(refusal) => Err(refusal),
    }
}

// A machine at the deepest level can't run another: the bare machine is told.
fn too_deep(page: u32) -> Refusal
    requires { page < 2 ^ 20 }
    ensures { result ≡ too_deep page }
{
    Refusal {
        level: 0,
        cause: 5,
        address: 4096 * page,
        access: Access::Read,
    }
}

// A malformed block is told to the machine that holds it, at `level`.
fn malformed(level: u32, page: u32) -> Refusal
    requires { page < 2 ^ 20 }
    ensures { result ≡ malformed level page }
{
    Refusal {
        level,
        cause: 6,
        address: 4096 * page,
        access: Access::Read,
    }
}

// The page of the machine that is to run, if any.
pub(crate) fn entered(cpu: &Cpu) -> Option<u32>
    ensures some { IfSome result (λ page. page ≡ cpu.now.next) }
    ensures real { IfSome result (λ page. page ≢ 0) }
    ensures none { IfNone result (cpu.now.next ≡ 0) }
{
    let _ = &cpu.pc;
    cpu.next
}

// No machine is to run any more.
fn stop(cpu: &mut Cpu)
    ensures { cpu.new ≡ idle cpu.old }
{
    cpu.next = None;
}

#[tactic(auto, using(crate::proofs::Counts::counts))]
// An interrupt is taken; where a machine is to run, its parent, at `level`, gets control back first.
fn interrupt(cpu: &mut Cpu, level: u32, cause: u32) -> StepKind
    requires { cause < 16 }
    ensures does { (S : List ℕ) → step_as result S cpu.new ≡ interrupt_of S level cpu.old cause }
    ensures next { cpu.old.next ≡ 0 → cpu.new.next ≡ 0 }
    ensures idle { cpu.old.next ≢ 0 → cpu.new.next ≡ 0 }
    ensures count { changed_regs cpu.old cpu.new ≤ 6 }
{
    if cpu.next.is_some() {
        stop(cpu);
        return StepKind::Recall { receiver: level };
    }
    take_trap(cpu, cause, true, 0);
    StepKind::Worked
}

#[tactic(auto, using(crate::proofs::Counts::counts))]
// One instruction of the last machine of a chain, where no machine is to run.
fn act_along(
    store: &mut Store,
    notes: &mut Notes,
    chain: &Chain,
    hart: u32,
    cpu: &mut Cpu,
) -> Result<StepKind, Refusal>
    requires fresh { notes.old ≡ [] }
    requires next { cpu.old.next ≡ 0 }
    ensures acts { step_result result store.new cpu.new ≡ act_step (act_of store.old (map_along store.old chain.now) hart cpu.old) }
    ensures next { NextBelow (length (map_along store.old chain.now)) cpu.new }
    ensures level { IfErr result (λ e. e.level < length chain.now) }
    ensures err { OnErr result (NothingDone store.old store.new cpu.old cpu.new notes.new) }
    ensures noted { AreNoted store.old store.new cpu.old cpu.new notes.new }
{
    let mut noting = Noting {
        store,
        chain,
        notes,
    };
    act(cpu, hart, &mut noting)?;
    Ok(StepKind::Worked)
}

#[tactic(auto, using(crate::proofs::Counts::counts))]
// Tells a refusal to the machine at `level`, whose child's block is in bare page `host`, if it is for that machine: its
// child stops running. Else the refusal is passed on, and nothing changed.
fn tell(
    store: &mut Store,
    notes: &mut Notes,
    level: u32,
    cpu: &mut Cpu,
    host: u32,
    refusal: Refusal,
) -> Result<StepKind, Refusal>
    requires fresh { notes.old ≡ [] }
    requires host { host < page_count store.old }
    ensures tells { step_result result store.new cpu.new ≡ tell_of store.old level cpu.old host refusal }
    ensures next { OnOk result (cpu.new.next ≡ 0) }
    ensures level { IfErr result (λ e. (e.level ≡ refusal.level) × (e.level ≢ level)) }
    ensures err { OnErr result (NothingDone store.old store.new cpu.old cpu.new notes.new) }
    ensures noted { AreNoted store.old store.new cpu.old cpu.new notes.new }
{
    if refusal.level != level {
        return Err(refusal);
    }
    let access = word_of(refusal.access);
    put_fault(store, notes, host, refusal.cause, refusal.address, access);
    stop(cpu);
    Ok(StepKind::Fault {
        receiver: level,
        cause: refusal.cause,
        address: refusal.address,
        access: refusal.access,
    })
}

// How an access is spelled in a control block.
fn word_of(access: Access) -> u32
    ensures { result ≡ access_word access }
{
    match access {
        Access::Read => 1,
        Access::Write => 2,
        Access::Fetch => 3,
    }
}
