//! What the fast engine holds of a machine at depth three, with ample memory.

ghost use Rattle.std.specs.Prelude.{◌≡◌, ◌<◌, List, Some, length, true};
ghost use Rattle.hv_store.specs.declared.access.Slot.{Slot};
ghost use Rattle.hv_map.specs.Chain.{map_of};
ghost use Rattle.hv_nest.specs.Move.{running_of};
ghost use Rattle.hv_fast.specs.Holds.{is_known};

use crate::opening::{Opening, opened};
use hv_block::read_block;
use hv_fast::{Fast, Kept, Translated};
use hv_map::pin;
use hv_nest::Nested;
use hv_store::{Slot, Steps, Way};
use std::alloc::{AllocError, Global};
use std::marker::Brand;
use std::sync::ledger::{Blank, Ledger};
use std::test::Fail;

/// Three monitors, and a program on page 1 of the machine inside them. Page p of that machine is bare page 9 + p.
const TOWER: &str = "job 1
storage 13
tower 3 pages 4
image top 0x1000
stay: j stay
end
start top 0x1000
";

/// How many steps the monitors make before the program's first.
const MONITOR_STEPS: u32 = 9;

/// Hart 0 makes a step.
fn step(fast: &mut Fast) {
    // There is a hart 0.
    let _harts = fast.harts();
    fast.step(0);
}

/// The level of the machine that hart 0 runs.
fn depth(fast: &mut Fast) -> u32 {
    let _harts = fast.harts();
    fast.running(0).len()
}

/// The tower where the next step is the program's first; none if its job is refused.
fn tower(alloc: Global) -> Result<Option<Fast>, AllocError> {
    let Opening::Ready { job: _, start } = opened(alloc, TOWER.as_bytes())? else {
        return Ok(None);
    };
    let mut fast = Fast::new(alloc, start.store, start.harts)?;
    for _step in 0..MONITOR_STEPS {
        step(&mut fast);
    }
    Ok(Some(fast))
}

/// Where a page of the machine that hart 0 runs lies, where that is held: no table word is read.
fn found<L: Ledger>(fast: &mut Fast, page: u32, steps: &mut Steps<L>) -> Translated
    requires hart { 0 < length fast.old.state.harts }
    requires page { (F : List Slot) × (map_of fast.old.state.storage (running_of fast.old.state 0) ≡ Some F) × (page < length F) }
    requires held { is_known fast.old.paths fast.old.entries (running_of fast.old.state 0) page ≡ true }
    ensures quick { steps.new ≡ steps.old }
{
    fast.translate(0, page, steps)
}

/// Where a page of the machine that hart 0 runs lies, asked twice, where the second answer reads no table word; none where it
/// has no such page, or that isn't held.
fn found_twice(fast: &mut Fast, page: u32) -> Option<(Translated, Translated)> {
    found_twice_by::<Brand>(fast, page, Blank::new(1))
}

/// The same, with a new ledger that counts the words.
fn found_twice_by<L: Ledger>(
    fast: &mut Fast,
    page: u32,
    blank: Blank,
) -> Option<(Translated, Translated)>
    requires name { blank.name ≡ L.name }
    requires parts { blank.parts ≡ L.parts }
    requires some { 0 < blank.parts }
{
    let mut steps = Steps::<L>::new(blank);
    let _harts = fast.harts();
    let path = fast.running(0);
    if page >= pin(fast.parked(), &path)?.pages(fast.parked()) {
        return None;
    }
    let first = fast.translate(0, page, &mut steps);
    if first.kept != Kept::Held {
        return None;
    }
    Some((first, found(fast, page, &mut steps)))
}

#[test]
fn a_page_at_depth_three_is_held_and_then_found_without_a_table_word(
    rt: HostRuntime,
) -> Result<(), Fail> {
    let mut fast = tower(rt.alloc())?.ok_or("refused")?;
    assert_eq!(rt; depth(&mut fast), 3);
    let (first, second) = found_twice(&mut fast, 3).ok_or("not held")?;
    let way = Way::Open { host: 12 };
    let slot = Slot {
        read: way,
        write: way,
        fetch: way,
    };
    assert_eq!(rt; first.slot, slot);
    assert_eq!(rt; second, first);
    Ok(())
}

/// The page of the program counter of the machine that hart 0 runs, none where that is the bare machine.
fn counter_page(fast: &mut Fast) -> Option<u32> {
    let _harts = fast.harts();
    let path = fast.running(0);
    let store = fast.parked();
    let block = pin(store, &path)?.last_block()?;
    if block >= store.pages() {
        return None;
    }
    Some(read_block(store, block)?.cpu.pc / 4096)
}

/// Whether a page of the machine that hart 0 runs is held.
fn held(fast: &mut Fast, page: u32) -> bool {
    let _harts = fast.harts();
    fast.held(0, page)
}

#[test]
fn after_a_step_the_page_of_the_old_pc_is_held(rt: HostRuntime) -> Result<(), Fail> {
    let mut fast = tower(rt.alloc())?.ok_or("refused")?;
    let page = counter_page(&mut fast).ok_or("bare")?;
    assert_eq!(rt; page, 1);
    step(&mut fast);
    assert_eq!(rt; depth(&mut fast), 3);
    assert!(rt; held(&mut fast, page));
    Ok(())
}
