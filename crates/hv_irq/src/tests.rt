//! Schedules that are recorded and read back.

use super::*;
use std::test::Fail;

fn turn(hart: u32, count: u32) -> Event {
    Event::Turn { hart, count }
}

fn lines(hart: u32, mask: u32) -> Event {
    Event::Lines { hart, mask }
}

#[test]
fn events_are_recorded_in_order_with_their_total(rt: HostRuntime) -> Result<(), Fail> {
    let mut recording = Recording::new(rt.alloc());
    assert_eq!(rt; recording.total(), 0);
    recording.push(turn(0, 41))?;
    recording.push(lines(3, 0x880))?;
    recording.push(turn(3, 39))?;
    let events = [turn(0, 41), lines(3, 0x880), turn(3, 39)];
    assert_eq!(rt; recording.events(), events.as_slice());
    assert_eq!(rt; recording.total(), 80);
    Ok(())
}

#[test]
fn lines_are_raised_between_two_turns(rt: HostRuntime) -> Result<(), Fail> {
    let recording = raise_at(rt.alloc(), 80, 41, 3, 0x80)?;
    let events = [turn(3, 41), lines(3, 0x80), turn(3, 39)];
    assert_eq!(rt; recording.events(), events.as_slice());
    assert_eq!(rt; recording.total(), 80);
    Ok(())
}

#[test]
fn a_turn_of_no_steps_is_left_out(rt: HostRuntime) -> Result<(), Fail> {
    let first = raise_at(rt.alloc(), 80, 0, 0, 0x80)?;
    assert_eq!(rt; first.events(), [lines(0, 0x80), turn(0, 80)].as_slice());
    let last = raise_at(rt.alloc(), 80, 80, 0, 0x80)?;
    assert_eq!(rt; last.events(), [turn(0, 80), lines(0, 0x80)].as_slice());
    let alone = raise_at(rt.alloc(), 0, 0, 0, 0x80)?;
    assert_eq!(rt; alone.events(), [lines(0, 0x80)].as_slice());
    Ok(())
}

#[test]
fn raising_is_refused_as_by_push(rt: HostRuntime) {
    let beyond = HARTS as u32;
    assert_eq!(rt;
        raise_at(rt.alloc(), 1, 0, beyond, 0x1).err(),
        Some(PushEnd::Hart)
    );
    assert_eq!(rt;
        raise_at(rt.alloc(), 1, 1, beyond, 0x80).err(),
        Some(PushEnd::Hart)
    );
    assert_eq!(rt;
        raise_at(rt.alloc(), 1, 0, 0, 0x1).err(),
        Some(PushEnd::Mask)
    );
    assert_eq!(rt;
        raise_at(rt.alloc(), 1_000_000_001, 1_000_000_001, 0, 0x1).err(),
        Some(PushEnd::Steps)
    );
    assert_eq!(rt;
        raise_at(rt.alloc(), 1_000_000_001, 1, 0, 0x1).err(),
        Some(PushEnd::Mask)
    );
    assert_eq!(rt;
        raise_at(rt.alloc(), 1_000_000_001, 1, 0, 0x80).err(),
        Some(PushEnd::Steps)
    );
}
