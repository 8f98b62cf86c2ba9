//! Recorded schedules: the turns of the harts and the changes of their interrupt lines, in order.
#![tactic(auto)]

ghost use Rattle.std.specs.Prelude.{◌≡◌, ◌≢◌, ◌≤◌, [], ◌∷◌, ◌++◌, None, Some};
ghost use Rattle.std.specs.Prelude.{IfOk, IfErr, OnOk, OnErr, MatchOption, IsOkUnless};
ghost use Rattle.hv_irq.specs.Events.{first_refusal_of, raised_at};

use hv_limits::{EVENTS, HARTS, LINES, STEPS};
use std::alloc::{AllocFailed, Global};
use std::marker::Model;

/// One event of a schedule.
#[derive(Clone, Copy, Debug, PartialEq, Eq)]
pub enum Event {
    /// The hart makes `count` steps.
    Turn { hart: u32, count: u32 },
    /// The hart's lines become those set in `mask`.
    Lines { hart: u32, mask: u32 },
}

impl Event {
    ghost use Rattle.hv_irq.specs.Events.{hart_of, steps_of, mask_of};

    fn hart(self) -> u32
        ensures { result ≡ hart_of self }
    {
        match self {
            Event::Turn { hart, .. } | Event::Lines { hart, .. } => hart,
        }
    }

    fn steps(self) -> u32
        ensures { result ≡ steps_of self }
    {
        match self {
            Event::Turn { count, .. } => count,
            Event::Lines { .. } => 0,
        }
    }

    fn mask(self) -> u32
        ensures { result ≡ mask_of self }
    {
        match self {
            Event::Turn { .. } => 0,
            Event::Lines { mask, .. } => mask,
        }
    }
}

/// Why an event isn't recorded.
#[derive(Clone, Copy, Debug, PartialEq, Eq)]
pub enum PushEnd {
    /// The event names a hart that no schedule has.
    Hart,
    /// The event sets a bit that is no line from outside.
    Mask,
    /// The steps together would pass `STEPS`.
    Steps,
    /// `EVENTS` events are held.
    Many,
    /// Memory is wanting.
    Memory,
}

impl From<AllocFailed<Event>> for PushEnd {
    ghost use Rattle.std.specs.Prelude.{◌≡◌};
    ghost use Rattle.hv_irq.specs.declared.PushEnd.TheVariants.{Memory};

    ghost from_gives = { λ _ end. end ≡ Memory };

    fn from(_failed: AllocFailed<Event>) -> PushEnd {
        PushEnd::Memory
    }
}

/// The events of a schedule, in order. It is seen as the list of these.
#[derive(Drop)]
pub struct Recording {
    events: Vec<Event>,
    total: u64,
}

impl Model for Recording {
    ghost use Rattle.std.specs.Prelude.{◌≡◌, List};
    ghost use Rattle.hv_irq.specs.declared.Event.{Event};
    ghost use Rattle.hv_irq.specs.Events.{total_of, IsSchedule};

    ghost Value = { List Event };

    ghost view = { λ r. r.events.items };

    ghost invariant = { λ r. (r.total ≡ total_of r.events.items) × IsSchedule r.events.items };
}

impl Recording {
    ghost use Rattle.hv_irq.specs.Events.{total_of, refusal_of, turn_of, IsSchedule};
    ghost use Rattle.hv_limits.specs.Limits.{steps_limit};

    /// A recording of no events.
    pub fn new(alloc: Global) -> Recording
        ensures { result ≡ [] }
    {
        Recording {
            events: Vec::new(alloc),
            total: 0,
        }
    }

    /// Appends the event. It is refused by the first rule that it breaks, of hart, mask, steps and
    /// number; nothing has changed then.
    pub fn push(&mut self, event: Event) -> Result<(), PushEnd>
        ensures ok { OnOk result (self.new ≡ self.old ++ event ∷ []) }
        ensures err { OnErr result (self.new ≡ self.old) }
        ensures refused { MatchOption (refusal_of self.old event)
            (IsOkUnless result PushEnd.Memory) (λ end. result ≡ Err end) }
    {
        if event.hart() as usize >= HARTS {
            return Err(PushEnd::Hart);
        }
        if event.mask() & LINES != event.mask() {
            return Err(PushEnd::Mask);
        }
        let total = self.total + u64::from(event.steps());
        if total > STEPS {
            return Err(PushEnd::Steps);
        }
        if self.events.len() >= EVENTS {
            return Err(PushEnd::Many);
        }
        self.events.push(event)?;
        self.total = total;
        Ok(())
    }

    // Appends a turn of a hart, or nothing where it has no steps. It is refused as by `push`.
    fn push_turn(&mut self, hart: u32, count: u32) -> Result<(), PushEnd>
        ensures ok { OnOk result (self.new ≡ self.old ++ turn_of hart count) }
        ensures refused { MatchOption (first_refusal_of self.old (turn_of hart count))
            (IsOkUnless result PushEnd.Memory) (λ end. result ≡ Err end) }
    {
        if count == 0 {
            return Ok(());
        }
        self.push(Event::Turn { hart, count })
    }

    /// The events in order.
    pub fn events(&self) -> &[Event]
        ensures events { result.now ≡ self.now }
        ensures schedule { IsSchedule self.now }
    {
        self.events.as_slice()
    }

    /// The steps that all turns take together.
    pub fn total(&self) -> u64
        ensures total { result ≡ total_of self.now }
        ensures bound { result ≤ steps_limit }
    {
        self.total
    }
}

/// A schedule of one hart: `total` steps, with its lines set to `mask` after `at` of them. A turn of no steps is left
/// out. It is refused as `push` refuses the first of the events that breaks a rule, and never for their number.
pub fn raise_at(
    alloc: Global,
    total: u32,
    at: u32,
    hart: u32,
    mask: u32,
) -> Result<Recording, PushEnd>
    requires { at ≤ total }
    ensures events { IfOk result (λ recording. recording ≡ raised_at total at hart mask) }
    ensures ok { OnOk result (first_refusal_of [] (raised_at total at hart mask) ≡ None) }
    ensures refused { IfErr result (λ end. end ≢ PushEnd.Memory →
        first_refusal_of [] (raised_at total at hart mask) ≡ Some end) }
    ensures few { IfErr result (λ end. end ≢ PushEnd.Many) }
{
    let mut recording = Recording::new(alloc);
    recording.push_turn(hart, at)?;
    recording.push(Event::Lines { hart, mask })?;
    recording.push_turn(hart, total - at)?;
    Ok(recording)
}

#[cfg(test)]
mod tests;
