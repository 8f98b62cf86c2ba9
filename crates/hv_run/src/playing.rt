//! Playing a schedule.

ghost use Rattle.std.specs.Prelude.{◌≡◌, ◌≤◌, ◌<◌, All, IfOk, OnErr, OnOk, bit_and, length};
ghost use Rattle.hv_limits.specs.Limits.{events_limit, lines_mask, steps_limit};
ghost use Rattle.hv_irq.specs.Events.{hart_of, mask_of, total_of};
ghost use Rattle.hv_nest.specs.Move.{last_of};
ghost use Rattle.hv_run.specs.Promises.{AreBareRuns, FaultsAreRouted};
ghost use Rattle.hv_run.specs.Record.{record_of, schedule};
ghost use Rattle.hv_run.specs.Stands.{CanWatch, watches_of};

use crate::moving::Play;
use crate::record::Record;
use hv_irq::Event;
use hv_map::Watch;
use hv_nest::Nested;
use std::alloc::{AllocError, Global};

/// Plays events in order, from the engine's present state, and answers what is told of them. No watched machine that stands
/// apart can tell that it isn't alone, until it is touched, and each fault, also one that isn't kept, went to the machine
/// whose map refused first. After want of memory nothing was played. The watches are as for `Play::new`; each event's hart is
/// there, its mask has no bit but `LINES`, there are at most `EVENTS` events, and the turns take at most `STEPS` steps together.
pub fn play<N: Nested>(
    alloc: Global,
    nested: &mut N,
    events: &[Event],
    watches: &[Watch],
) -> Result<Record, AllocError>
    requires watches { CanWatch (N.state nested.old) (watches_of watches.now) }
    requires harts { All (λ event. hart_of event < length (N.state nested.old).harts) events.now }
    requires masks { All (λ event. bit_and (mask_of event) lines_mask ≡ mask_of event) events.now }
    requires many { length events.now ≤ events_limit }
    requires steps { total_of events.now ≤ steps_limit }
    ensures record { IfOk result (λ r. r ≡ record_of (N.state nested.old) (schedule events.now) (watches_of watches.now)) }
    ensures guests { OnOk result (AreBareRuns (N.state nested.old) (schedule events.now) (watches_of watches.now)) }
    ensures routed { OnOk result (FaultsAreRouted (N.state nested.old) (schedule events.now)) }
    ensures state { OnOk result (N.state nested.new ≡ last_of (N.state nested.old) (schedule events.now)) }
    ensures err { OnErr result (N.state nested.new ≡ N.state nested.old) }
{
    let mut play = Play::new(alloc, nested, watches)?;
    for event in events {
        play.event(nested, *event);
    }
    Ok(play.finish())
}
