//! A play that goes on: moves of the bare machine, one after another, and what is told of them.

ghost use Rattle.std.specs.Prelude.{◌≡◌, ◌≢◌, ℕ, true, ◌≤◌, ◌+◌, ◌<◌, ◌^◌, ◌-◌, [], ◌∷◌, IfOk, Some, bit_and, length, replicate, slice_get, vec_capacity};
ghost use Rattle.hv_limits.specs.Limits.{lines_mask};
ghost use Rattle.hv_nest.specs.Changes.{differences};
ghost use Rattle.hv_nest.specs.Move.{StepOf, LinesOf, moved_of, lined_state, last_of, running_of};
ghost use Rattle.hv_irq.specs.Events.{hart_of, mask_of, steps_of};
ghost use Rattle.hv_run.specs.Play.{AreBareBy, AreInsideBy, Stepped, Lined, all_after, played_after, all_so_far, play_record, inside_of, TellsWithin};
ghost use Rattle.hv_run.specs.Promises.{AreBareRunsWith, IsRoutedIn, fault_in};
ghost use Rattle.hv_run.specs.Record.{moves_of};
ghost use Rattle.hv_run.specs.Stands.{CanWatch, EachNew, Follows, StandsFor, watches_of};

use crate::counts::Counts;
use crate::fault::FaultRow;
use crate::making::{Together, make_all, make_steps};
use crate::record::{Record, WatchRow};
use crate::running::Running;
use crate::starting::start;
use crate::watched::Watched;
use hv_irq::Event;
use hv_list::Items;
use hv_map::Watch;
use hv_nest::{Nested, Outcome};
use std::alloc::{AllocError, Global};
use std::marker::Model;

/// A play that goes on: the moves that were made by `turn` and `lines`, and what is told of them. It keeps the foot of each
/// watch as the start had it, and takes no memory after it was made.
#[derive(Drop)]
pub struct Play {
    calls: u64,
    counts: Counts,
    watched: Vec<Watched>,
    // the path that a hart ran last, and which paths of watches begin it
    running: Running,
    // room for what is told of the watches in the end
    rows: Vec<WatchRow>,
}

impl Model for Play {
    ghost use Rattle.std.specs.Prelude.{◌≡◌, ◌≤◌, [], length, vec_capacity};
    ghost use Rattle.hv_run.specs.Play.{Played, CountsWithin, TellsWithin, inside_of};

    ghost Value = { Played };

    ghost view = { λ p. record { calls = p.calls; counts = p.counts; watching = p.watched.items } };

    ghost invariant = { λ p. CountsWithin p.calls p.counts × TellsWithin p.calls p.watched.items × (p.rows.items ≡ []) × (length p.watched.items ≤ vec_capacity p.rows) × (p.running.inside.items ≡ inside_of p.running.path p.watched.items) };
}

impl Play {
    /// A play that has made no move yet, from the engine's present state, with all the memory that it needs. Each watch's
    /// machine is there with at most `PAGES` pages, and the bare machine is watched only where it has one hart.
    pub fn new<N: Nested>(
        alloc: Global,
        nested: &mut N,
        watches: &[Watch],
    ) -> Result<Play, AllocError>
        requires watches { CanWatch (N.state nested.old) (watches_of watches.now) }
        ensures stands { IfOk result (λ p. StandsFor p (N.state nested.old) [] (watches_of watches.now)) }
        ensures calls { IfOk result (λ p. p.calls ≡ 0) }
        ensures same { N.state nested.new ≡ N.state nested.old }
    {
        let watched = start_all(alloc, nested, watches)?;
        let counts = Counts::new(alloc)?;
        let running = Running::new(alloc, &watched)?;
        let rows = Vec::with_capacity(alloc, watches.len())?;
        Ok(Play {
            calls: 0,
            counts,
            watched,
            running,
            rows,
        })
    }

    /// Makes one step of a hart, and answers its outcome. Whatever start and moves the play stands for, it then stands for
    /// them with this step, and no watched machine can tell up to the moment after it. A fault is told to the machine whose map
    /// refused first.
    pub fn turn<N: Nested>(&mut self, nested: &mut N, hart: u32) -> Outcome
        requires hart { hart < length (N.state nested.old).harts }
        requires calls { self.old.calls < 2 ^ 62 }
        ensures moves { record { kind = result.kind; state = N.state nested.new } ≡ moved_of (N.state nested.old) hart }
        ensures changed { result.changed ≡ differences (N.state nested.old).storage (N.state nested.new).storage }
        ensures calls { self.new.calls ≡ self.old.calls + 1 }
        ensures harts { length (N.state nested.new).harts ≡ length (N.state nested.old).harts }
        ensures stands { Follows self.old (N.state nested.old) self.new (N.state nested.new) (StepOf hart ∷ []) }
        ensures guests { AreBareRunsWith self.old (N.state nested.old) (StepOf hart ∷ []) }
        ensures routed { IsRoutedIn (N.state nested.old) hart (fault_in result.kind) }
    {
        let mut outcome = Outcome::none();
        self.make_turn(nested, hart, &mut outcome);
        outcome
    }

    /// Changes a hart's three interrupt lines. Whatever start and moves the play stands for, it then stands for them with
    /// this change, and no watched machine can tell up to the moment after it.
    pub fn lines<N: Nested>(&mut self, nested: &mut N, hart: u32, mask: u32)
        requires hart { hart < length (N.state nested.old).harts }
        requires mask { bit_and mask lines_mask ≡ mask }
        requires calls { self.old.calls < 2 ^ 62 }
        ensures state { N.state nested.new ≡ lined_state (N.state nested.old) hart mask }
        ensures calls { self.new.calls ≡ self.old.calls + 1 }
        ensures harts { length (N.state nested.new).harts ≡ length (N.state nested.old).harts }
        ensures stands { Follows self.old (N.state nested.old) self.new (N.state nested.new) (LinesOf hart mask ∷ []) }
        ensures guests { AreBareRunsWith self.old (N.state nested.old) (LinesOf hart mask ∷ []) }
    {
        nested.lines(hart, mask);
        self.tell_lines(nested);
    }

    /// How often `turn` and `lines` were called.
    pub fn calls(&self) -> u64
        ensures { result ≡ self.now.calls }
    {
        self.calls
    }

    /// How many faults are kept: the last `KEPT`.
    pub fn kept_len(&self) -> u32
        ensures { result ≡ length (play_record self.now).kept }
    {
        self.counts.kept.len() as u32
    }

    /// Fault `i` of those that are kept, in order.
    pub fn kept(&self, i: u32) -> FaultRow
        requires { i < length (play_record self.now).kept }
        ensures { slice_get (play_record self.now).kept i ≡ Some result }
    {
        self.counts.kept.get(i as usize)
    }

    /// What is told of the play.
    pub fn finish(self) -> Record
        ensures { result ≡ play_record self }
    {
        let Play {
            calls: _,
            counts,
            watched,
            running: _,
            rows,
        } = self;
        Record {
            steps: counts.steps,
            faults: counts.faults,
            recalls: counts.recalls,
            kept: Items::new(counts.kept.into_vec()),
            watches: Items::new(watch_rows(watched, rows)),
        }
    }

    /// Makes the steps or the change of an event.
    pub(crate) fn event<N: Nested>(&mut self, nested: &mut N, event: Event)
        requires hart { hart_of event < length (N.state nested.old).harts }
        requires mask { bit_and (mask_of event) lines_mask ≡ mask_of event }
        requires calls { self.old.calls + steps_of event < 2 ^ 62 }
        ensures calls { self.new.calls ≤ self.old.calls + steps_of event + 1 }
        ensures harts { length (N.state nested.new).harts ≡ length (N.state nested.old).harts }
        ensures stands { Follows self.old (N.state nested.old) self.new (N.state nested.new) (moves_of event) }
    {
        match event {
            Event::Turn { hart, count } => self.turns(nested, hart, count),
            Event::Lines { hart, mask } => self.lines(nested, hart, mask),
        }
    }

    // Makes so many steps of a hart.
    fn turns<N: Nested>(&mut self, nested: &mut N, hart: u32, count: u32)
        requires hart { hart < length (N.state nested.old).harts }
        requires calls { self.old.calls + count ≤ 2 ^ 62 }
        ensures calls { self.new.calls ≡ self.old.calls + count }
        ensures harts { length (N.state nested.new).harts ≡ length (N.state nested.old).harts }
        ensures stands { Follows self.old (N.state nested.old) self.new (N.state nested.new) (replicate count (StepOf hart)) }
    {
        if self.watched.is_empty() {
            self.unwatched_turns(nested, hart, count);
        } else if self.is_bare_by(hart) {
            self.bare_turns(nested, hart, count);
        } else {
            self.told_turns(nested, hart, count);
        }
    }

    // Makes so many steps of a hart, where nothing is watched.
    fn unwatched_turns<N: Nested>(&mut self, nested: &mut N, hart: u32, count: u32)
        requires hart { hart < length (N.state nested.old).harts }
        requires calls { self.old.calls + count ≤ 2 ^ 62 }
        requires none { self.old.watching ≡ [] }
        ensures calls { self.new.calls ≡ self.old.calls + count }
        ensures harts { length (N.state nested.new).harts ≡ length (N.state nested.old).harts }
        ensures stands { Follows self.old (N.state nested.old) self.new (N.state nested.new) (replicate count (StepOf hart)) }
    {
        make_all(&mut self.counts, nested, hart, &self.running.path, count);
        self.calls += count as u64;
    }

    // Makes so many steps of a hart, where something is watched, and tells them.
    fn told_turns<N: Nested>(&mut self, nested: &mut N, hart: u32, count: u32)
        requires hart { hart < length (N.state nested.old).harts }
        requires calls { self.old.calls + count ≤ 2 ^ 62 }
        requires some { self.old.watching ≢ [] }
        ensures calls { self.new.calls ≡ self.old.calls + count }
        ensures harts { length (N.state nested.new).harts ≡ length (N.state nested.old).harts }
        ensures stands { Follows self.old (N.state nested.old) self.new (N.state nested.new) (replicate count (StepOf hart)) }
    {
        let mut outcome = Outcome::none();
        let mut left = count;
        while left > 0 {
            left -= self.some_turns(nested, hart, left, &mut outcome);
        }
    }

    // Makes some of so many steps of a hart, at least one, tells them, and answers how many. Those that work are told together
    // where there is one watch alone, which is of a machine on the path that the hart runs.
    fn some_turns<N: Nested>(
        &mut self,
        nested: &mut N,
        hart: u32,
        most: u32,
        outcome: &mut Outcome,
    ) -> u32
        requires hart { hart < length (N.state nested.old).harts }
        requires some { 1 ≤ most }
        requires calls { self.old.calls + most ≤ 2 ^ 62 }
        requires watched { self.old.watching ≢ [] }
        ensures some { 1 ≤ result }
        ensures most { result ≤ most }
        ensures watched { self.new.watching ≢ [] }
        ensures calls { self.new.calls ≡ self.old.calls + result }
        ensures harts { length (N.state nested.new).harts ≡ length (N.state nested.old).harts }
        ensures stands { Follows self.old (N.state nested.old) self.new (N.state nested.new) (replicate result (StepOf hart)) }
    {
        if !is_inside(&self.watched, &self.running, nested, hart) {
            self.one_turn(nested, hart, outcome);
            return 1;
        }
        let path = &self.running.path;
        let working = Together {
            all: false,
            working: true,
        };
        let made = make_steps(&mut self.counts, nested, hart, path, working, most, outcome);
        let count = made.count();
        self.calls += count as u64;
        self.watched[0].tell_made(nested, hart, path, made, outcome);
        count
    }

    // Whether there is one watch alone, which is of the bare machine, by this hart.
    fn is_bare_by(&self, hart: u32) -> bool
        ensures one { result ≡ true → length self.now.watching ≡ 1 }
        ensures bare { result ≡ true → AreBareBy hart self.now.watching }
    {
        self.watched.len() == 1 && self.watched[0].is_bare_by(hart)
    }

    // Makes so many steps of a hart, all of which count for the only watch. They are told to it together.
    fn bare_turns<N: Nested>(&mut self, nested: &mut N, hart: u32, count: u32)
        requires hart { hart < length (N.state nested.old).harts }
        requires calls { self.old.calls + count ≤ 2 ^ 62 }
        requires one { length self.old.watching ≡ 1 }
        requires bare { AreBareBy hart self.old.watching }
        ensures calls { self.new.calls ≡ self.old.calls + count }
        ensures harts { length (N.state nested.new).harts ≡ length (N.state nested.old).harts }
        ensures stands { Follows self.old (N.state nested.old) self.new (N.state nested.new) (replicate count (StepOf hart)) }
    {
        make_all(&mut self.counts, nested, hart, &self.running.path, count);
        self.calls += count as u64;
        self.watched[0].tell_counted(nested, count);
    }

    // Makes one step of a hart, and tells it by itself, where something is watched.
    fn one_turn<N: Nested>(&mut self, nested: &mut N, hart: u32, outcome: &mut Outcome)
        requires hart { hart < length (N.state nested.old).harts }
        requires calls { self.old.calls < 2 ^ 62 }
        requires watched { self.old.watching ≢ [] }
        ensures calls { self.new.calls ≡ self.old.calls + 1 }
        ensures watched { self.new.watching ≢ [] }
        ensures harts { length (N.state nested.new).harts ≡ length (N.state nested.old).harts }
        ensures stands { Follows self.old (N.state nested.old) self.new (N.state nested.new) (StepOf hart ∷ []) }
    {
        self.running.find(nested, hart, &self.watched);
        let path = &self.running.path;
        let none = Together {
            all: false,
            working: false,
        };
        let _made = make_steps(&mut self.counts, nested, hart, path, none, 1, outcome);
        self.calls += 1;
        step_all(&mut self.watched, nested, hart, &self.running, outcome);
    }

    // Makes one step of a hart, as `turn` does. The step's outcome is told in `outcome`, which may hold any before.
    #[inline(always)]
    fn make_turn<N: Nested>(&mut self, nested: &mut N, hart: u32, outcome: &mut Outcome)
        requires hart { hart < length (N.state nested.old).harts }
        requires calls { self.old.calls < 2 ^ 62 }
        ensures moves { record { kind = outcome.new.kind; state = N.state nested.new } ≡ moved_of (N.state nested.old) hart }
        ensures changed { outcome.new.changed ≡ differences (N.state nested.old).storage (N.state nested.new).storage }
        ensures calls { self.new.calls ≡ self.old.calls + 1 }
        ensures harts { length (N.state nested.new).harts ≡ length (N.state nested.old).harts }
        ensures stands { Follows self.old (N.state nested.old) self.new (N.state nested.new) (StepOf hart ∷ []) }
        ensures guests { AreBareRunsWith self.old (N.state nested.old) (StepOf hart ∷ []) }
        ensures routed { IsRoutedIn (N.state nested.old) hart (fault_in outcome.new.kind) }
    {
        self.running.find(nested, hart, &self.watched);
        nested.step_into(hart, outcome);
        self.calls += 1;
        self.counts.tell(hart, &outcome.kind);
        step_all(&mut self.watched, nested, hart, &self.running, outcome);
    }

    // Tells a change of a hart's lines.
    fn tell_lines<N: Nested>(&mut self, nested: &N)
        requires calls { self.old.calls < 2 ^ 62 }
        ensures { self.new ≡ played_after Lined (N.state nested.now) self.old }
    {
        self.calls += 1;
        line_all(&mut self.watched, nested);
    }
}

// Whether there is one watch alone, of a machine on the path of `running`, and the hart runs the machine on that path.
fn is_inside<N: Nested>(watched: &[Watched], running: &Running, nested: &N, hart: u32) -> bool
    requires hart { hart < length (N.state nested.now).harts }
    requires inside { running.now.inside.items ≡ inside_of running.now.path watched.now }
    ensures one { result ≡ true → length watched.now ≡ 1 }
    ensures inside { result ≡ true → AreInsideBy hart running.now.path watched.now }
    ensures path { result ≡ true → running.now.path ≡ running_of (N.state nested.now) hart }
{
    if watched.len() != 1 {
        return false;
    }
    let one = &watched[0];
    one.hart == hart && running.inside[0] && nested.runs(hart, &running.path)
}

// Tells each watch a step of a hart, which ran the machine on the path of `running` before it.
#[inline(always)]
fn step_all<N: Nested>(
    watched: &mut [Watched],
    nested: &N,
    hart: u32,
    running: &Running,
    outcome: &Outcome,
)
    requires room { TellsWithin (2 ^ 62 - 1) watched.old }
    requires inside { running.now.inside.items ≡ inside_of running.now.path watched.old }
    ensures { watched.new
        ≡ all_after (Stepped hart running.now.path outcome.now.kind outcome.now.changed) (N.state nested.now) watched.old }
{
    for (i, one) in watched.iter_mut().enumerate() {
        one.tell_step(nested, hart, &running.path, running.inside[i], outcome);
    }
}

// Tells each watch a change of a hart's lines.
fn line_all<N: Nested>(watched: &mut [Watched], nested: &N)
    requires room { TellsWithin (2 ^ 62 - 1) watched.old }
    ensures { watched.new ≡ all_after Lined (N.state nested.now) watched.old }
{
    for one in watched.iter_mut() {
        one.tell_lines(nested);
    }
}

// The watches at the start.
fn start_all<N: Nested>(
    alloc: Global,
    nested: &N,
    watches: &[Watch],
) -> Result<Vec<Watched>, AllocError>
    requires { CanWatch (N.state nested.now) (watches_of watches.now) }
    ensures { IfOk result (λ ws. EachNew (N.state nested.now) (watches_of watches.now) ws.items) }
{
    let mut watched = Vec::new(alloc);
    for watch in watches {
        let one = start(alloc, nested, watch)?;
        watched.push(one)?;
    }
    Ok(watched)
}

// What is told of the watches, in a `Vec` that has room for it.
fn watch_rows(watched: Vec<Watched>, rows: Vec<WatchRow>) -> Vec<WatchRow>
    requires none { rows.items ≡ [] }
    requires room { length watched.items ≤ vec_capacity rows }
    ensures { result.items ≡ all_so_far watched.items }
{
    let mut rows = rows;
    for one in watched {
        let _ = rows.push(one.into_row());
    }
    rows
}
