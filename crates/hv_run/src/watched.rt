//! One watch of a play.

ghost use Rattle.std.specs.Prelude.{◌≡◌, ◌<◌, ◌≤◌, ◌+◌, true, ◌*◌, ◌^◌, ◌||◌, ◌++◌, ◌∷◌, [], IfOk, length, take, vec_capacity};
ghost use Rattle.hv_word.specs.Storage.{word_at};
ghost use Rattle.hv_map.specs.Apart.{is_one, is_apart};
ghost use Rattle.hv_map.specs.Chain.{map_along};
ghost use Rattle.hv_nest.specs.Watched.{begins, foot, is_outside, last_block};
ghost use Rattle.hv_run.specs.Play.{IsBareBy, Stepped, Lined, any_marked, counted_after, counts_step, made_after, made_count, status_at, status_differs, watched_after, watching_beside};
ghost use Rattle.hv_limits.specs.Limits.{kept_limit};

use crate::making::Made;
use crate::record::WatchRow;
use hv_apart::Footing;
use hv_limits::{KEPT, LINES};
use hv_list::Items;
use hv_map::{Chain, Path};
use hv_nest::{Changed, LineRow, Nested, Outcome, StepKind};
use hv_store::Store;
use std::alloc::{AllocError, Global};
use std::marker::Model;

/// A watch while it is played: what is told of it so far, the foot of its machine as the start had it, and the present word
/// with the machine's interrupt lines: word 42 of the bare page in which its control block stood at the start, or mip of its
/// hart for the bare machine.
#[derive(Drop)]
pub(crate) struct Watched {
    pub(crate) hart: u32,
    pub(crate) path: Path,
    pub(crate) block: Option<u32>,
    pub(crate) one: bool,
    pub(crate) apart: bool,
    pub(crate) touched: bool,
    pub(crate) count: u64,
    pub(crate) line_total: u64,
    pub(crate) lines: Vec<LineRow>,
    pub(crate) foot: Footing,
    pub(crate) status: u32,
}

impl Model for Watched {
    ghost use Rattle.std.specs.Prelude.{◌≤◌, length, vec_capacity};
    ghost use Rattle.hv_limits.specs.Limits.{kept_limit};
    ghost use Rattle.hv_run.specs.Play.{Watching};

    ghost Value = { Watching };

    ghost view = { λ w. record {
      so_far = record {
        hart = w.hart;
        path = w.path;
        block = w.block;
        one = w.one;
        apart = w.apart;
        touched = w.touched;
        count = w.count;
        line_total = w.line_total;
        lines = w.lines.items;
      };
      foot = w.foot;
      status = w.status;
    } };

    ghost invariant = { λ w. (length w.lines.items ≤ kept_limit) × (kept_limit ≤ vec_capacity w.lines) };
}

impl Watched {
    /// What is told of the watch.
    pub(crate) fn into_row(self) -> WatchRow
        ensures { result ≡ self.so_far }
    {
        WatchRow {
            hart: self.hart,
            path: self.path,
            block: self.block,
            one: self.one,
            apart: self.apart,
            touched: self.touched,
            count: self.count,
            line_total: self.line_total,
            lines: Items::new(self.lines),
        }
    }

    // The word with the machine's interrupt lines, as the engine has it now.
    #[inline(always)]
    fn status_now<N: Nested>(&self, nested: &N) -> u32
        ensures { result ≡ status_at self.now.so_far.hart self.now.so_far.block (N.state nested.now) }
    {
        status_of(nested, self.hart, self.block)
    }

    // Whether a step of a hart counts for the watch. The hart ran the machine on the path `running` before it; `inside` says
    // whether the watch's path begins that.
    #[inline(always)]
    fn counts(&self, hart: u32, running: &Path, inside: bool, kind: &StepKind) -> bool
        requires { inside ≡ begins self.now.so_far.path running.now }
        ensures { result ≡ counts_step self.now.so_far hart running.now kind.now }
    {
        hart == self.hart && inside && !is_outside(self.path.len(), kind)
    }

    /// Tells a step of a hart, which ran the machine on the path `running` before it; `inside` says whether the watch's path
    /// begins that.
    #[inline(always)]
    pub(crate) fn tell_step<N: Nested>(
        &mut self,
        nested: &N,
        hart: u32,
        running: &Path,
        inside: bool,
        outcome: &Outcome,
    )
        requires count { self.old.so_far.count < 2 ^ 62 }
        requires total { self.old.so_far.line_total < 2 ^ 62 }
        requires inside { inside ≡ begins self.old.so_far.path running.now }
        ensures { self.new
            ≡ watched_after (Stepped hart running.now outcome.now.kind outcome.now.changed) (N.state nested.now) self.old }
    {
        let status = self.status_now(nested);
        if self.counts(hart, running, inside, &outcome.kind) {
            self.count += 1;
            self.status = status;
            return;
        }
        self.tell_beside(&outcome.changed, status);
    }

    /// Whether the watch is of the bare machine, by this hart, so that each step of the hart counts.
    #[inline(always)]
    pub(crate) fn is_bare_by(&self, hart: u32) -> bool
        ensures { result ≡ true → IsBareBy hart self.now }
    {
        self.hart == hart && self.path.len() == 0
    }

    /// Tells so many steps that counted, the last of which left the engine as it is.
    pub(crate) fn tell_counted<N: Nested>(&mut self, nested: &N, made: u32)
        requires { self.old.so_far.count + made < 2 ^ 63 }
        ensures { self.new ≡ counted_after made (N.state nested.now) self.old }
    {
        if made != 0 {
            self.status = self.status_now(nested);
        }
        self.count += made as u64;
    }

    /// Tells steps that were made of a hart, which ran the machine on the path `running`; `outcome` is that of the last.
    #[inline(never)]
    pub(crate) fn tell_made<N: Nested>(
        &mut self,
        nested: &N,
        hart: u32,
        running: &Path,
        made: Made,
        outcome: &Outcome,
    )
        requires count { self.old.so_far.count + made_count made.worked made.refused ≤ 2 ^ 62 }
        requires total { self.old.so_far.line_total < 2 ^ 62 }
        requires inside { begins self.old.so_far.path running.now ≡ true }
        ensures { self.new ≡ made_after (Stepped hart running.now outcome.now.kind outcome.now.changed) made.worked made.refused
            (N.state nested.now) self.old }
    {
        self.tell_counted(nested, made.worked);
        if made.refused {
            self.tell_step(nested, hart, running, true, outcome);
        }
    }

    /// Tells a change of a hart's lines.
    pub(crate) fn tell_lines<N: Nested>(&mut self, nested: &N)
        requires count { self.old.so_far.count < 2 ^ 62 }
        requires total { self.old.so_far.line_total < 2 ^ 62 }
        ensures { self.new ≡ watched_after Lined (N.state nested.now) self.old }
    {
        let status = self.status_now(nested);
        self.tell_beside(&Changed::none(), status);
    }

    // Tells a move that doesn't count, by the words that it changed, and the word with the lines after it. It is no part of
    // `tell_step`, since most steps count.
    #[inline(never)]
    fn tell_beside(&mut self, changed: &Changed, status: u32)
        requires { self.old.so_far.line_total < 2 ^ 62 }
        ensures { self.new ≡ watching_beside
            (any_marked self.old.foot changed.now || status_differs self.old.so_far.block self.old.status status) status self.old }
    {
        let touches = any_changed(&self.foot, changed)
            || status_differs(self.block, self.status, status);
        self.note_beside(touches, status);
    }

    // Tells a move that doesn't count: whether it touches the machine, and the word with the lines after it.
    fn note_beside(&mut self, touches: bool, status: u32)
        requires { self.old.so_far.line_total < 2 ^ 62 }
        ensures { self.new ≡ watching_beside touches status self.old }
    {
        let bits = status & LINES;
        self.touched = either(self.touched, touches);
        if self.status & LINES == bits {
            self.status = status;
            return;
        }
        self.line_total += 1;
        keep_change(
            &mut self.lines,
            LineRow {
                count: self.count,
                bits,
            },
        );
        self.status = status;
    }
}

// Keeps a change of the lines, while as many aren't kept yet.
fn keep_change(lines: &mut Vec<LineRow>, row: LineRow)
    requires bound { length lines.old.items ≤ kept_limit }
    requires room { kept_limit ≤ vec_capacity lines.old }
    ensures items { lines.new.items ≡ take kept_limit (lines.old.items ++ row ∷ []) }
    ensures bound { length lines.new.items ≤ kept_limit }
    ensures room { vec_capacity lines.old ≤ vec_capacity lines.new }
{
    if lines.len() < KEPT {
        let _ = lines.push(row);
    }
}

// Whether one of the two holds.
fn either(a: bool, b: bool) -> bool
    ensures { result ≡ (a || b) }
{
    a || b
}

// The word with the interrupt lines of a machine whose block is in that bare page, or of the hart.
#[inline(always)]
pub(crate) fn status_of<N: Nested>(nested: &N, hart: u32, block: Option<u32>) -> u32
    ensures { result ≡ status_at hart block (N.state nested.now) }
{
    match block {
        Some(page) => word_at(nested.parked(), page),
        None => {
            if hart < nested.harts() {
                nested.mip(hart)
            } else {
                0
            }
        }
    }
}

// Word 42 of a bare page, 0 where there is no such page.
#[inline(always)]
fn word_at(store: &Store, page: u32) -> u32
    ensures { result ≡ word_at store.now page 42 }
{
    let pages = store.pages();
    if page < pages {
        store.get(1024 * page + 42)
    } else {
        0
    }
}

// Whether the word with the lines changed in another bit than the lines; of the bare machine it doesn't matter.
fn status_differs(block: Option<u32>, old: u32, new: u32) -> bool
    ensures { result ≡ status_differs block old new }
{
    block.is_some() && old - (old & LINES) != new - (new & LINES)
}

// Whether one of the words that changed is in the foot.
#[inline(always)]
fn any_changed(foot: &Footing, changed: &Changed) -> bool
    ensures { result ≡ any_marked foot.now changed.now }
{
    for row in changed.as_slice() {
        if foot.holds(row.at) {
            return true;
        }
    }
    false
}

// Whether a recall or a fault was received at a level below `level`.
#[inline(always)]
fn is_outside(level: u32, kind: &StepKind) -> bool
    ensures { result ≡ is_outside level kind.now }
{
    match *kind {
        StepKind::Worked => false,
        StepKind::Recall { receiver } | StepKind::Fault { receiver, .. } => receiver < level,
    }
}
