//! Making steps that are told later.

ghost use Rattle.std.specs.Prelude.{◌≡◌, ◌≢◌, ℕ, ◌+◌, ◌-◌, ◌<◌, ◌≤◌, ◌^◌, true, false, length, replicate};
ghost use Rattle.hv_nest.specs.declared.outcome.StepKind.TheVariants.{Worked as WorkedKind};
ghost use Rattle.hv_nest.specs.Move.{StepOf, running_of};
ghost use Rattle.hv_run.specs.Play.{AreBareBy, CountTogether, CountsWithin, Played, Stepped, counted_played, made_count, made_played};
ghost use Rattle.hv_run.specs.Stands.{Follows};

use crate::counts::Counts;
use hv_map::Path;
use hv_nest::{Nested, Outcome, StepKind};

/// How many steps of a hart worked, and whether one more was made, which was refused, or after which a machine got control back.
#[derive(Clone, Copy, Debug)]
pub(crate) struct Made {
    pub(crate) worked: u32,
    pub(crate) refused: bool,
}

impl Made {
    /// How many steps were made.
    pub(crate) fn count(&self) -> u32
        requires { made_count self.now.worked self.now.refused < 2 ^ 32 }
        ensures { result ≡ made_count self.now.worked self.now.refused }
    {
        if self.refused {
            self.worked + 1
        } else {
            self.worked
        }
    }
}

/// Which steps are told to the watches together: all, since each counts; those that work; or none.
#[derive(Clone, Copy, Debug)]
pub(crate) struct Together {
    pub(crate) all: bool,
    pub(crate) working: bool,
}

/// Makes steps of a hart, so many at most, and counts them by their kinds: until one isn't told together with the others, or the
/// hart runs another machine than that on the path. The steps of a play are all made here, so that their code stands once.
#[inline(never)]
pub(crate) fn make_steps<N: Nested>(
    counts: &mut Counts,
    nested: &mut N,
    hart: u32,
    path: &Path,
    together: Together,
    most: u32,
    outcome: &mut Outcome,
) -> Made
    requires hart { hart < length (N.state nested.old).harts }
    requires path { together.all ≡ false → path.now ≡ running_of (N.state nested.old) hart }
    requires room { CountsWithin (2 ^ 62 - most) counts.old }
    ensures some { 1 ≤ most → 1 ≤ made_count result.worked result.refused }
    ensures most { made_count result.worked result.refused ≤ most }
    ensures all { together.all ≡ true → (result.worked ≡ most) × (result.refused ≡ false) }
    ensures one { together.all ≡ false → together.working ≡ false → 1 ≤ most → (result.worked ≡ 0) × (result.refused ≡ true) }
    ensures harts { length (N.state nested.new).harts ≡ length (N.state nested.old).harts }
    ensures within { (n : ℕ) → CountsWithin n counts.old → CountsWithin (n + made_count result.worked result.refused) counts.new }
    ensures stands { (p : Played) → p.counts ≡ counts.old → CountTogether together hart path.now p.watching
        → Follows p (N.state nested.old)
        (made_played (Stepped hart path.now outcome.new.kind outcome.new.changed) result.worked result.refused counts.new (N.state nested.new) p)
        (N.state nested.new) (replicate (made_count result.worked result.refused) (StepOf hart)) }
{
    for i in 0..most {
        nested.step_into(hart, outcome);
        counts.tell(hart, &outcome.kind);
        if is_apart(together, &outcome.kind) {
            return Made {
                worked: i,
                refused: true,
            };
        }
        if has_left(nested, hart, path, together) {
            return Made {
                worked: i + 1,
                refused: false,
            };
        }
    }
    Made {
        worked: most,
        refused: false,
    }
}

/// Makes so many steps of a hart, all of which count for the watches, and counts them by their kinds.
pub(crate) fn make_all<N: Nested>(
    counts: &mut Counts,
    nested: &mut N,
    hart: u32,
    path: &Path,
    most: u32,
)
    requires hart { hart < length (N.state nested.old).harts }
    requires room { CountsWithin (2 ^ 62 - most) counts.old }
    ensures harts { length (N.state nested.new).harts ≡ length (N.state nested.old).harts }
    ensures within { (n : ℕ) → CountsWithin n counts.old → CountsWithin (n + most) counts.new }
    ensures stands { (p : Played) → p.counts ≡ counts.old → AreBareBy hart p.watching
        → Follows p (N.state nested.old) (counted_played most counts.new (N.state nested.new) p) (N.state nested.new) (replicate most (StepOf hart)) }
{
    let mut outcome = Outcome::none();
    let together = Together {
        all: true,
        working: false,
    };
    let _made = make_steps(counts, nested, hart, path, together, most, &mut outcome);
}

// Whether a step of this kind isn't told together with others.
#[inline(always)]
fn is_apart(together: Together, kind: &StepKind) -> bool
    ensures yes { result ≡ true → (together.all ≡ false) × (together.working ≡ true → kind.now ≢ WorkedKind) }
    ensures all { result ≡ false → together.all ≡ false → together.working ≡ true }
    ensures works { result ≡ false → together.all ≡ false → kind.now ≡ WorkedKind }
{
    !together.all && (!together.working || !has_worked(kind))
}

// Whether the hart runs another machine than that on the path, if that matters.
#[inline(always)]
fn has_left<N: Nested>(nested: &N, hart: u32, path: &Path, together: Together) -> bool
    requires { hart < length (N.state nested.now).harts }
    ensures yes { result ≡ true → together.all ≡ false }
    ensures no { result ≡ false → together.all ≡ false → path.now ≡ running_of (N.state nested.now) hart }
{
    !together.all && !nested.runs(hart, path)
}

// Whether a step worked.
#[inline(always)]
fn has_worked(kind: &StepKind) -> bool
    ensures yes { result ≡ true → kind.now ≡ WorkedKind }
    ensures no { result ≡ false → kind.now ≢ WorkedKind }
{
    match *kind {
        StepKind::Worked => true,
        StepKind::Recall { receiver: _ } | StepKind::Fault { .. } => false,
    }
}
