//! Engines that make the steps of the bare machine and of the machines inside it.

ghost use Rattle.std.specs.Prelude.{◌≡◌, ◌≢◌, ◌<◌, ◌≤◌, Some, IfSome, true, false, length, slice_get, bit_and};
ghost use Rattle.hv_limits.specs.Limits.{lines_mask};

use crate::outcome::Outcome;
use hv_cpu::Cpu;
use hv_map::Path;
use hv_store::Store;

/// The bare machine, with its storage and its harts, and the machines inside it. What an engine keeps besides that state
/// can't be told from its answers.
pub trait Nested {
    ghost use Rattle.hv_word.specs.Storage.{page_count};
    ghost use Rattle.hv_nest.specs.Kinds.{NextBelow};
    ghost use Rattle.hv_nest.specs.State.{State, IsNextInside};
    ghost use Rattle.hv_limits.specs.Limits.{harts_limit};

    /// The storage and the harts.
    ghost state: { Self → State };

    ghost use Rattle.hv_nest.specs.Changes.{differences};
    ghost use Rattle.hv_nest.specs.Frame.{IsFramedBy};
    ghost use Rattle.hv_nest.specs.Move.{moved_of, lined_state, running_of};

    /// One step of a hart, told in `outcome` in place of what that told. The machine that the hart ran before, if any, was on one
    /// of the pages of the storage.
    fn step_into(&mut self, hart: u32, outcome: &mut Outcome)
        requires { hart < length (state self.old).harts }
        ensures moves { record { kind = outcome.new.kind; state = state self.new } ≡ moved_of (state self.old) hart }
        ensures changed { outcome.new.changed ≡ differences (state self.old).storage (state self.new).storage }
        ensures frame { IsFramedBy (state self.old).storage (running_of (state self.old) hart) (state self.new).storage }
        ensures next { IsNextInside (state self.old) hart }
        ensures harts { length (state self.new).harts ≡ length (state self.old).harts }
        ensures len { length (state self.new).storage ≡ length (state self.old).storage };

    /// The same with an outcome of its own.
    fn step(&mut self, hart: u32) -> Outcome
        requires { hart < length (state self.old).harts }
        ensures moves { record { kind = result.kind; state = state self.new } ≡ moved_of (state self.old) hart }
        ensures changed { result.changed ≡ differences (state self.old).storage (state self.new).storage }
        ensures frame { IsFramedBy (state self.old).storage (running_of (state self.old) hart) (state self.new).storage }
        ensures next { IsNextInside (state self.old) hart }
        ensures harts { length (state self.new).harts ≡ length (state self.old).harts }
        ensures len { length (state self.new).storage ≡ length (state self.old).storage }
    {
        let mut outcome = Outcome::none();
        self.step_into(hart, &mut outcome);
        outcome
    }

    /// Sets the lines from outside of a hart to those of `mask`, which has no other bits.
    fn lines(&mut self, hart: u32, mask: u32)
        requires hart { hart < length (state self.old).harts }
        requires mask { bit_and mask lines_mask ≡ mask }
        ensures { state self.new ≡ lined_state (state self.old) hart mask };

    /// The path of the machine that a hart runs.
    fn running(&mut self, hart: u32) -> Path
        requires { hart < length (state self.old).harts }
        ensures path { result ≡ running_of (state self.old) hart }
        ensures same { state self.new ≡ state self.old };

    /// Whether a hart runs the machine on this path, or, on the empty path, none.
    fn runs(&self, hart: u32, path: &Path) -> bool
        requires { hart < length (state self.now).harts }
        ensures yes { result ≡ true → path.now ≡ running_of (state self.now) hart }
        ensures no { result ≡ false → path.now ≢ running_of (state self.now) hart };

    /// The registers of a hart. What it is to run next, if anything, is on a page of the storage.
    fn cpu(&self, hart: u32) -> Cpu
        requires { hart < length (state self.now).harts }
        ensures cpu { slice_get (state self.now).harts hart ≡ Some result }
        ensures next { NextBelow (page_count (state self.now).storage) result };

    /// The interrupts that are pending in a hart, with its lines.
    fn mip(&self, hart: u32) -> u32
        requires { hart < length (state self.now).harts }
        ensures { IfSome (slice_get (state self.now).harts hart) (λ r. result ≡ r.mip) };

    /// The number of harts.
    fn harts(&self) -> u32
        ensures count { result ≡ length (state self.now).harts }
        ensures some { 1 ≤ result }
        ensures bound { result ≤ harts_limit };

    /// The storage.
    fn parked(&self) -> &Store
        ensures { result.now ≡ (state self.now).storage };
}
