//! The step of a machine that runs alone and runs no machine of its own.

ghost use Rattle.std.specs.Prelude.{◌≡◌, ◌≢◌, ◌+◌, ◌<◌, ◌≤◌, length, slice_set};
ghost use Rattle.hv_word.specs.Storage.{page_count};
ghost use Rattle.hv_store.specs.Access.{identity};
ghost use Rattle.hv_exec.specs.Act.{Done, act_of};
ghost use Rattle.hv_trace.specs.Flat.{FlatLaw, flat_step_of};
ghost use Rattle.hv_trace.specs.Undo.{reach, undone};
ghost use Rattle.hv_trace.specs.declared.flat.Written.TheVariants.{Nothing};

use hv_cpu::Cpu;
use hv_csr::{pending, take_trap};
use hv_exec::act;
use hv_store::{Access, Refusal, Space, Store};
use hv_word::{Lane, lane_put};

/// Where a hart of the bare machine runs no machine, its step is the interrupt that is pending, or an instruction of its own.
pub fn flat_step_is_the_host_step()
    ensures { FlatLaw }
{}

/// What a step wrote of the storage, with what was there before.
#[derive(Clone, Copy, Debug)]
pub(crate) enum Written {
    /// Nothing.
    Nothing,
    /// The word at a place.
    Word {
        at: u32,
        before: u32,
    },
    /// Three words from a place on, by which a block tells a fault.
    Fault {
        at: u32,
        cause: u32,
        address: u32,
        access: u32,
    },
}

// The store as the bare machine sees it, where what is written is told.
#[derive(Drop)]
struct Alone<'a> {
    store: &'a mut Store,
    written: &'a mut Written,
    ghost inside: { reach written.now ≤ length store.now },
}

#[tactic(auto, using(hv_store::proofs::Identity::identities, crate::proofs::Undoing::undoing))]
impl Space for Alone<'_> {
    ghost use Rattle.std.specs.Prelude.{[], ◌∷◌};
    ghost use Rattle.hv_word.specs.Storage.{page_count};
    ghost use Rattle.hv_store.specs.Access.{identity};
    ghost use Rattle.hv_trace.specs.Undo.{undone, room_of};

    ghost storage = { λ v. v.store.now };

    ghost slots = { λ v. identity (page_count v.store.now) };

    ghost depth = { λ _. 0 };

    ghost place = { λ v. v.store.ghost_name ∷ v.written.ghost_name ∷ [] };

    ghost frame = { λ _. [] };

    ghost origin = { λ v. undone v.store.now v.written.now };

    ghost room = { λ v. room_of v.written.now };

    fn pages(&self) -> u32 {
        self.store.pages()
    }

    fn read(&mut self, page: u32, word: u32, _access: Access) -> Result<u32, Refusal> {
        let _pages = self.store.pages();
        Ok(self.store.get(1024 * page + word))
    }

    fn write(&mut self, page: u32, word: u32, lane: Lane, value: u32) -> Result<(), Refusal> {
        let _pages = self.store.pages();
        let at = 1024 * page + word;
        let before = self.store.get(at);
        self.store.put(at, lane_put(before, lane, value));
        *self.written = Written::Word { at, before };
        Ok(())
    }

    fn clear_fault(&mut self, page: u32) -> Result<(), Refusal> {
        let _pages = self.store.pages();
        let at = 1024 * page + 72;
        let cause = replace(self.store, at, 0);
        let address = replace(self.store, at + 1, 0);
        let access = replace(self.store, at + 2, 0);
        *self.written = Written::Fault {
            at,
            cause,
            address,
            access,
        };
        Ok(())
    }
}

// Replaces a word, and gives what it was.
#[tactic(auto, using(crate::proofs::Undoing::undoing))]
fn replace(store: &mut Store, at: u32, value: u32) -> u32
    requires { at < length store.old }
    ensures put { store.new ≡ slice_set store.old at value }
    ensures back { slice_set store.new at result ≡ store.old }
{
    let before = store.get(at);
    store.put(at, value);
    before
}

/// The step of a machine that is alone in its storage and runs no other: the interrupt that is pending, or one instruction.
/// What it wrote is told, with what was there before.
#[tactic(auto, using(crate::proofs::Flats::flats))]
pub(crate) fn flat_step(store: &mut Store, cpu: &mut Cpu) -> Written
    requires { cpu.old.next ≡ 0 }
    ensures steps { Done store.new cpu.new ≡ flat_step_of store.old cpu.old }
    ensures before { undone store.new result ≡ store.old }
    ensures inside { reach result ≤ length store.new }
    ensures next { cpu.new.next ≢ 0 → cpu.new.next < page_count store.old }
    ensures len { length store.new ≡ length store.old }
{
    if let Some(cause) = pending(cpu) {
        take_trap(cpu, cause, true, 0);
        return Written::Nothing;
    }
    let mut written = Written::Nothing;
    act_alone(store, &mut written, cpu);
    written
}

// One instruction.
#[tactic(auto, using(hv_store::proofs::Identity::identities))]
fn act_alone(store: &mut Store, written: &mut Written, cpu: &mut Cpu)
    requires fresh { written.old ≡ Nothing }
    requires next { cpu.old.next ≡ 0 }
    ensures acts { Done store.new cpu.new ≡ act_of store.old (identity (page_count store.old)) 0 cpu.old }
    ensures before { undone store.new written.new ≡ store.old }
    ensures inside { reach written.new ≤ length store.new }
    ensures next { cpu.new.next ≢ 0 → cpu.new.next < page_count store.old }
    ensures len { length store.new ≡ length store.old }
{
    let mut alone = Alone { store, written };
    match act(cpu, 0, &mut alone) {
        Ok(()) => {}
        Err(_) => unreachable!(),
    }
}
