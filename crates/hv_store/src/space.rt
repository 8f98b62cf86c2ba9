//! The storage of a machine, as that machine sees it.

ghost use Rattle.std.specs.Prelude.{◌≡◌, ◌<◌, OnErr, IfErr, length, Some};
ghost use Rattle.hv_word.specs.Words.{IsLane};

use crate::access::{Access, Refusal};
use hv_word::Lane;

/// A storage seen through a machine's map. Its meaning is the list of the bare words and the map, a list of slots.
/// A call that is refused changes nothing, and its refusal is the one that the map states.
pub trait Space {
    ghost use Rattle.std.specs.Prelude.{ℕ, List};
    ghost use Rattle.hv_store.specs.declared.access.Slot.{Slot};
    ghost use Rattle.hv_store.specs.Frame.{Framed};

    /// The bare words.
    ghost storage: { Self → List ℕ };

    /// The map.
    ghost slots: { Self → List Slot };

    /// How many maps lie between this machine and the bare storage: each refusal's level is below it.
    ghost depth: { Self → ℕ };

    /// Which references this space writes through, by their names.
    ghost place: { Self → List ℕ };

    /// What the map is made of besides the storage: pages, table and version of each machine on the way.
    ghost frame: { Self → List Framed };

    /// The storage as it was when changes began to be noted, where they are.
    ghost origin: { Self → List ℕ };

    /// How many calls that write it still takes: after a call that writes nothing is known of it, so code that is given
    /// room for one makes at most one such call, as its last.
    ghost room: { Self → ℕ };

    ghost use Rattle.hv_store.specs.Access.{get, set, cleared, with_storage};
    ghost use Rattle.hv_store.specs.Stays.{Reads, Stays, Untouched};

    /// The number of the machine's pages.
    fn pages(&self) -> u32
        ensures { result ≡ length (slots self.now) };

    /// Reads word `word` (0 to 1023) of the machine's page `page`, for an access.
    fn read(&mut self, page: u32, word: u32, access: Access) -> Result<u32, Refusal>
        requires page { page < length (slots self.old) }
        requires word { word < 1024 }
        requires room { 0 < room self.old }
        ensures gives { Some result ≡ get (storage self.old) (slots self.old) page word access }
        ensures level { IfErr result (λ e. e.level < depth self.old) }
        ensures reads { Reads storage slots depth place frame origin room self.old self.new };

    /// Writes a lane of word `word` (0 to 1023) of the machine's page `page`.
    fn write(&mut self, page: u32, word: u32, lane: Lane, value: u32) -> Result<(), Refusal>
        requires page { page < length (slots self.old) }
        requires word { word < 1024 }
        requires lane { IsLane lane }
        requires room { 0 < room self.old }
        ensures gives { Some (with_storage result (storage self.new)) ≡ set (storage self.old) (slots self.old) page word lane value }
        ensures level { IfErr result (λ e. e.level < depth self.old) }
        ensures err { OnErr result (Untouched storage slots self.old self.new) }
        ensures stays { Stays storage depth place frame origin self.old self.new };

    /// Sets words 72 to 74 of the machine's page `page` to zero, in the bare page that is found for word 72.
    fn clear_fault(&mut self, page: u32) -> Result<(), Refusal>
        requires page { page < length (slots self.old) }
        requires room { 0 < room self.old }
        ensures gives { Some (with_storage result (storage self.new)) ≡ cleared (storage self.old) (slots self.old) page }
        ensures level { IfErr result (λ e. e.level < depth self.old) }
        ensures err { OnErr result (Untouched storage slots self.old self.new) }
        ensures stays { Stays storage depth place frame origin self.old self.new };
}
