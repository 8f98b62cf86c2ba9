//! Translations at hand: in which bare pages the pages of a machine lie, for each access.

ghost use Rattle.std.specs.Prelude.{◌≡◌, ℕ, ◌<◌, ◌^◌, All, IfSome, List, length};
ghost use Rattle.hv_store.specs.declared.access.Slot.{Slot};
ghost use Rattle.hv_store.specs.declared.access.Way.TheVariants.{Open};
ghost use Rattle.hv_store.specs.Access.{way_for};
ghost use Rattle.hv_map.specs.Held.{IsHeld};
ghost use Rattle.hv_map.specs.Item.{Item};
ghost use Rattle.hv_fast.specs.Marked.{listed};
ghost use Rattle.hv_fast.specs.Memo.{nothing, ways};

use hv_store::Access;
use std::marker::Model;

/// How many entries there are for each access.
const WAYS: usize = 128;

/// The page of an entry that holds nothing.
const NOTHING: u32 = u32::MAX;

/// A page of a machine, and the bare page in which it lies.
#[derive(Clone, Copy)]
pub(crate) struct Entry {
    page: u32,
    host: u32,
}

/// For each access the entries of pages, each at the page's number modulo WAYS.
#[derive(Drop)]
pub(crate) struct Memo {
    fetches: [Entry; WAYS],
    reads: [Entry; WAYS],
    writes: [Entry; WAYS],
}

impl Model for Memo {
    ghost use Rattle.std.specs.Prelude.{◌≡◌, length};
    ghost use Rattle.hv_fast.specs.Memo.{Entries, ways};

    ghost Value = { Entries };

    ghost view = { λ m. record { fetches = m.fetches; reads = m.reads; writes = m.writes } };

    ghost invariant = { λ m. (length m.fetches ≡ ways) × (length m.reads ≡ ways) × (length m.writes ≡ ways) };
}

impl Memo {
    ghost use Rattle.hv_fast.specs.Memo.{IsEmpty, IsOpenAt, IsRightMemo, Opens, entries_for, host_of, with_entry};

    /// No entry holds anything.
    pub(crate) fn new() -> Memo
        ensures empty { IsEmpty result }
        ensures right { (S : List ℕ) (items : List Item) (gs : List ℕ) → IsRightMemo S items gs result }
    {
        let fetches = no_entries();
        let reads = no_entries();
        let writes = no_entries();
        Memo {
            fetches,
            reads,
            writes,
        }
    }

    /// Forgets what every entry holds.
    pub(crate) fn clear(&mut self)
        ensures empty { IsEmpty self.new }
        ensures right { (S : List ℕ) (items : List Item) (gs : List ℕ) → IsRightMemo S items gs self.new }
    {
        *self = Memo::new();
    }

    // The entries for an access.
    #[inline(always)]
    fn entries(&self, access: Access) -> &[Entry]
        ensures entries { result.now ≡ entries_for self.now access }
        ensures ways { length result.now ≡ ways }
    {
        match access {
            Access::Fetch => &self.fetches,
            Access::Read => &self.reads,
            Access::Write => &self.writes,
        }
    }

    /// The bare page in which a page lies for an access, if an entry holds it.
    #[inline(always)]
    pub(crate) fn get(&self, page: u32, access: Access) -> Option<u32>
        requires { page < 2 ^ 20 }
        ensures host { result ≡ host_of self.now access page }
        ensures opens { IfSome result (λ g. (S : List ℕ) (items : List Item)
            → Opens S items self.now
            → IsOpenAt S items access page g) }
    {
        let entry = self.entries(access)[page as usize % WAYS];
        if entry.page == page {
            Some(entry.host)
        } else {
            None
        }
    }

    /// Holds that a page lies in bare page `host` for an access.
    pub(crate) fn set(&mut self, page: u32, access: Access, host: u32)
        requires { page < 2 ^ 20 }
        ensures entry { self.new ≡ with_entry self.old access page host }
        ensures right { (S : List ℕ) (items : List Item) (gs : List ℕ) (slot : Slot)
            → IsRightMemo S items gs self.old
            → IsHeld S items (listed gs) page slot
            → way_for slot access ≡ Open host
            → IsRightMemo S items gs self.new }
    {
        let at = page as usize % WAYS;
        let entry = Entry { page, host };
        match access {
            Access::Fetch => self.fetches[at] = entry,
            Access::Read => self.reads[at] = entry,
            Access::Write => self.writes[at] = entry,
        }
    }
}

// Entries that hold nothing.
fn no_entries() -> [Entry; WAYS]
    ensures nothing { All (λ e. e.page ≡ nothing) result }
    ensures ways { length result ≡ ways }
{
    [Entry {
        page: NOTHING,
        host: 0,
    }; WAYS]
}
