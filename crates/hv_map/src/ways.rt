//! What a way comes to for one access.

ghost use Rattle.std.specs.Prelude.{◌≡◌, ◌<◌, ◌^◌, ℕ, IfSome};
ghost use Rattle.hv_store.specs.Access.{way_for, refused};
ghost use Rattle.hv_map.specs.Levels.{IsWayWithin, IsSlotWithin};

use hv_limits::LEVELS;
use hv_store::{Access, Refusal, Slot, Way};

/// The way of one page for reading, and the pages on it from the inside out: of the first `len` of `pages` the first is the
/// page itself, and each next one is the page that its entry names. They end with the bare page, or with the last page
/// whose map refuses or whose directory or table word couldn't be read. The other places are 0.
#[derive(Drop)]
pub struct Trail {
    pub len: u32,
    pub pages: [u32; LEVELS],
    pub end: Way,
}

/// The way of a slot that serves an access.
pub(crate) fn way_for(slot: Slot, access: Access) -> Way
    ensures way { result ≡ way_for slot access }
    ensures within { (P k : ℕ) → IsSlotWithin P k slot → IsWayWithin P k result }
{
    match access {
        Access::Read => slot.read,
        Access::Write => slot.write,
        Access::Fetch => slot.fetch,
    }
}

/// The refusal of word `word` by a way that is shut for page `page` of the map at `level`, where `asked` is the table word
/// that couldn't be read there, if there is one.
pub(crate) fn refusal(
    level: u32,
    cause: u32,
    page: u32,
    asked: Option<u32>,
    word: u32,
    access: Access,
) -> Refusal
    requires page { page < 2 ^ 20 }
    requires asked { IfSome asked (λ w. w < 1024) }
    requires word { word < 1024 }
    ensures refusal { result ≡ refused level cause page asked word access }
    ensures level { result.level ≡ level }
{
    match asked {
        Some(table_word) => Refusal {
            level,
            cause,
            address: 4096 * page + 4 * table_word,
            access: Access::Read,
        },
        None => Refusal {
            level,
            cause,
            address: 4096 * page + 4 * word,
            access,
        },
    }
}
