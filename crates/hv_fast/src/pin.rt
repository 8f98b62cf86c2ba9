//! A pinned path.

ghost use Rattle.std.specs.Prelude.{◌≡◌, false};

use crate::memo::Memo;
use hv_map::{Chain, Path};

/// The machines on the path that a hart runs, with that path, the bare page of the last one's block, and translations at hand of
/// its pages. It says nothing while it isn't `live`.
#[derive(Drop)]
pub(crate) struct Pin {
    pub(crate) live: bool,
    pub(crate) block: u32,
    pub(crate) path: Path,
    pub(crate) chain: Chain,
    pub(crate) memo: Memo,
}

impl Pin {
    /// A pin that says nothing.
    pub(crate) fn new() -> Pin
        ensures { result.live ≡ false }
    {
        Pin {
            live: false,
            block: 0,
            path: Path::new(),
            chain: Chain::new(),
            memo: Memo::new(),
        }
    }
}
