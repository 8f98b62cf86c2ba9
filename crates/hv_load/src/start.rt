//! What a job is built to.

use hv_job::Name;
use hv_list::Items;
use hv_map::{Path, Watch};
use hv_nest::Harts;
use hv_store::Store;

/// A machine's name, and the path to it.
#[derive(Drop)]
pub struct Named {
    pub name: Name,
    pub path: Path,
}

/// A page of a machine, to be shown at the end.
#[derive(Drop)]
pub struct Dump {
    pub name: Name,
    pub path: Path,
    pub page: u32,
}

/// The machines in the order in which they were made, the bare machine first under the name `root`; what is watched; and
/// what is shown at the end.
#[derive(Drop)]
pub struct Plan {
    pub names: Items<Named>,
    pub watches: Items<Watch>,
    pub dumps: Items<Dump>,
}

/// The storage and the harts at the start of a job, and its plan.
#[derive(Drop)]
pub struct Start {
    pub store: Store,
    pub harts: Harts,
    pub plan: Plan,
}
