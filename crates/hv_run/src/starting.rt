//! A watch at the start of a play.

ghost use Rattle.std.specs.Prelude.{◌≡◌, Some, IfOk, map};
ghost use Rattle.hv_map.specs.Chain.{pin_of};
ghost use Rattle.hv_map.specs.Links.{syllable_of};
ghost use Rattle.hv_run.specs.Stands.{IsNew, IsWatchable, NewAt, watch_of};

use crate::watched::{Watched, status_of};
use hv_apart::{Footing, apart, one_to_one};
use hv_limits::KEPT;
use hv_map::{Chain, Watch, pin};
use hv_nest::Nested;
use std::alloc::{AllocError, Global};

/// A watch at the start, with room for all that it keeps.
pub(crate) fn start<N: Nested>(
    alloc: Global,
    nested: &N,
    watch: &Watch,
) -> Result<Watched, AllocError>
    requires { IsWatchable (N.state nested.now) (watch_of watch.now) }
    ensures { IfOk result (λ w. IsNew (N.state nested.now) (watch_of watch.now) w) }
{
    match pin(nested.parked(), &watch.path) {
        Some(chain) => start_on(alloc, nested, watch, &chain),
        None => unreachable!(),
    }
}

// The same where the machines on its path are those of the chain.
fn start_on<N: Nested>(
    alloc: Global,
    nested: &N,
    watch: &Watch,
    chain: &Chain,
) -> Result<Watched, AllocError>
    requires { pin_of (N.state nested.now).storage (map syllable_of chain.now) ≡ Some chain.now }
    ensures { IfOk result (λ w. NewAt (N.state nested.now) (watch_of watch.now) (Some chain.now) w) }
{
    let store = nested.parked();
    let _pages = store.pages();
    let block = chain.last_block();
    let foot = Footing::new(alloc, store, chain)?;
    let lines = Vec::with_capacity(alloc, KEPT)?;
    Ok(Watched {
        hart: watch.hart,
        path: watch.path.copied(),
        block,
        one: one_to_one(store, chain),
        apart: apart(store, chain),
        touched: false,
        count: 0,
        line_total: 0,
        lines,
        foot,
        status: status_of(nested, watch.hart, block),
    })
}
