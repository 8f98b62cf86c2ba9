//! Which machine a hart runs.

ghost use Rattle.std.specs.Prelude.{◌≡◌, ◌≢◌, true, false, length};
ghost use Rattle.hv_word.specs.Storage.{page_count};
ghost use Rattle.hv_map.specs.Chain.{map_along, running_path};
ghost use Rattle.hv_nest.specs.Kinds.{NextBelow};
ghost use Rattle.hv_nest.specs.Beyond.{beyond};

use crate::step::entered;
use hv_cpu::Cpu;
use hv_limits::DEPTH;
use hv_map::{Chain, Found, Path, child};
use hv_store::Store;

/// The path of the machine that a hart with these registers runs.
#[tactic(auto, using(crate::proofs::Follows::following))]
pub fn path_of(store: &Store, cpu: &Cpu) -> Path
    requires { NextBelow (page_count store.now) cpu.now }
    ensures { result ≡ running_path store.now cpu.now }
{
    if entered(cpu).is_none() {
        return Path::new();
    }
    follow(store, &Chain::new(), cpu)
}

/// Whether a hart with these registers runs the machine on this path, or, on the empty path, none.
#[inline(always)]
#[tactic(auto, using(crate::proofs::Follows::following))]
pub(crate) fn runs(store: &Store, cpu: &Cpu, path: &Path) -> bool
    requires { NextBelow (page_count store.now) cpu.now }
    ensures yes { result ≡ true → path.now ≡ running_path store.now cpu.now }
    ensures no { result ≡ false → path.now ≢ running_path store.now cpu.now }
{
    if entered(cpu).is_none() {
        return path.len() == 0;
    }
    runs_at(store, cpu, path)
}

// The same by the whole path, where the hart runs a machine.
#[inline(never)]
fn runs_at(store: &Store, cpu: &Cpu, path: &Path) -> bool
    requires { NextBelow (page_count store.now) cpu.now }
    ensures yes { result ≡ true → path.now ≡ running_path store.now cpu.now }
    ensures no { result ≡ false → path.now ≢ running_path store.now cpu.now }
{
    path_of(store, cpu).as_slice() == path.as_slice()
}

// The chain's path with what is found from there on by following next, where the last machine has these registers.
#[tactic(auto, using(crate::proofs::Follows::following))]
fn follow(store: &Store, chain: &Chain, cpu: &Cpu) -> Path
    requires { NextBelow (length (map_along store.now chain.now)) cpu.now }
    ensures { result ≡ beyond store.now chain.now cpu.now }
{
    let Some(page) = entered(cpu) else {
        return chain.path();
    };
    if chain.len() as usize == DEPTH {
        return chain.path();
    }
    match child(store, chain, page) {
        Found::Child { host, block } => follow(
            store,
            &chain.deeper(page, host, &block),
            &block.cpu,
        ),
        Found::Malformed { host: _ } => chain.path(),
        Found::Refused(_) => chain.path(),
    }
}
