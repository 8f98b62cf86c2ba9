//! Program counters and breakpoints.

ghost use Rattle.std.specs.Prelude.{◌≡◌, ◌<◌, ◌&&◌, IfSome, length, not};
ghost use Rattle.hv_word.specs.Storage.{page_count};
ghost use Rattle.hv_map.specs.Chain.{pin_of};
ghost use Rattle.hv_nest.specs.Move.{running_of};
ghost use Rattle.hv_debug.specs.Playing.{counter_in, has_counter, is_at, is_stopped};

use crate::stop::Break;
use hv_block::block_word;
use hv_map::{Path, pin};
use hv_nest::Nested;

/// Whether a hart's next step is stopped by a breakpoint. The first step of a command isn't.
pub(crate) fn is_stopped<N: Nested>(
    nested: &mut N,
    breaks: &[Break],
    first: bool,
    hart: u32,
) -> bool
    requires { hart < length (N.state nested.old).harts }
    ensures stopped { result ≡ (not first && is_stopped (N.state nested.old) breaks.now hart) }
    ensures same { N.state nested.new ≡ N.state nested.old }
{
    if first || breaks.is_empty() {
        return false;
    }
    let running = nested.running(hart);
    any_at(nested, breaks, hart, &running)
}

// Whether one of the breakpoints is that of the machine that a hart runs, at the running path.
fn any_at<N: Nested>(nested: &N, breaks: &[Break], hart: u32, running: &Path) -> bool
    requires hart { hart < length (N.state nested.now).harts }
    requires path { running.now ≡ running_of (N.state nested.now) hart }
    ensures { result ≡ is_stopped (N.state nested.now) breaks.now hart }
{
    for stop in breaks {
        if is_at(nested, hart, running, stop) {
            return true;
        }
    }
    false
}

// Whether the machine at the running path is that of a breakpoint, and at its address.
fn is_at<N: Nested>(nested: &N, hart: u32, running: &Path, stop: &Break) -> bool
    requires hart { hart < length (N.state nested.now).harts }
    requires path { running.now ≡ running_of (N.state nested.now) hart }
    ensures { result ≡ is_at (N.state nested.now) hart stop.now }
{
    stop.path.as_slice() == running.as_slice() && has_counter(nested, hart, stop)
}

// Whether the breakpoint's machine is there and is at its address, where a hart runs it.
fn has_counter<N: Nested>(nested: &N, hart: u32, stop: &Break) -> bool
    requires { hart < length (N.state nested.now).harts }
    ensures { result ≡ has_counter (N.state nested.now) hart stop.now.at (pin_of (N.state nested.now).storage stop.now.path) }
{
    let store = nested.parked();
    match pin(store, &stop.path) {
        Some(chain) => counter_in(nested, hart, chain.last_block()) == stop.at,
        None => false,
    }
}

// The program counter of the machine whose block is in a bare page, or of the hart where there is none.
fn counter_in<N: Nested>(nested: &N, hart: u32, block: Option<u32>) -> u32
    requires hart { hart < length (N.state nested.now).harts }
    requires block { IfSome block (λ g. g < page_count (N.state nested.now).storage) }
    ensures { result ≡ counter_in (N.state nested.now) hart block }
{
    match block {
        Some(page) => block_word(nested.parked(), page, 0),
        None => nested.cpu(hart).pc,
    }
}
