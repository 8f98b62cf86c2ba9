//! Loads and stores: which lane of which word they move, and when they are misaligned.

ghost use Rattle.std.specs.Prelude.{◌≡◌, ◌<◌, ◌≤◌};
ghost use Rattle.hv_word.specs.Words.{IsLane};
ghost use Rattle.hv_cpu.specs.Regs.{Regs};
ghost use Rattle.hv_exec.specs.Answer.{answered, TouchesAsTold, IsInRange};
ghost use Rattle.hv_exec.specs.Memory.{width_bytes, loading, storing, lane_at, extended};

use crate::answer::{Task, Width};
use hv_word::{Lane, sext};

/// A load of register `rd` from an address.
#[tactic(auto, unfolding(crate::specs::Memory::loading))]
#[inline(always)]
pub(crate) fn load(address: u32, width: Width, signed: bool, rd: u8) -> Task
    requires { rd < 32 }
    ensures does { (r : Regs) → answered result r ≡ loading address width signed rd }
    ensures touches { (r : Regs) → TouchesAsTold result r r }
    ensures range { IsInRange result }
{
    if address % bytes(width) != 0 {
        return Task::Trap {
            cause: 4,
            tval: address,
        };
    }
    Task::Load {
        address,
        width,
        signed,
        rd,
    }
}

/// A store of a value's low bits to an address.
#[tactic(auto, unfolding(crate::specs::Memory::storing))]
#[inline(always)]
pub(crate) fn store(address: u32, width: Width, value: u32) -> Task
    ensures does { (r : Regs) → answered result r ≡ storing address width value }
    ensures touches { (r : Regs) → TouchesAsTold result r r }
    ensures range { IsInRange result }
{
    if address % bytes(width) != 0 {
        return Task::Trap {
            cause: 6,
            tval: address,
        };
    }
    Task::Store {
        address,
        width,
        value,
    }
}

/// The lane of its word at an offset in a page, for an aligned access.
#[inline(always)]
pub(crate) fn lane(width: Width, offset: u32) -> Lane
    ensures lane { result ≡ lane_at width offset }
    ensures valid { IsLane result }
{
    match width {
        Width::Byte => Lane::Byte((offset % 4) as u8),
        Width::Half => Lane::Half((offset % 4 / 2) as u8),
        Width::Word => Lane::Word,
    }
}

/// What a load puts into its register, from the lane's value.
#[inline(always)]
pub(crate) fn extend(width: Width, signed: bool, value: u32) -> u32
    ensures { result ≡ extended width signed value }
{
    match (width, signed) {
        (Width::Byte, true) => sext::<8>(value),
        (Width::Half, true) => sext::<16>(value),
        _ => value,
    }
}

// How many bytes an access moves.
#[inline(always)]
fn bytes(width: Width) -> u32
    ensures bytes { result ≡ width_bytes width }
    ensures some { 1 ≤ result }
{
    match width {
        Width::Byte => 1,
        Width::Half => 2,
        Width::Word => 4,
    }
}
