//! Which interrupt is to be taken.

ghost use Rattle.std.specs.Prelude.{◌≡◌, ◌-◌, ◌<◌, IfSome};
ghost use Rattle.std.specs.Int.RustNames.{bit_and};
ghost use Rattle.hv_csr.specs.Interrupts.{is_open_m, is_open_s, most_urgent_of, pending_of};

use bitflags::Flags;
use hv_cpu::mstatus::{MIE, SIE};
use hv_cpu::{Cpu, Interrupts, Mode};
use hv_word::field;

/// The number of the interrupt to take: the most urgent that isn't delegated, else the most urgent
/// delegated one, of those that are pending, enabled, and not held back by the mode. None where there
/// is none.
#[inline(always)]
pub fn pending(cpu: &Cpu) -> Option<u32>
    ensures takes { result ≡ pending_of cpu.now }
    ensures within { IfSome result (λ k. k < 16) }
{
    let raised = cpu.mip & cpu.mie;
    if raised == 0 {
        return None;
    }
    let delegated = raised & cpu.mideleg;
    let own = if takes_own(cpu) {
        most_urgent(without(raised, cpu.mideleg))
    } else {
        None
    };
    let down = if takes_delegated(cpu) {
        most_urgent(delegated)
    } else {
        None
    };
    own.or(down)
}

// `raised` without the interrupts in `delegated`.
#[tactic(auto, using(crate::proofs::Merge::without_is))]
fn without(raised: u32, delegated: u32) -> u32
    ensures { result ≡ raised - bit_and raised delegated }
{
    raised & !delegated
}

// The most urgent interrupt in a set.
fn most_urgent(set: u32) -> Option<u32>
    ensures first { result ≡ most_urgent_of set }
    ensures within { IfSome result (λ k. k < 16) }
{
    let set = Interrupts::from_bits_retain(set);
    if set.contains(Interrupts::MEI) {
        Some(11)
    } else if set.contains(Interrupts::MSI) {
        Some(3)
    } else if set.contains(Interrupts::MTI) {
        Some(7)
    } else if set.contains(Interrupts::SEI) {
        Some(9)
    } else if set.contains(Interrupts::SSI) {
        Some(1)
    } else if set.contains(Interrupts::STI) {
        Some(5)
    } else {
        None
    }
}

// Whether an interrupt that isn't delegated is taken: below M, and in M with MIE.
fn takes_own(cpu: &Cpu) -> bool
    ensures { result ≡ is_open_m cpu.now }
{
    cpu.mode != Mode::M || field::<MIE, 1>(cpu.mstatus) == 1
}

// Whether a delegated interrupt is taken: in U, and in S with SIE.
fn takes_delegated(cpu: &Cpu) -> bool
    ensures { result ≡ is_open_s cpu.now }
{
    match cpu.mode {
        Mode::U => true,
        Mode::S => field::<SIE, 1>(cpu.mstatus) == 1,
        Mode::M => false,
    }
}
