//! Finding the machines on the path that a hart runs, where the path can be pinned.

ghost use Rattle.std.specs.Prelude.{◌≡◌, ◌≢◌, false, IfNone, IfSome};
ghost use Rattle.hv_word.specs.Storage.{page_count};
ghost use Rattle.hv_map.specs.Held.{IsPin};
ghost use Rattle.hv_nest.specs.Kinds.{NextBelow};
ghost use Rattle.hv_fast.specs.Rides.{Quiet};

use hv_cpu::Cpu;
use hv_csr::pending;
use hv_limits::DEPTH;
use hv_map::{Chain, Found, Pages, child_noting};
use hv_store::Store;

/// The machines on the path of a hart with these registers, where the last of them runs no machine and in none of the others
/// an interrupt can be taken. The bare pages of tables and directories that are read to find them are added to `tables`.
pub(crate) fn follow(store: &Store, cpu: &Cpu, tables: &mut Pages) -> Option<Chain>
    requires { NextBelow (page_count store.now) cpu.now }
    ensures pinned { IfSome result (λ items. tables.new.full ≡ false → IsPin store.now cpu.now items tables.new) }
    ensures quiet { IfSome result (λ items. Quiet store.now cpu.now items) }
{
    let mut chain = Chain::new();
    let mut regs = *cpu;
    while let Some(page) = entered(&regs) {
        if pending(&regs).is_some() || chain.len() as usize == DEPTH {
            return None;
        }
        let Found::Child { host, block } = child_noting(store, &chain, page, tables) else {
            return None;
        };
        chain = chain.deeper(page, host, &block);
        regs = block.cpu;
    }
    Some(chain)
}

// The page of the machine that is to run, if any.
#[inline(always)]
pub(crate) fn entered(cpu: &Cpu) -> Option<u32>
    ensures some { IfSome result (λ page. (page ≡ cpu.now.next) × (page ≢ 0)) }
    ensures none { IfNone result (cpu.now.next ≡ 0) }
{
    let _ = &cpu.pc;
    cpu.next
}
