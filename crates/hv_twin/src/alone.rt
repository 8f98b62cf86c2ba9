//! A bare machine that runs alone.

ghost use Rattle.std.specs.Prelude.{◌≡◌, ◌≤◌, All, bit_and, length, replicate};
ghost use Rattle.hv_word.specs.Storage.{page_count};
ghost use Rattle.hv_limits.specs.Limits.{lines_mask, steps_limit};
ghost use Rattle.hv_nest.specs.Bare.{alone, bare_of};
ghost use Rattle.hv_nest.specs.Kinds.{NextBelow};
ghost use Rattle.hv_nest.specs.Move.{StepOf, last_of, state_after};
ghost use Rattle.hv_twin.specs.Twin.{NeverFalls};

use hv_cpu::Cpu;
use hv_nest::{LineRow, host_step};
use hv_store::Store;

/// Makes so many steps of hart 0 over a storage, as many as a schedule can take at most. Each change of its lines is made
/// when as many steps were made as its count says, those at the last count too. The counts don't fall, the bits are lines from
/// outside, and the hart's next, if it has one, is a page of the storage. It takes no memory.
pub fn bare_run(store: &mut Store, cpu: &mut Cpu, lines: &[LineRow], steps: u64)
    requires next { NextBelow (page_count store.old) cpu.old }
    requires steps { steps ≤ steps_limit }
    requires counts { NeverFalls lines.now }
    requires bits { All (λ line. bit_and line.bits lines_mask ≡ line.bits) lines.now }
    ensures state { alone store.new cpu.new ≡ bare_of store.old cpu.old lines.now steps }
    ensures next { NextBelow (page_count store.new) cpu.new }
    ensures len { length store.new ≡ length store.old }
{
    let mut made = 0;
    for line in lines {
        if line.count > steps {
            break;
        }
        run(store, cpu, line.count - made);
        cpu.set_lines(line.bits);
        made = line.count;
    }
    run(store, cpu, steps - made);
}

// So many steps.
fn run(store: &mut Store, cpu: &mut Cpu, steps: u64)
    requires { NextBelow (page_count store.old) cpu.old }
    ensures state { alone store.new cpu.new ≡ last_of (alone store.old cpu.old) (replicate steps (StepOf 0)) }
    ensures next { NextBelow (page_count store.new) cpu.new }
    ensures len { length store.new ≡ length store.old }
{
    for _step in 0..steps {
        step(store, cpu);
    }
}

fn step(store: &mut Store, cpu: &mut Cpu)
    requires { NextBelow (page_count store.old) cpu.old }
    ensures state { alone store.new cpu.new ≡ state_after (alone store.old cpu.old) (StepOf 0) }
    ensures next { NextBelow (page_count store.new) cpu.new }
    ensures len { length store.new ≡ length store.old }
{
    host_step(store, cpu, 0);
}
