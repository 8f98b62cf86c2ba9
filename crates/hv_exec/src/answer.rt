//! What one instruction asks for, and the ways to go on from it.

ghost use Rattle.std.specs.Prelude.{◌≡◌, ◌<◌};
ghost use Rattle.hv_exec.specs.Answer.{advanced, given, jumped, branched, passed, answered, Next};
ghost use Rattle.hv_exec.specs.Answer.{KeepsUnlessDone, TouchesAsTold, IsInRange};
ghost use Rattle.hv_exec.specs.declared.answer.Task.TheVariants.{Trap as TrapTask};
ghost use Rattle.hv_exec.specs.Touched.{Touches};

use crate::touched::Touched;
use hv_cpu::Cpu;

/// How much a load or a store moves.
#[derive(Clone, Copy)]
pub(crate) enum Width {
    Byte,
    Half,
    Word,
}

/// What is left to do after an instruction's own work on the registers. They are as before unless it is done.
#[derive(Clone, Copy)]
pub(crate) enum Task {
    Done {
        touched: Touched,
    },
    Trap {
        cause: u32,
        tval: u32,
    },
    Load {
        address: u32,
        width: Width,
        signed: bool,
        rd: u8,
    },
    Store {
        address: u32,
        width: Width,
        value: u32,
    },
    Enter {
        value: u32,
    },
}

/// Goes on to the next instruction, and tells what that touches.
#[tactic(auto, unfolding(crate::specs::Answer::advanced))]
#[inline(always)]
pub(crate) fn advance(cpu: &mut Cpu) -> Touched
    ensures advances { cpu.new ≡ advanced cpu.old }
    ensures touches { Touches result cpu.old cpu.new }
    ensures next { cpu.new.next ≡ cpu.old.next }
{
    cpu.pc = cpu.pc.wrapping_add(4);
    Touched::File { register: 0 }
}

/// Puts a value into register `rd`, goes on to the next instruction, and tells what that touches.
#[tactic(auto, unfolding(crate::specs::Answer::given))]
#[inline(always)]
pub(crate) fn put(cpu: &mut Cpu, rd: u8, value: u32) -> Touched
    requires { rd < 32 }
    ensures gives { cpu.new ≡ given cpu.old rd value }
    ensures touches { Touches result cpu.old cpu.new }
    ensures next { cpu.new.next ≡ cpu.old.next }
{
    cpu.set_x(rd, value);
    advance(cpu);
    Touched::File {
        register: rd as u32,
    }
}

/// An instruction that puts a value into register `rd`.
#[inline(always)]
pub(crate) fn give(cpu: &mut Cpu, rd: u8, value: u32) -> Task
    requires { rd < 32 }
    ensures does { answered result cpu.new ≡ Next (given cpu.old rd value) }
    ensures keeps { KeepsUnlessDone result cpu.old cpu.new }
    ensures touches { TouchesAsTold result cpu.old cpu.new }
    ensures range { IsInRange result }
    ensures next { cpu.new.next ≡ cpu.old.next }
{
    Task::Done {
        touched: put(cpu, rd, value),
    }
}

/// An illegal instruction, whose word is `word`.
#[inline(always)]
pub(crate) fn illegal(word: u32) -> Task
    ensures { result ≡ TrapTask 2 word }
{
    Task::Trap {
        cause: 2,
        tval: word,
    }
}

/// Goes on where that is allowed; else the instruction is illegal.
#[inline(always)]
pub(crate) fn pass(cpu: &mut Cpu, allowed: bool, word: u32) -> Task
    ensures does { answered result cpu.new ≡ passed allowed word cpu.old }
    ensures keeps { KeepsUnlessDone result cpu.old cpu.new }
    ensures touches { TouchesAsTold result cpu.old cpu.new }
    ensures range { IsInRange result }
    ensures next { cpu.new.next ≡ cpu.old.next }
{
    if !allowed {
        return illegal(word);
    }
    Task::Done {
        touched: advance(cpu),
    }
}

/// Jumps to `target`, with the address of the next instruction in register `rd`.
#[tactic(auto, unfolding(crate::specs::Answer::jumped))]
#[inline(always)]
pub(crate) fn jump(cpu: &mut Cpu, rd: u8, target: u32) -> Task
    requires { rd < 32 }
    ensures does { answered result cpu.new ≡ jumped cpu.old rd target }
    ensures keeps { KeepsUnlessDone result cpu.old cpu.new }
    ensures touches { TouchesAsTold result cpu.old cpu.new }
    ensures range { IsInRange result }
    ensures next { cpu.new.next ≡ cpu.old.next }
{
    if target % 4 != 0 {
        return misaligned(target);
    }
    cpu.set_x(rd, cpu.pc.wrapping_add(4));
    cpu.pc = target;
    Task::Done {
        touched: Touched::File {
            register: rd as u32,
        },
    }
}

/// Jumps to `target` where the branch is taken, and else goes on.
#[tactic(auto, unfolding(crate::specs::Answer::branched))]
#[inline(always)]
pub(crate) fn branch(cpu: &mut Cpu, taken: bool, target: u32) -> Task
    ensures does { answered result cpu.new ≡ branched cpu.old taken target }
    ensures keeps { KeepsUnlessDone result cpu.old cpu.new }
    ensures touches { TouchesAsTold result cpu.old cpu.new }
    ensures range { IsInRange result }
    ensures next { cpu.new.next ≡ cpu.old.next }
{
    if !taken {
        return Task::Done {
            touched: advance(cpu),
        };
    }
    if target % 4 != 0 {
        return misaligned(target);
    }
    cpu.pc = target;
    Task::Done {
        touched: Touched::File { register: 0 },
    }
}

// A jump to an address that is no multiple of 4.
#[inline(always)]
fn misaligned(target: u32) -> Task
    ensures { result ≡ TrapTask 0 target }
{
    Task::Trap {
        cause: 0,
        tval: target,
    }
}
