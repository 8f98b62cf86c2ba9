//! Four small monitors, as texts in assembly.
#![tactic(auto)]

ghost use Rattle.std.specs.Prelude.{◌≡◌};
ghost use Rattle.hv_samples.specs.Samples.{sample_text};

mod choice;

pub use choice::Sample;

const PASS: &str = "start:  li x5, 0x1000
again:  vmenter x5
        j again
";

const SLICER: &str = "        csrr x6, mhartid
        slli x6, x6, 13
        li x5, 0x1000
        add x5, x5, x6
        li x7, 0x3000
        add x7, x7, x6
        add x7, x7, x6
        la x6, tick
        csrw mtvec, x6
        li x6, 0x80
        csrw mie, x6
        csrrsi x0, mstatus, 8
again:  vmenter x5
        j again
tick:   sub x5, x7, x5
        mret
";

const FORWARD: &str = "        la x6, tick
        csrw mtvec, x6
        li x6, 0x888
        csrw mie, x6
        li x5, 0x1000
        csrrsi x0, mstatus, 8
again:  vmenter x5
        j again
tick:   csrr x6, mip
        csrr x8, mie
        and x6, x6, x8
        lw x7, 168(x5)
        or x7, x7, x6
        sw x7, 168(x5)
        csrw mie, x0
        mret
";

const PAGER: &str = "        li x5, 0x1000
again:  vmenter x5
        lw x6, 288(x5)
        li x7, 1
        bne x6, x7, again
        lw x6, 292(x5)
        srli x6, x6, 12
        addi x7, x6, 3
        slli x7, x7, 12
        ori x7, x7, 3
        slli x6, x6, 2
        li x8, 0x2000
        add x8, x8, x6
        sw x7, 0(x8)
        j again
";

/// The text of a sample: lines of assembly, each ended by a line feed.
#[tactic(auto, unfolding(crate::specs::Samples::sample_text))]
pub fn sample(which: Sample) -> &'static str
    ensures { result.now ≡ sample_text which }
{
    match which {
        Sample::Pass => PASS,
        Sample::Slicer => SLICER,
        Sample::Forward => FORWARD,
        Sample::Pager => PAGER,
    }
}
