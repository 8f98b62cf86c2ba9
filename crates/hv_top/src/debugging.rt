//! The command `debug`.

ghost use Rattle.std.specs.Prelude.{◌≡◌, ◌≤◌, Ok, length, IfOk};
ghost use Rattle.hv_limits.specs.Limits.{input_limit};
ghost use Rattle.hv_job.specs.IsJob.{IsJob};
ghost use Rattle.hv_load.specs.Build.{build_of};
ghost use Rattle.hv_load.specs.Ready.{IsReady};
ghost use Rattle.hv_top.specs.Answer.{output_in};
ghost use Rattle.hv_top.specs.Debug.{debug_output, transcript_on};

use crate::answer::{Answer, written};
use crate::opening::{Opening, opened};
use hv_debug::transcript;
use hv_job::Job;
use hv_load::Start;
use hv_nest::Plain;
use std::alloc::{AllocError, Global};

/// What a debugger writes over the commands of a job, or the refusal of the first line that is refused: in its text, or else
/// when it is built.
#[tactic(auto, unfolding(crate::specs::Debug::debug_output))]
pub fn debugged(alloc: Global, input: &[u8]) -> Result<Answer, AllocError>
    requires { length input.now ≤ input_limit }
    ensures { IfOk result (λ answer. output_in answer ≡ debug_output input.now) }
{
    match opened(alloc, input)? {
        Opening::Ready { job, start } => Ok(written(session(alloc, &job, start)?)),
        Opening::Refused(answer) => Ok(answer),
    }
}

// What a debugger writes over the commands of a job from its start.
fn session(alloc: Global, job: &Job, start: Start) -> Result<Vec<u8>, AllocError>
    requires job { IsJob job.now }
    requires built { build_of job.now ≡ Ok start }
    requires ready { IsReady job.now start }
    ensures { IfOk result (λ text. text.items ≡ transcript_on job.now start) }
{
    let Start { store, harts, plan } = start;
    let mut plain = Plain::new(store, harts);
    transcript(alloc, &mut plain, job, &plan)
}
