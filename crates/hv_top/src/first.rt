//! The first watched machine of a job, and the line that asks for it.

ghost use Rattle.std.specs.Prelude.{◌≡◌, ◌+◌, ◌≤◌, length};
ghost use Rattle.hv_limits.specs.Limits.{input_limit};
ghost use Rattle.hv_top.specs.First.{first_watching, line_behind as line_behind_of, watch_line as watch_line_of};

use hv_job::{Job, Placed};
use hv_lex::first_line;
use hv_line::Directive;

/// The number of the job's first line that asks for a watch, or 0 where none does.
pub fn watch_line(job: &Job) -> u32
    ensures { result ≡ watch_line_of job.now }
{
    first_of(job.lines.as_slice())
}

// The same of these lines.
#[tactic(auto, unfolding(crate::specs::First::first_watching))]
fn first_of(lines: &[Placed]) -> u32
    ensures { result ≡ first_watching lines.now }
{
    for placed in lines {
        if let Directive::Watch { .. } = placed.what {
            return placed.line;
        }
    }
    0
}

/// The number of the line behind the last of a text.
pub fn line_behind(text: &[u8]) -> u64
    requires { length text.now ≤ input_limit }
    ensures { result ≡ line_behind_of text.now }
{
    let mut rest = text;
    let mut number = 1;
    while !rest.is_empty() {
        let (_line, behind) = first_line(rest);
        number += 1;
        rest = behind;
    }
    number
}
