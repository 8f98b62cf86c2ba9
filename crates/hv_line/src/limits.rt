//! What a text can ask for, whatever machine it is read for.

ghost use Rattle.std.specs.Prelude.{◌≡◌, ◌≤◌};
ghost use Rattle.hv_limits.specs.Limits.{depth_limit, harts_limit};
ghost use Rattle.hv_line.specs.JobLimits.{job_breaks, job_commands, job_depth, job_dumps, job_harts, job_image_bytes, job_machines, job_values, job_watches};
ghost use Rattle.hv_line.specs.Names.{name_limit};

use crate::name::LETTERS;

/// The most harts that a text can ask for.
pub const JOB_HARTS: u32 = 8;

/// The most machines inside one another that a text can ask for.
pub const JOB_DEPTH: u32 = 12;

/// How many values a line `word` can have.
pub const JOB_VALUES: usize = 8;

/// How many lines `machine` there can be.
pub const JOB_MACHINES: u32 = 256;

/// How many watches there can be.
pub const JOB_WATCHES: u32 = 16;

/// How many dumps there can be.
pub const JOB_DUMPS: u32 = 1024;

/// How many bytes all images and samples can have together.
pub const JOB_IMAGE_BYTES: u32 = 0x400_0000;

/// How many commands of the debugger there can be.
pub const JOB_COMMANDS: usize = 1024;

/// How many breakpoints there can be.
pub const JOB_BREAKS: u32 = 16;

/// The constants of the code are the numbers that the definitions speak of; and a machine can have the harts and the depth
/// that a text can ask for.
pub fn job_limits_are_kept()
    ensures harts { (JOB_HARTS ≡ job_harts) × (job_harts ≤ harts_limit) }
    ensures depth { (JOB_DEPTH ≡ job_depth) × (job_depth ≤ depth_limit) }
    ensures values { JOB_VALUES ≡ job_values }
    ensures machines { JOB_MACHINES ≡ job_machines }
    ensures watches { JOB_WATCHES ≡ job_watches }
    ensures dumps { JOB_DUMPS ≡ job_dumps }
    ensures images { JOB_IMAGE_BYTES ≡ job_image_bytes }
    ensures commands { JOB_COMMANDS ≡ job_commands }
    ensures breaks { JOB_BREAKS ≡ job_breaks }
    ensures letters { LETTERS ≡ name_limit }
{}
