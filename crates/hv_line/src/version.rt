//! Which form a text has, and what a text of each form can ask for.

ghost use Rattle.std.specs.Prelude.{◌≡◌, ◌≤◌};
ghost use Rattle.hv_line.specs.JobLimits.{depth_in, harts_in};

use crate::limits::{JOB_DEPTH, JOB_HARTS};

/// Which form a text has, by its first line.
#[derive(Clone, Copy, PartialEq, Eq, Debug)]
pub enum JobVersion {
    /// A text that begins with `job 1`.
    One,
    /// A text that begins with `job 2`.
    Two,
}

impl JobVersion {
    /// How many harts a line `harts` can ask for.
    pub fn harts(self) -> u32
        ensures value { result ≡ harts_in self }
        ensures some { 1 ≤ result }
    {
        match self {
            JobVersion::One => 4,
            JobVersion::Two => JOB_HARTS,
        }
    }

    /// How many machines inside one another a line `tower` can ask for.
    pub fn depth(self) -> u32
        ensures { result ≡ depth_in self }
    {
        match self {
            JobVersion::One => 8,
            JobVersion::Two => JOB_DEPTH,
        }
    }
}
