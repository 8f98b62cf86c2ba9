//! What a job has only so much of, and how much of it each directive takes.

ghost use Rattle.std.specs.Prelude.{◌≡◌, ◌+◌, ◌^◌, ◌<◌};
ghost use Rattle.std.specs.Option.{ForSome};
ghost use Rattle.hv_job.specs.Limited.{counted_of, limit_of, part_of, taken_by as taken_by_of};
ghost use Rattle.hv_job.specs.declared.limited.Limited.{Limited};

use hv_line::{Directive, JOB_DUMPS, JOB_IMAGE_BYTES, JOB_MACHINES, JOB_WATCHES};

/// What a job has only so much of.
#[derive(Clone, Copy, Debug, PartialEq, Eq)]
pub enum Limited {
    /// Machines, each with a line of its own.
    Machines,
    /// Machines that are watched.
    Watches,
    /// Pages that are shown at the end.
    Dumps,
    /// Bytes of all images and samples together.
    ImageBytes,
}

impl Limited {
    /// How much of it there can be in a job.
    pub fn limit(self) -> u32
        ensures { result ≡ limit_of self }
    {
        match self {
            Limited::Machines => JOB_MACHINES,
            Limited::Watches => JOB_WATCHES,
            Limited::Dumps => JOB_DUMPS,
            Limited::ImageBytes => JOB_IMAGE_BYTES,
        }
    }
}

/// How much is taken of something that a job has only so much of.
#[derive(Clone, Copy)]
pub(crate) struct Share {
    pub of: Limited,
    pub amount: usize,
}

/// What a directive takes, if it takes of anything that is limited.
pub(crate) fn taken_by(what: &Directive) -> Option<Share>
    ensures { result ≡ taken_by_of what.now }
{
    let (of, amount) = match what {
        Directive::Machine { .. } => (Limited::Machines, 1),
        Directive::Watch { .. } => (Limited::Watches, 1),
        Directive::Dump { .. } => (Limited::Dumps, 1),
        Directive::Image { image, .. } | Directive::Sample { image, .. } => {
            (Limited::ImageBytes, 4 * image.words.as_slice().len())
        }
        _ => return None,
    };
    Some(Share { of, amount })
}

/// How much was taken of each.
#[derive(Clone, Copy)]
pub(crate) struct Amounts {
    machines: u32,
    watches: u32,
    dumps: u32,
    image_bytes: u32,
}

impl Amounts {
    /// Nothing yet.
    pub fn new() -> Amounts
        ensures { (of : Limited) → counted_of result of ≡ 0 }
    {
        Amounts {
            machines: 0,
            watches: 0,
            dumps: 0,
            image_bytes: 0,
        }
    }

    /// How much was taken of it.
    pub fn of(&self, what: Limited) -> u32
        ensures { result ≡ counted_of self.now what }
    {
        match what {
            Limited::Machines => self.machines,
            Limited::Watches => self.watches,
            Limited::Dumps => self.dumps,
            Limited::ImageBytes => self.image_bytes,
        }
    }

    /// Counts what is taken.
    pub fn add(&mut self, taken: Option<Share>)
        requires { ForSome taken (λ share. counted_of self.old share.of + share.amount < 2 ^ 32) }
        ensures { (of : Limited) → counted_of self.new of ≡ counted_of self.old of + part_of of taken }
    {
        let Some(share) = taken else {
            return;
        };
        let amount = share.amount as u32;
        match share.of {
            Limited::Machines => self.machines += amount,
            Limited::Watches => self.watches += amount,
            Limited::Dumps => self.dumps += amount,
            Limited::ImageBytes => self.image_bytes += amount,
        }
    }
}
