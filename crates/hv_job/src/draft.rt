//! What the lines of a text have so far.

ghost use Rattle.std.specs.Prelude.{◌≡◌, ◌%◌, false, List, [], OnOk};
ghost use Rattle.hv_asm.specs.Assembly.{asm_of};
ghost use Rattle.hv_samples.specs.Samples.{sample_text};
ghost use Rattle.hv_job.specs.Drafted.{Makes};
ghost use Rattle.hv_job.specs.JobOf.{directive_with, draft_of, event_directive, harts_with, is_many as is_many_of, job_in, lines_with, sample_with, schedule_with};
ghost use Rattle.hv_job.specs.declared.job.Placed.{Placed};

use crate::job::{DebugLine, Job, Placed};
use crate::limited::{Amounts, taken_by};
use hv_asm::{AsmEnd, assemble};
use hv_irq::{Event, PushEnd, Recording};
use hv_line::{Directive, JobKind, JobLineEnd, JobVersion, Name};
use hv_list::Items;
use hv_samples::{Sample, sample};
use std::alloc::{AllocError, Global};
use std::marker::Model;

/// The directives so far, in the order of their lines, and how much they take of what is limited. It is seen as the list
/// of the directives.
#[derive(Drop)]
pub(crate) struct Directives {
    items: Vec<Placed>,
    amounts: Amounts,
}

impl Model for Directives {
    ghost use Rattle.std.specs.Prelude.{◌≡◌, ◌≤◌, List};
    ghost use Rattle.hv_job.specs.Limited.{amount_of, counted_of, limit_of};
    ghost use Rattle.hv_job.specs.declared.job.Placed.{Placed};
    ghost use Rattle.hv_job.specs.declared.limited.Limited.{Limited};

    ghost Value = { List Placed };

    ghost view = { λ d. d.items.items };

    ghost invariant = { λ d. (of : Limited)
        → (counted_of d.amounts of ≡ amount_of of d.items.items) × (amount_of of d.items.items ≤ limit_of of) };
}

// The directive beside an event.
#[tactic(auto, unfolding(crate::specs::JobOf::is_many))]
fn directive_beside(event: Event) -> Directive
    ensures directive { result ≡ event_directive event }
    ensures few { (lines : List Placed) → is_many_of lines result ≡ false }
{
    match event {
        Event::Turn { hart, .. } => Directive::Turn { hart },
        Event::Lines { hart, .. } => Directive::Lines { hart },
    }
}

impl Directives {
    fn new(alloc: Global) -> Directives
        ensures { result ≡ [] }
    {
        Directives {
            items: Vec::new(alloc),
            amounts: Amounts::new(),
        }
    }

    // Whether a directive takes more than is left.
    #[tactic(auto, unfolding(crate::specs::JobOf::is_many))]
    fn is_many(&self, what: &Directive) -> bool
        ensures { result ≡ is_many_of self.now what.now }
    {
        match taken_by(what) {
            Some(share) => {
                share.amount > (share.of.limit() - self.amounts.of(share.of)) as usize
            }
            None => false,
        }
    }

    // Appends a directive that does not take more than is left.
    fn push(&mut self, line: u32, what: Directive) -> Result<(), AllocError>
        requires { is_many_of self.old what ≡ false }
        ensures { OnOk result (self.new ≡ lines_with self.old line what) }
    {
        let taken = taken_by(&what);
        self.items.push(Placed { line, what })?;
        self.amounts.add(taken);
        Ok(())
    }

    fn into_items(self) -> Items<Placed>
        ensures { result ≡ self }
    {
        Items::new(self.items)
    }
}

/// What the lines of a text have so far: which form it has, the pages of the storage, the number of harts where a line
/// gave it, the directives, and the schedule.
#[derive(Drop)]
pub(crate) struct Draft {
    pub version: JobVersion,
    pub pages: u32,
    pub harts: Option<u32>,
    pub lines: Directives,
    pub recording: Recording,
}

impl Draft {
    /// Nothing but the form of a text and its storage.
    pub fn new(alloc: Global, version: JobVersion, pages: u32) -> Draft
        ensures { result ≡ draft_of version pages }
    {
        Draft {
            version,
            pages,
            harts: None,
            lines: Directives::new(alloc),
            recording: Recording::new(alloc),
        }
    }

    /// The job of all directives, and of the commands behind them.
    pub fn into_job(self, commands: Items<DebugLine>) -> Job
        ensures { result ≡ job_in self commands }
    {
        Job {
            pages: self.pages,
            harts: self.harts.unwrap_or(1),
            lines: self.lines.into_items(),
            recording: self.recording,
            commands,
        }
    }

    /// Appends a directive.
    #[tactic(auto, unfolding(crate::specs::JobOf::directive_with))]
    pub fn place(&mut self, line: u32, what: Directive) -> Result<(), JobLineEnd>
        ensures { Makes result (directive_with self.old line what) self.new }
    {
        if self.lines.is_many(&what) {
            return Err(JobLineEnd::Fault(JobKind::Many));
        }
        self.lines.push(line, what)?;
        Ok(())
    }

    /// Appends an event of the schedule, and the directive beside it.
    #[tactic(auto, unfolding(crate::specs::JobOf::schedule_with))]
    pub fn schedule(&mut self, line: u32, event: Event) -> Result<(), JobLineEnd>
        ensures { Makes result (schedule_with self.old line event) self.new }
    {
        match self.recording.push(event) {
            Ok(()) => {}
            Err(PushEnd::Memory) => return Err(JobLineEnd::Memory),
            Err(PushEnd::Many) => return Err(JobLineEnd::Fault(JobKind::Many)),
            Err(_) => return Err(JobLineEnd::Fault(JobKind::Range)),
        }
        self.lines.push(line, directive_beside(event))?;
        Ok(())
    }

    /// Sets the number of harts, which one line may give.
    pub fn set_harts(&mut self, harts: u32) -> Result<(), JobLineEnd>
        ensures { Makes result (harts_with self.old harts self.old.harts) self.new }
    {
        if self.harts.is_some() {
            return Err(JobLineEnd::Fault(JobKind::Repeat));
        }
        self.harts = Some(harts);
        Ok(())
    }

    /// Appends the words of a sample.
    pub fn add_sample(
        &mut self,
        alloc: Global,
        line: u32,
        name: Name,
        at: u32,
        which: Sample,
    ) -> Result<(), JobLineEnd>
        requires { at % 4 ≡ 0 }
        ensures { Makes result (sample_with self.old line name at (asm_of (sample_text which) at)) self.new }
    {
        match assemble(alloc, sample(which).as_bytes(), at) {
            Ok(image) => self.place(line, Directive::Sample { name, image }),
            Err(AsmEnd::AsmFault { .. }) => Err(JobLineEnd::Fault(JobKind::Range)),
            Err(AsmEnd::Memory) => Err(JobLineEnd::Memory),
        }
    }
}
