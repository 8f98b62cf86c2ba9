//! A job while it is built: the directives in the order of their lines, the commands of the debugger, and last the
//! watches.

ghost use Rattle.std.specs.Prelude.{◌≡◌, ◌%◌, ◌<◌, ◌≤◌, ◌^◌, ◌⊎◌, IfOk, OnOk, length, map};
ghost use Rattle.hv_limits.specs.Limits.{depth_limit, harts_limit, pages_limit};
ghost use Rattle.hv_load.specs.Answers.{Leaves, Passes};
ghost use Rattle.hv_load.specs.Building.{nothing_built};
ghost use Rattle.hv_load.specs.Build.{top_of, GivesStart, can_watch as can_watch_of, command_fault as command_fault_of, command_of, done_of, end_of, finish_of, named_of, part_of, parts_of, towered_of, watch_asked, watch_fault as watch_fault_of};
ghost use Rattle.hv_load.specs.Directives.{dump_of, event_of, hart_of, image_of as image_done, machine_of, made_in, mapped_of, started_of, upgraded_of, watch_of, words_of};
ghost use Rattle.hv_line.specs.JobLimits.{job_machines};
ghost use Rattle.hv_line.specs.Ranges.{IsRanged, IsSize};
ghost use Rattle.hv_map.specs.Chain.{map_of};
ghost use Rattle.hv_samples.specs.declared.choice.Sample.TheVariants.{Pass, Forward};

use crate::ends::{BuildEnd, BuildKind};
use crate::finding::{Finding, is_free, mark_image, put_values};
use crate::levels::{level_name, name, tower};
use crate::making::{Layout, take};
use crate::pages::{block_of, parent_writes, place, table_word};
use crate::parts::{DirectiveEnd, Entry, Mark, PlacedWatch, known, known_inside, named};
use crate::start::{Dump, Named, Plan, Start};
use hv_apart::upgrade;
use hv_asm::Image;
use hv_cpu::reset;
use hv_job::{DebugCommand, DebugLine, Directive, Name, Placed};
use hv_limits::{DEPTH, PAGES};
use hv_line::JOB_MACHINES;
use hv_list::Items;
use hv_map::{Path, Watch, pin};
use hv_nest::Harts;
use hv_samples::Sample;
use hv_store::Store;
use std::alloc::{AllocError, Global};
use std::marker::Model;

/// What a job has come to so far.
#[derive(Drop)]
pub(crate) struct Builder {
    pub(crate) store: Store,
    pub(crate) marks: Vec<Mark>,
    pub(crate) names: Vec<Entry>,
    pub(crate) machines: u32,
    pub(crate) towered: bool,
    pub(crate) harts: Harts,
    pub(crate) watches: Vec<PlacedWatch>,
    pub(crate) dumps: Vec<Dump>,
}

impl Model for Builder {
    ghost use Rattle.std.specs.Prelude.{◌≡◌, ◌*◌, length};
    ghost use Rattle.hv_load.specs.Building.{Building};

    ghost Value = { Building };

    ghost view = { λ b. record {
      storage = b.store;
      marks = b.marks.items;
      names = b.names.items;
      machines = b.machines;
      towered = b.towered;
      harts = b.harts;
      watches = b.watches.items;
      dumps = b.dumps.items;
    } };

    ghost invariant = { λ b. length b.store ≡ 1024 * length b.marks.items };
}

impl Builder {
    /// A job of which nothing is built yet.
    pub(crate) fn new(alloc: Global, pages: u32, harts: u32) -> Result<Builder, AllocError>
        requires some { 1 ≤ pages }
        requires bound { pages ≤ pages_limit }
        requires harts { 1 ≤ harts }
        requires few { harts ≤ harts_limit }
        ensures { IfOk result (λ b. b ≡ nothing_built pages harts) }
    {
        let mut names = Vec::new(alloc);
        names.push(Entry {
            name: name(b"root"),
            path: Path::new(),
            pages,
        })?;
        Ok(Builder {
            store: Store::new(alloc, pages)?,
            marks: vec![in alloc; Mark::Free; pages as usize]?,
            names,
            machines: 0,
            towered: false,
            harts: Harts::new(harts),
            watches: Vec::new(alloc),
            dumps: Vec::new(alloc),
        })
    }

    /// One directive.
    pub(crate) fn line(
        &mut self,
        alloc: Global,
        line: u32,
        what: &Directive,
    ) -> Result<(), DirectiveEnd>
        requires { IsRanged what.now }
        ensures { Leaves result self.new (done_of self.old line what.now) }
    {
        match what {
            Directive::Hart { hart, pc } => self.hart(*hart, *pc),
            Directive::Machine {
                name,
                parent,
                block,
                pages,
                table,
                at,
            } => self.machine(
                alloc,
                name,
                parent,
                Layout {
                    block: *block,
                    pages: *pages,
                    table: *table,
                    at: *at,
                },
            ),
            Directive::Map { name, page, entry } => self.map(name, *page, *entry),
            Directive::Upgrade { name, dir } => self.upgrade(name, *dir),
            Directive::Start { name, pc } => self.start(name, *pc),
            Directive::Image { name, image } | Directive::Sample { name, image } => {
                self.image(alloc, name, image)
            }
            Directive::Word { name, at, values } => {
                self.words(alloc, name, *at, values.as_slice())
            }
            Directive::Tower {
                depth,
                pages,
                which,
            } => self.tower(alloc, line, *depth, *pages, *which),
            Directive::Turn { hart } | Directive::Lines { hart } => self.event(*hart),
            Directive::Watch { hart, name } => self.watch(line, *hart, name),
            Directive::Dump { name, page } => self.dump(name, *page),
        }
    }

    // Machines inside one another.
    fn tower(
        &mut self,
        alloc: Global,
        line: u32,
        depth: u32,
        pages: u32,
        which: Sample,
    ) -> Result<(), DirectiveEnd>
        requires depth { depth ≤ depth_limit }
        requires pages { IsSize pages }
        requires which { (which ≡ Pass) ⊎ (which ≡ Forward) }
        ensures { Leaves result self.new (towered_of self.old line depth pages which) }
    {
        if self.towered || named(&name(b"top"), self.names.as_slice()).is_some() {
            return Err(BuildKind::Repeat)?;
        }
        let parts = tower(alloc, depth, pages, which, line)?;
        self.parts(alloc, parts.as_slice())?;
        self.top(depth)
    }

    // The parts of a tower in order.
    fn parts(&mut self, alloc: Global, parts: &[Placed]) -> Result<(), DirectiveEnd>
        ensures { Leaves result self.new (parts_of self.old parts.now) }
    {
        for placed in parts {
            self.part(alloc, &placed.what)?;
        }
        Ok(())
    }

    // A part of a tower, which is a machine or a sample.
    fn part(&mut self, alloc: Global, what: &Directive) -> Result<(), DirectiveEnd>
        ensures { Leaves result self.new (part_of self.old what.now) }
    {
        match what {
            Directive::Machine {
                name,
                parent,
                block,
                pages,
                table,
                at,
            } => self.machine(
                alloc,
                name,
                parent,
                Layout {
                    block: *block,
                    pages: *pages,
                    table: *table,
                    at: *at,
                },
            ),
            Directive::Sample { name, image } => self.image(alloc, name, image),
            _ => Ok(()),
        }
    }

    /// The program counter of a hart.
    pub(crate) fn hart(&mut self, hart: u32, pc: u32) -> Result<(), DirectiveEnd>
        requires { pc % 4 ≡ 0 }
        ensures { Leaves result self.new (hart_of self.old hart pc) }
    {
        self.event(hart)?;
        let mut cpu = reset();
        cpu.pc = pc;
        self.harts.put(hart, &cpu);
        Ok(())
    }

    /// A turn or a change of lines of a hart.
    pub(crate) fn event(&self, hart: u32) -> Result<(), DirectiveEnd>
        ensures done { Leaves result self.now (event_of self.now hart) }
        ensures hart { OnOk result (hart < length self.now.harts) }
    {
        if hart >= self.harts.count() {
            return Err(BuildKind::Hart)?;
        }
        Ok(())
    }

    /// A machine in another.
    pub(crate) fn machine(
        &mut self,
        alloc: Global,
        name: &Name,
        parent: &Name,
        layout: Layout,
    ) -> Result<(), DirectiveEnd>
        ensures { Leaves result self.new
            (machine_of self.old name.now parent.now layout.block layout.pages layout.table layout.at) }
    {
        if self.machines >= JOB_MACHINES {
            return Err(BuildKind::Many)?;
        }
        let parent = known(parent, self.names.as_slice())?;
        self.make(alloc, name, &parent, layout)
    }

    // The same where the parent is known.
    fn make(
        &mut self,
        alloc: Global,
        name: &Name,
        parent: &Entry,
        layout: Layout,
    ) -> Result<(), DirectiveEnd>
        requires { self.old.machines < job_machines }
        ensures { Leaves result self.new
            (made_in self.old name.now parent.now layout.block layout.pages layout.table layout.at) }
    {
        if parent.path.len() >= DEPTH as u32 {
            return Err(BuildKind::Depth)?;
        }
        if named(name, self.names.as_slice()).is_some() {
            return Err(BuildKind::Repeat)?;
        }
        if layout.is_outside(parent.pages) {
            return Err(BuildKind::Outside)?;
        }
        let Some(chain) = pin(&self.store, &parent.path) else {
            return Err(BuildKind::Absent)?;
        };
        let taken = layout.taken(alloc, &self.store, &chain)?;
        take(&mut self.marks, taken.as_slice())?;
        layout.write(&mut self.store, taken.as_slice());
        let mut path = parent.path.copied();
        path.push(layout.block);
        self.names.push(Entry {
            name: name.copied(),
            path,
            pages: layout.pages,
        })?;
        self.machines += 1;
        Ok(())
    }

    /// The entry of a page in a machine's map.
    pub(crate) fn map(&mut self, name: &Name, page: u32, entry: u32) -> Result<(), DirectiveEnd>
        requires { page < 2 ^ 20 }
        ensures { Leaves result self.new (mapped_of self.old name.now page entry) }
    {
        let machine = known_inside(name, self.names.as_slice())?;
        if page >= machine.pages {
            return Err(BuildKind::Outside)?;
        }
        let place = table_word(&self.store, &machine.path, page)?;
        self.store.put(place, entry);
        Ok(())
    }

    /// A directory for a machine, on page `dir` of its parent, and version 2.
    pub(crate) fn upgrade(&mut self, name: &Name, dir: u32) -> Result<(), DirectiveEnd>
        ensures { Leaves result self.new (upgraded_of self.old name.now dir) }
    {
        let machine = known_inside(name, self.names.as_slice())?;
        let Some(chain) = pin(&self.store, &machine.path) else {
            return Err(BuildKind::Absent)?;
        };
        if chain.pages(&self.store) > PAGES {
            return Err(BuildKind::Absent)?;
        }
        let directory = parent_writes(&self.store, &machine.path, dir);
        upgrade(&mut self.store, &chain, dir)?;
        let mark = &mut self.marks[directory? as usize];
        if !is_free(*mark) {
            return Err(BuildKind::Overlap)?;
        }
        *mark = Mark::Control;
        Ok(())
    }

    /// The program counter of a machine.
    pub(crate) fn start(&mut self, name: &Name, pc: u32) -> Result<(), DirectiveEnd>
        ensures { Leaves result self.new (started_of self.old name.now pc) }
    {
        let machine = known_inside(name, self.names.as_slice())?;
        let host = block_of(&self.store, &machine.path)?;
        let at = place(&self.store, host, 0);
        self.store.put(at, pc);
        Ok(())
    }

    /// Words from an address of a machine on.
    pub(crate) fn words(
        &mut self,
        alloc: Global,
        name: &Name,
        at: u32,
        values: &[u32],
    ) -> Result<(), DirectiveEnd>
        ensures { Leaves result self.new (words_of self.old name.now at values.now) }
    {
        let machine = known(name, self.names.as_slice())?;
        let finding = Finding {
            store: &self.store,
            marks: self.marks.as_slice(),
            chain: pin(&self.store, &machine.path),
            limit: machine.pages,
            free: false,
        };
        let places = finding.places(alloc, at / 4, values.len())?;
        put_values(&mut self.store, places.as_slice(), values);
        Ok(())
    }

    /// The words of an image, in bare pages that are free before.
    pub(crate) fn image(
        &mut self,
        alloc: Global,
        name: &Name,
        image: &Image,
    ) -> Result<(), DirectiveEnd>
        ensures { Leaves result self.new (image_done self.old name.now image.now) }
    {
        let machine = known(name, self.names.as_slice())?;
        let words = image.words.as_slice();
        let finding = Finding {
            store: &self.store,
            marks: self.marks.as_slice(),
            chain: pin(&self.store, &machine.path),
            limit: machine.pages,
            free: true,
        };
        let places = finding.places(alloc, image.base / 4, words.len())?;
        put_values(&mut self.store, places.as_slice(), words);
        mark_image(&mut self.marks, places.as_slice());
        Ok(())
    }

    /// A watch on a machine, as a hart runs it.
    pub(crate) fn watch(&mut self, line: u32, hart: u32, name: &Name) -> Result<(), DirectiveEnd>
        ensures { Leaves result self.new (watch_of self.old line hart name.now) }
    {
        self.event(hart)?;
        let machine = known(name, self.names.as_slice())?;
        if machine.path.as_slice().is_empty() && self.harts.count() > 1 {
            return Err(BuildKind::Watch)?;
        }
        let path = machine.path.copied();
        self.watches.push(PlacedWatch {
            line,
            watch: Watch { hart, path },
        })?;
        Ok(())
    }

    /// A page of a machine, to be shown at the end.
    pub(crate) fn dump(&mut self, name: &Name, page: u32) -> Result<(), DirectiveEnd>
        ensures { Leaves result self.new (dump_of self.old name.now page) }
    {
        let machine = known(name, self.names.as_slice())?;
        self.dumps.push(Dump {
            name: name.copied(),
            path: machine.path.copied(),
            page,
        })?;
        Ok(())
    }

    /// The machine at the top of a tower gets the name `top` too.
    pub(crate) fn top(&mut self, depth: u32) -> Result<(), DirectiveEnd>
        requires { depth ≤ depth_limit }
        ensures { Leaves result self.new (top_of self.old depth) }
    {
        let machine = known(&level_name(depth), self.names.as_slice())?;
        self.names.push(Entry {
            name: name(b"top"),
            path: machine.path.copied(),
            pages: machine.pages,
        })?;
        self.towered = true;
        Ok(())
    }

    /// The start, if each command of the debugger names a machine or a hart that is there, and everything can be watched
    /// that is asked for.
    pub(crate) fn end(self, alloc: Global, commands: &[DebugLine]) -> Result<Start, BuildEnd>
        ensures { GivesStart result (end_of commands.now self) }
    {
        if let Some((line, kind)) = self.command_fault(commands) {
            return Err(BuildEnd::BuildFault { line, kind });
        }
        self.finish(alloc)
    }

    // The first command that is refused, and why.
    #[tactic(auto, using(crate::proofs::Doing::commands))]
    fn command_fault(&self, commands: &[DebugLine]) -> Option<(u32, BuildKind)>
        ensures { result ≡ command_fault_of self.now commands.now }
    {
        for command in commands {
            if let Err(kind) = self.command(&command.what) {
                return Some((command.line, kind));
            }
        }
        None
    }

    // Whether a command names a machine or a hart that is there.
    fn command(&self, what: &DebugCommand) -> Result<(), BuildKind>
        ensures { Passes result self.now (command_of self.now what.now) }
    {
        match what {
            DebugCommand::Step { .. } | DebugCommand::Faults => Ok(()),
            DebugCommand::Break { name, .. }
            | DebugCommand::Regs { name }
            | DebugCommand::Mem { name, .. }
            | DebugCommand::Map { name, .. } => {
                known(name, self.names.as_slice())?;
                Ok(())
            }
            DebugCommand::Path { hart } => {
                if *hart >= self.harts.count() {
                    return Err(BuildKind::Hart);
                }
                Ok(())
            }
        }
    }

    // The start, if everything can be watched that is asked for.
    fn finish(self, alloc: Global) -> Result<Start, BuildEnd>
        ensures { GivesStart result (finish_of self) }
    {
        if let Some(line) = watch_fault(&self.store, self.watches.as_slice()) {
            return Err(BuildEnd::BuildFault {
                line,
                kind: BuildKind::Watch,
            });
        }
        let plan = plan(alloc, self.names, self.watches, self.dumps)?;
        Ok(Start {
            store: self.store,
            harts: self.harts,
            plan,
        })
    }
}

// The first line whose watch can't be.
#[tactic(auto, using(crate::proofs::Lists::lists))]
fn watch_fault(store: &Store, watches: &[PlacedWatch]) -> Option<u32>
    ensures { result ≡ watch_fault_of store.now watches.now }
{
    for asked in watches {
        if !can_watch(store, &asked.watch.path) {
            return Some(asked.line);
        }
    }
    None
}

// Whether the machine on a path can be watched.
fn can_watch(store: &Store, path: &Path) -> bool
    ensures { result ≡ can_watch_of (map_of store.now path.now) }
{
    match pin(store, path) {
        Some(chain) => chain.pages(store) <= PAGES,
        None => false,
    }
}

// The names, the watches and the dumps.
fn plan(
    alloc: Global,
    names: Vec<Entry>,
    watches: Vec<PlacedWatch>,
    dumps: Vec<Dump>,
) -> Result<Plan, AllocError>
    ensures { IfOk result (λ plan. plan ≡ record {
      names = map named_of names.items;
      watches = map watch_asked watches.items;
      dumps = dumps.items;
    }) }
{
    Ok(Plan {
        names: Items::new(named_machines(alloc, names)?),
        watches: Items::new(watched_machines(alloc, watches)?),
        dumps: Items::new(dumps),
    })
}

// The machines without their pages.
fn named_machines(alloc: Global, names: Vec<Entry>) -> Result<Vec<Named>, AllocError>
    ensures { IfOk result (λ named. named.items ≡ map named_of names.items) }
{
    names
        .into_iter()
        .map(|entry| Named {
            name: entry.name,
            path: entry.path,
        })
        .collect(alloc)
}

// The watches without their lines.
fn watched_machines(alloc: Global, watches: Vec<PlacedWatch>) -> Result<Vec<Watch>, AllocError>
    ensures { IfOk result (λ watched. watched.items ≡ map watch_asked watches.items) }
{
    watches.into_iter().map(|asked| asked.watch).collect(alloc)
}
