//! The commands of a debugger, one after another.

ghost use Rattle.std.specs.Prelude.{◌≡◌, ◌<◌, ◌++◌, All, IfOk, OnOk, codes, length};
ghost use Rattle.hv_irq.specs.Events.{IsSchedule, hart_of};
ghost use Rattle.hv_run.specs.Record.{schedule};
ghost use Rattle.hv_text.specs.Text.{line};
ghost use Rattle.hv_debug.specs.Answers.{path_named};
ghost use Rattle.hv_debug.specs.Reaching.{CanGo, Becomes, IsSession, StaysOnWay};
ghost use Rattle.hv_debug.specs.Transcript.{after_line, after_command, more_breaks, session_before, after_steps};

use crate::answers::{put_at, put_echo, put_faults, put_map, put_mem, put_regs, put_running};
use crate::cursor::Cursor;
use crate::machines::path_of;
use crate::player::Player;
use crate::stop::Break;
use hv_irq::Event;
use hv_job::{DebugCommand, DebugLine, Name};
use hv_load::Named;
use hv_nest::Nested;
use hv_run::Play;
use hv_text::put;
use std::alloc::{AllocError, Global};

/// A debugger: how far it has played the schedule, its breakpoints, and what it has written.
#[derive(Drop)]
pub(crate) struct Debugger<'a> {
    pub(crate) player: Player<'a>,
    pub(crate) breaks: Vec<Break>,
    pub(crate) out: Vec<u8>,
}

impl<'a> Debugger<'a> {
    /// A debugger that has played nothing yet.
    pub(crate) fn new<N: Nested>(
        alloc: Global,
        nested: &mut N,
        events: &'a [Event],
    ) -> Result<Debugger<'a>, AllocError>
        requires harts { All (λ event. hart_of event < length (N.state nested.old).harts) events.now }
        requires schedule { IsSchedule events.now }
        ensures can { IfOk result (λ d. CanGo (length (N.state nested.new).harts) d.player) }
        ensures session { IfOk result (λ d. IsSession (N.state nested.old) (schedule events.now) d (N.state nested.new) (session_before events.now)) }
        ensures same { N.state nested.new ≡ N.state nested.old }
    {
        let play = Play::new(alloc, nested, &[])?;
        let player = Player {
            play,
            cursor: Cursor::new(events),
            steps: 0,
        };
        Ok(Debugger {
            player,
            breaks: Vec::new(alloc),
            out: Vec::new(alloc),
        })
    }

    /// Does what a line asks for.
    pub(crate) fn line<N: Nested>(
        &mut self,
        alloc: Global,
        nested: &mut N,
        names: &[Named],
        line: &DebugLine,
    ) -> Result<(), AllocError>
        requires { CanGo (length (N.state nested.old).harts) self.old.player }
        ensures can { CanGo (length (N.state nested.new).harts) self.new.player }
        ensures goes { OnOk result (Becomes (λ start s. after_line start names.now s line.now) self.old (N.state nested.old) self.new (N.state nested.new)) }
        ensures way { StaysOnWay self.old (N.state nested.old) (N.state nested.new) }
    {
        put_echo(&mut self.out, line.words.as_slice())?;
        self.answer(alloc, nested, names, &line.what)
    }

    // Does what a command asks for, and writes the answer.
    fn answer<N: Nested>(
        &mut self,
        alloc: Global,
        nested: &mut N,
        names: &[Named],
        command: &DebugCommand,
    ) -> Result<(), AllocError>
        requires { CanGo (length (N.state nested.old).harts) self.old.player }
        ensures can { CanGo (length (N.state nested.new).harts) self.new.player }
        ensures goes { OnOk result (Becomes (λ start s. after_command start names.now s command.now) self.old (N.state nested.old) self.new (N.state nested.new)) }
        ensures way { StaysOnWay self.old (N.state nested.old) (N.state nested.new) }
    {
        match command {
            DebugCommand::Step { count } => self.step(nested, *count),
            DebugCommand::Break { name, at } => self.stop_at(names, name, *at),
            DebugCommand::Regs { name } => put_regs(alloc, &mut self.out, nested, names, name),
            DebugCommand::Mem { name, at } => {
                put_mem(&mut self.out, nested.parked(), names, name, *at)
            }
            DebugCommand::Path { hart } => put_running(&mut self.out, nested, *hart),
            DebugCommand::Map { name, page } => {
                put_map(&mut self.out, nested.parked(), names, name, *page)
            }
            DebugCommand::Faults => put_faults(alloc, &mut self.out, &self.player.play),
        }
    }

    // Makes steps, and writes where they ended.
    fn step<N: Nested>(&mut self, nested: &mut N, count: u32) -> Result<(), AllocError>
        requires { CanGo (length (N.state nested.old).harts) self.old.player }
        ensures can { CanGo (length (N.state nested.new).harts) self.new.player }
        ensures goes { OnOk result (Becomes (after_steps count) self.old (N.state nested.old) self.new (N.state nested.new)) }
        ensures way { StaysOnWay self.old (N.state nested.old) (N.state nested.new) }
    {
        let stop = self.player.play_on(nested, &self.breaks, count);
        put_at(&mut self.out, self.player.steps, stop)
    }

    // Keeps one more breakpoint, if there is such a machine.
    fn stop_at(&mut self, names: &[Named], name: &Name, at: u32) -> Result<(), AllocError>
        ensures player { self.new.player ≡ self.old.player }
        ensures breaks { OnOk result (self.new.breaks.items ≡ more_breaks self.old.breaks.items (path_named name.now names.now) at) }
        ensures text { OnOk result (self.new.out.items ≡ self.old.out.items ++ line (codes "ok")) }
    {
        if let Some(path) = path_of(names, name) {
            self.breaks.push(Break {
                path: path.copied(),
                at,
            })?;
        }
        put(&mut self.out, b"ok\n")
    }
}
