//! Playing a schedule step by step.

ghost use Rattle.std.specs.Prelude.{length};
ghost use Rattle.hv_debug.specs.Reaching.{Advances, CanGo, Halts};

use crate::counter::is_stopped;
use crate::cursor::{Cursor, Next};
use crate::stop::{Break, Stop};
use hv_nest::Nested;
use hv_run::Play;

/// A schedule that is played step by step: the play so far, what is left, and how many steps were made.
#[derive(Drop)]
pub(crate) struct Player<'a> {
    pub(crate) play: Play,
    pub(crate) cursor: Cursor<'a>,
    pub(crate) steps: u64,
}

impl<'a> Player<'a> {
    /// Makes up to `count` steps, each with the changes of lines before it, and answers why they ended. A breakpoint stops
    /// before every step but the first.
    pub(crate) fn play_on<N: Nested>(
        &mut self,
        nested: &mut N,
        breaks: &[Break],
        count: u32,
    ) -> Stop
        requires { CanGo (length (N.state nested.old).harts) self.old }
        ensures can { CanGo (length (N.state nested.new).harts) self.new }
        ensures halts { Halts breaks.now count self.old (N.state nested.old) self.new (N.state nested.new) result }
    {
        let mut first = true;
        for _step in 0..count {
            let Some(hart) = self.cursor.next_hart() else {
                return Stop::AtEnd;
            };
            if is_stopped(nested, breaks, first, hart) {
                return Stop::AtBreak;
            }
            self.advance(nested);
            first = false;
        }
        Stop::Done
    }

    // Makes the next step, with the changes of lines before it.
    fn advance<N: Nested>(&mut self, nested: &mut N)
        requires { CanGo (length (N.state nested.old).harts) self.old }
        ensures can { CanGo (length (N.state nested.new).harts) self.new }
        ensures advances { Advances self.old (N.state nested.old) self.new (N.state nested.new) }
    {
        while let Some(next) = self.cursor.pop() {
            match next {
                Next::Lines { hart, mask } => self.play.lines(nested, hart, mask),
                Next::Step { hart } => {
                    self.play.turn(nested, hart);
                    self.steps += 1;
                    return;
                }
            }
        }
    }
}
