//! What is left of a schedule.

ghost use Rattle.std.specs.Prelude.{◌≡◌};
ghost use Rattle.hv_run.specs.Record.{schedule};
ghost use Rattle.hv_debug.specs.Playing.{next_hart};
ghost use Rattle.hv_debug.specs.Reaching.{Takes, moves_left};

use hv_irq::Event;

/// One move of a schedule: a step of a hart, or a change of its interrupt lines.
#[derive(Clone, Copy, Debug)]
pub(crate) enum Next {
    Step { hart: u32 },
    Lines { hart: u32, mask: u32 },
}

/// What is left of a schedule: so many steps of a hart, and the events behind them.
#[derive(Drop)]
pub(crate) struct Cursor<'a> {
    pub(crate) hart: u32,
    pub(crate) left: u32,
    pub(crate) events: &'a [Event],
}

impl<'a> Cursor<'a> {
    /// All of a schedule.
    pub(crate) fn new(events: &'a [Event]) -> Cursor<'a>
        ensures { moves_left result ≡ schedule events.now }
    {
        Cursor {
            hart: 0,
            left: 0,
            events,
        }
    }

    /// The hart of the next step, if one is left.
    pub(crate) fn next_hart(&self) -> Option<u32>
        ensures { result ≡ next_hart (moves_left self.now) }
    {
        if self.left > 0 {
            Some(self.hart)
        } else {
            first_hart(self.events)
        }
    }

    /// Takes the next move, if one is left.
    pub(crate) fn pop(&mut self) -> Option<Next>
        ensures { Takes result (moves_left self.old) (moves_left self.new) }
    {
        while self.left == 0 {
            let Some((event, events)) = self.events.split_first() else {
                return None;
            };
            self.events = events;
            match *event {
                Event::Turn { hart, count } => {
                    self.hart = hart;
                    self.left = count;
                }
                Event::Lines { hart, mask } => return Some(Next::Lines { hart, mask }),
            }
        }
        self.left -= 1;
        Some(Next::Step { hart: self.hart })
    }
}

// The hart of the first step of the events.
fn first_hart(events: &[Event]) -> Option<u32>
    ensures { result ≡ next_hart (schedule events.now) }
{
    for event in events {
        if let Event::Turn { hart, count } = *event
            && count > 0
        {
            return Some(hart);
        }
    }
    None
}
