//! Counting how many table words are read.

ghost use Rattle.std.specs.Prelude.{◌≡◌, ◌+◌, ◌<◌, length, slice_index};

use crate::store::Store;
use std::marker::Model;
use std::sync::ledger::{Blank, Book, Ledger, Share};

/// How many table words were read by `Store::map_word`. It takes no bytes, and counting costs nothing at run time.
#[derive(Drop)]
pub struct Steps<L: Ledger> {
    book: Book<L>,
    share: Share<L>,
}

impl<L: Ledger> Model for Steps<L> {
    ghost use Rattle.std.specs.Prelude.{ℕ, ◌<◌};

    ghost Value = { ℕ };

    ghost view = { λ s. s.book.total };

    ghost invariant = { λ s. 0 < s.share.parts };
}

impl<L: Ledger> Steps<L> {
    /// A count that begins at 0, from a new ledger, as `Blank::new(1)`.
    pub fn new(blank: Blank) -> Steps<L>
        requires name { blank.name ≡ L.name }
        requires parts { blank.parts ≡ L.parts }
        requires some { 0 < blank.parts }
        ensures { result ≡ 0 }
    {
        let (book, share) = blank.open();
        Steps { book, share }
    }

    // Private, so that a step is a word read by `map_word` and nothing else.
    fn tick(&mut self)
        ensures { self.new ≡ self.old + 1 }
    {
        self.book.add(&mut self.share, 1);
    }
}

impl Store {
    /// The word at a place, counted from 0, as `get` answers it; one step.
    pub fn map_word<L: Ledger>(&self, at: u32, steps: &mut Steps<L>) -> u32
        requires { at < length self.now }
        ensures word { result ≡ slice_index self.now at }
        ensures step { steps.new ≡ steps.old + 1 }
    {
        steps.tick();
        self.get(at)
    }
}
