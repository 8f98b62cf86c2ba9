//! Telling whether pages are all different.

ghost use Rattle.std.specs.Prelude.{◌≡◌, ◌<◌, [], ◌∷◌, IfSome};
ghost use Rattle.std.specs.Option.{option_to_list};
ghost use Rattle.hv_limits.specs.Limits.{pages_limit};
ghost use Rattle.hv_apart.specs.Added.{Added, Tells};
ghost use Rattle.hv_apart.specs.Marked.{is_marked};

use crate::bits::{is_set, set};
use hv_limits::PAGES;

// A bit for each page.
const WORDS: usize = PAGES as usize / 32;

/// The bare pages that were added so far, and whether they are all different.
#[derive(Drop)]
pub struct Marks {
    words: [u32; WORDS],
    pub(crate) distinct: bool,
}

impl Marks {
    /// None so far.
    pub fn new() -> Marks
        ensures { Tells result [] }
    {
        Marks {
            words: [0; WORDS],
            distinct: true,
        }
    }

    /// Adds a bare page.
    pub fn add(&mut self, page: u32)
        requires { page < pages_limit }
        ensures { Added self.old self.new (page ∷ []) }
    {
        if set(&mut self.words, page) {
            self.distinct = false;
        }
    }

    /// Adds the page, if there is one.
    pub fn add_found(&mut self, page: Option<u32>)
        requires { IfSome page (λ g. g < pages_limit) }
        ensures { Added self.old self.new (option_to_list page) }
    {
        if let Some(page) = page {
            self.add(page);
        }
    }

    /// Whether the page was added.
    pub fn has(&self, page: u32) -> bool
        ensures { result ≡ is_marked self.now.words page }
    {
        is_set(&self.words, page)
    }
}
