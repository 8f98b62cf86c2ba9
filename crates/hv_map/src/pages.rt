//! Lists of bare pages, each at most once.

ghost use Rattle.std.specs.Prelude.{◌≡◌};
ghost use Rattle.hv_word.specs.Words.{has};
ghost use Rattle.hv_map.specs.Gathered.{no_pages, with_page};

use std::marker::Model;

/// How many pages a list has room for.
pub const NOTED: usize = 255;

/// The bare pages of tables and directories that were read, in the order of first reading: the first `len` of `pages`, all
/// different. It is full where a further page was to be added and had no room.
#[derive(Drop)]
pub struct Pages {
    pub len: u32,
    pub pages: [u32; NOTED],
    pub full: bool,
}

impl Model for Pages {
    ghost use Rattle.std.specs.Prelude.{◌≡◌, ◌≤◌, ◌==◌, true, length, take};
    ghost use Rattle.std.specs.List.{IsDistinct};
    ghost use Rattle.hv_map.specs.Gathered.{Listed, listed_limit};

    ghost Value = { Listed };

    ghost view = { λ p. record { pages = take p.len p.pages; full = p.full } };

    ghost invariant = { λ p. (p.len ≤ listed_limit)
        × (length p.pages ≡ listed_limit)
        × IsDistinct (λ a b. a == b) (take p.len p.pages)
        × (p.full ≡ true → p.len ≡ listed_limit) };
}

impl Pages {
    /// A list without pages.
    pub fn new() -> Pages
        ensures { result ≡ no_pages }
    {
        Pages {
            len: 0,
            pages: [0; NOTED],
            full: false,
        }
    }

    /// The pages in order.
    pub fn as_slice(&self) -> &[u32]
        ensures { result.now ≡ self.now.pages }
    {
        &self.pages[..self.len as usize]
    }

    /// Whether a page is listed.
    pub fn contains(&self, page: u32) -> bool
        ensures { result ≡ has page self.now.pages }
    {
        self.as_slice().contains(&page)
    }

    /// Adds a page, where it isn't there yet; where there is no room for it, the list is full.
    pub fn add(&mut self, page: u32)
        ensures { self.new ≡ with_page self.old page }
    {
        if self.contains(page) {
            return;
        }
        if self.len as usize == NOTED {
            self.full = true;
            return;
        }
        self.pages[self.len as usize] = page;
        self.len += 1;
    }
}
