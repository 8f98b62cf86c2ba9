//! The bare places of the words of one line.

ghost use Rattle.std.specs.Prelude.{◌≡◌, ◌<◌, ◌*◌, ◌-◌, ◌/◌, All, IfOk, IfSome, Ok, length, map};
ghost use Rattle.hv_word.specs.Storage.{page_count};
ghost use Rattle.hv_load.specs.Answers.{AnswersList};
ghost use Rattle.hv_load.specs.Finding.{found_by};
ghost use Rattle.hv_load.specs.Pages.{each_from, is_free as is_free_of, marked, page_at, place_by, with_values};
ghost use Rattle.hv_load.specs.declared.parts.Mark.TheVariants.{Image};

use crate::ends::BuildKind;
use crate::pages::{place, reads};
use crate::parts::{DirectiveEnd, Mark};
use hv_map::Chain;
use hv_store::Store;
use std::alloc::Global;

/// Where the words of one machine are looked for: in the storage and the marks as they are, along the machine's chain, if it
/// has one, on its first `limit` pages, and if need be in free bare pages alone.
#[derive(Drop)]
pub(crate) struct Finding<'a> {
    pub(crate) store: &'a Store,
    pub(crate) marks: &'a [Mark],
    pub(crate) chain: Option<Chain>,
    pub(crate) limit: u32,
    pub(crate) free: bool,
}

impl Finding<'_> {
    // The bare page of a page of the machine.
    fn page(&self, page: u64) -> Result<u32, BuildKind>
        requires { length self.now.marks.now ≡ page_count self.now.store.now }
        ensures page { result ≡ found_by self.now.store.now self.now.marks.now self.now.chain self.now.limit self.now.free page }
        ensures within { IfOk result (λ g. g < page_count self.now.store.now) }
    {
        if page >= u64::from(self.limit) {
            return Err(BuildKind::Outside);
        }
        let Some(chain) = &self.chain else {
            return Err(BuildKind::Absent);
        };
        let host = reads(self.store, chain, page)?;
        if self.free && !is_free(self.marks[host as usize]) {
            return Err(BuildKind::Overlap);
        }
        Ok(host)
    }

    /// The places of `count` words from word `first` of the machine on. A page is looked up once.
    pub(crate) fn places(
        &self,
        alloc: Global,
        first: u32,
        count: usize,
    ) -> Result<Vec<u32>, DirectiveEnd>
        requires { length self.now.marks.now ≡ page_count self.now.store.now }
        ensures places { AnswersList result
            (each_from (place_by (found_by self.now.store.now self.now.marks.now self.now.chain self.now.limit self.now.free)) first count) }
        ensures count { IfOk result (λ places. length places.items ≡ count) }
        ensures within { IfOk result (λ places. All (λ place. place < length self.now.store.now) places.items) }
    {
        let mut places = Vec::with_capacity(alloc, count)?;
        let mut held = None;
        for i in 0..count {
            let word = u64::from(first) + i as u64;
            let host = self.page_after(held, word)?;
            places.push(place(self.store, host, (word % 1024) as u32))?;
            held = Some(host);
        }
        Ok(places)
    }

    // The bare page of a word of the machine, where that of the word before it may be held.
    fn page_after(&self, held: Option<u32>, word: u64) -> Result<u32, BuildKind>
        requires marks { length self.now.marks.now ≡ page_count self.now.store.now }
        requires held { IfSome held (λ g. Ok g
            ≡ found_by self.now.store.now self.now.marks.now self.now.chain self.now.limit self.now.free ((word - 1) / 1024)) }
        requires within { IfSome held (λ g. g < page_count self.now.store.now) }
        ensures page { result
            ≡ found_by self.now.store.now self.now.marks.now self.now.chain self.now.limit self.now.free (word / 1024) }
        ensures within { IfOk result (λ g. g < page_count self.now.store.now) }
    {
        match held {
            Some(host) if word % 1024 != 0 => Ok(host),
            _ => self.page(word / 1024),
        }
    }
}

/// Whether a bare page was given to nothing yet.
pub(crate) fn is_free(mark: Mark) -> bool
    ensures { result ≡ is_free_of mark }
{
    mark == Mark::Free
}

/// Writes values to places, one after another.
#[tactic(auto, using(crate::proofs::Lists::lists))]
pub(crate) fn put_values(store: &mut Store, places: &[u32], values: &[u32])
    requires count { length places.now ≡ length values.now }
    requires within { All (λ place. place < length store.old) places.now }
    ensures values { store.new ≡ with_values store.old places.now values.now }
    ensures len { length store.new ≡ length store.old }
{
    for (i, place) in places.iter().enumerate() {
        store.put(*place, values[i]);
    }
}

/// Gives the bare pages of these places to an image.
#[tactic(auto, using(crate::proofs::Lists::lists))]
pub(crate) fn mark_image(marks: &mut Vec<Mark>, places: &[u32])
    requires { All (λ place. place < 1024 * length marks.old.items) places.now }
    ensures marks { marks.new.items ≡ marked Image (map page_at places.now) marks.old.items }
    ensures len { length marks.new.items ≡ length marks.old.items }
{
    for place in places {
        marks[*place as usize / 1024] = Mark::Image;
    }
}
