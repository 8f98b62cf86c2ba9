//! What one word of a line can be.

ghost use Rattle.std.specs.Prelude.{◌≡◌, ◌^◌, ◌<◌, ◌≤◌, IfOk};
ghost use Rattle.std.specs.Str.{bytes_eq};
ghost use Rattle.hv_line.specs.Statements.{access as access_of, address as address_of, any_sample as any_sample_of, between as between_of, fixed as fixed_of, hart as hart_of, inner as inner_of, later_page as later_page_of, mask as mask_of, named as named_of, number as number_of, numbers as numbers_of, page as page_of, pages as pages_of, wide_access as wide_access_of};
ghost use Rattle.hv_line.specs.Answers.{GivesLine};
ghost use Rattle.hv_line.specs.JobLimits.{depth_in};
ghost use Rattle.hv_line.specs.Texts.{texts};

use crate::kinds::{JobKind, JobLineEnd};
use crate::name::Name;
use crate::version::JobVersion;
use hv_lex::read_number;
use hv_limits::{LINES, PAGES};
use hv_list::Items;
use hv_samples::Sample;
use std::alloc::Global;

/// The last page that a machine may have.
const LAST_PAGE: u32 = 0xf_ffff;

/// Whether a word is this text.
pub(crate) fn is(word: &[u8], text: &[u8]) -> bool
    ensures { result ≡ bytes_eq word.now text.now }
{
    word == text
}

/// Refuses a word that isn't this text.
#[tactic(auto, unfolding(crate::specs::Statements::fixed))]
pub(crate) fn fixed(text: &[u8], word: &[u8]) -> Result<(), JobKind>
    ensures { result ≡ fixed_of text.now word.now }
{
    if is(word, text) {
        Ok(())
    } else {
        Err(JobKind::Words)
    }
}

/// The name that a word is.
#[tactic(auto, unfolding(crate::specs::Statements::named))]
pub(crate) fn named(word: &[u8]) -> Result<Name, JobKind>
    ensures { result ≡ named_of word.now }
{
    match Name::read(word) {
        Some(name) => Ok(name),
        None => Err(JobKind::Name),
    }
}

/// The number that a word is.
#[tactic(auto, unfolding(crate::specs::Statements::number))]
pub(crate) fn number(word: &[u8]) -> Result<u32, JobKind>
    ensures { result ≡ number_of word.now }
{
    match read_number(word) {
        Some(n) => Ok(n),
        None => Err(JobKind::Number),
    }
}

/// The number from `low` to `high` that a word is.
#[tactic(auto, unfolding(crate::specs::Statements::between))]
pub(crate) fn between(low: u32, high: u32, word: &[u8]) -> Result<u32, JobKind>
    ensures value { result ≡ between_of low high word.now }
    ensures most { IfOk result (λ n. n ≤ high) }
{
    let n = number(word)?;
    if low <= n && n <= high {
        Ok(n)
    } else {
        Err(JobKind::Range)
    }
}

/// The address of a word, a multiple of 4.
#[tactic(auto, unfolding(crate::specs::Statements::address))]
pub(crate) fn address(word: &[u8]) -> Result<u32, JobKind>
    ensures { result ≡ address_of word.now }
{
    let n = number(word)?;
    if n % 4 == 0 {
        Ok(n)
    } else {
        Err(JobKind::Range)
    }
}

/// A mask of the lines from outside.
#[tactic(auto, unfolding(crate::specs::Statements::mask))]
pub(crate) fn mask(word: &[u8]) -> Result<u32, JobKind>
    ensures { result ≡ mask_of word.now }
{
    let n = number(word)?;
    if n & LINES == n {
        Ok(n)
    } else {
        Err(JobKind::Range)
    }
}

/// The number of a hart.
pub(crate) fn hart(version: JobVersion, word: &[u8]) -> Result<u32, JobKind>
    ensures { result ≡ hart_of version word.now }
{
    between(0, version.harts() - 1, word)
}

/// How many machines inside one another a line `tower` asks for.
pub(crate) fn depth(version: JobVersion, word: &[u8]) -> Result<u32, JobKind>
    ensures { result ≡ between_of 0 (depth_in version) word.now }
{
    between(0, version.depth(), word)
}

/// A page of a machine.
pub(crate) fn page(word: &[u8]) -> Result<u32, JobKind>
    ensures value { result ≡ page_of word.now }
    ensures small { IfOk result (λ n. n < 2 ^ 20) }
{
    between(0, LAST_PAGE, word)
}

/// A page of a machine that isn't its first.
pub(crate) fn later_page(word: &[u8]) -> Result<u32, JobKind>
    ensures { result ≡ later_page_of word.now }
{
    between(1, LAST_PAGE, word)
}

/// A number of pages.
pub(crate) fn pages(word: &[u8]) -> Result<u32, JobKind>
    ensures { result ≡ pages_of word.now }
{
    between(1, PAGES, word)
}

/// The access bits of an entry: 1 for `ro`, 3 for `rw`, and in a `job 2` also 5 for `rx`, 7 for `rwx`.
#[tactic(auto, unfolding(crate::specs::Statements::access))]
pub(crate) fn access(version: JobVersion, word: &[u8]) -> Result<u32, JobKind>
    ensures value { result ≡ access_of version word.now }
    ensures small { IfOk result (λ bits. bits < 8) }
{
    if is(word, b"ro") {
        Ok(1)
    } else if is(word, b"rw") {
        Ok(3)
    } else {
        wide_access(version, word)
    }
}

// The access bits of an entry that can be fetched from.
#[tactic(auto, unfolding(crate::specs::Statements::wide_access))]
fn wide_access(version: JobVersion, word: &[u8]) -> Result<u32, JobKind>
    ensures value { result ≡ wide_access_of version word.now }
    ensures small { IfOk result (λ bits. bits < 8) }
{
    match version {
        JobVersion::One => Err(JobKind::Words),
        JobVersion::Two if is(word, b"rx") => Ok(5),
        JobVersion::Two if is(word, b"rwx") => Ok(7),
        JobVersion::Two => Err(JobKind::Words),
    }
}

/// One of the samples that run the machine at page 1 and nothing else.
#[tactic(auto, unfolding(crate::specs::Statements::inner))]
pub(crate) fn inner(word: &[u8]) -> Result<Sample, JobKind>
    ensures { result ≡ inner_of word.now }
{
    if is(word, b"pass") {
        Ok(Sample::Pass)
    } else if is(word, b"forward") {
        Ok(Sample::Forward)
    } else {
        Err(JobKind::Words)
    }
}

/// One of all samples.
#[tactic(auto, unfolding(crate::specs::Statements::any_sample))]
pub(crate) fn any_sample(word: &[u8]) -> Result<Sample, JobKind>
    ensures { result ≡ any_sample_of word.now }
{
    if is(word, b"slicer") {
        Ok(Sample::Slicer)
    } else if is(word, b"pager") {
        Ok(Sample::Pager)
    } else {
        inner(word)
    }
}

/// The numbers that the words are.
pub(crate) fn numbers(alloc: Global, words: &[&[u8]]) -> Result<Items<u32>, JobLineEnd>
    ensures { GivesLine result (numbers_of (texts words.now)) }
{
    let mut numbers = Vec::new(alloc);
    for word in words {
        let number = number(word)?;
        numbers.push(number).map_err(|_| JobLineEnd::Memory)?;
    }
    Ok(Items::new(numbers))
}
