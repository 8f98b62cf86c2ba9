//! What a job has come to while it is built is made of these.

ghost use Rattle.std.specs.Prelude.{◌≡◌, ◌≤◌, IfOk, length, ◌-◌};
ghost use Rattle.hv_load.specs.Building.{known as known_of, known_inside as known_inside_of, named as named_in};
ghost use Rattle.hv_load.specs.Pages.{outer as outer_of};
ghost use Rattle.hv_limits.specs.Limits.{depth_limit};
ghost use Rattle.std.specs.Option.{option_copied};
ghost use Rattle.std.specs.Str.{bytes_eq};

use crate::ends::BuildKind;
use hv_apart::UpgradeEnd;
use hv_job::Name;
use hv_map::{Path, Watch};
use std::alloc::{AllocError, AllocFailed};
use std::marker::Model;

/// What a bare page was given to.
#[derive(Clone, Copy, Debug, PartialEq, Eq)]
pub(crate) enum Mark {
    /// Nothing yet.
    Free,
    /// A machine's block or its table.
    Control,
    /// The words of an image.
    Image,
}

/// A watch, and the number of the line that asks for it.
#[derive(Drop)]
pub(crate) struct PlacedWatch {
    pub(crate) line: u32,
    pub(crate) watch: Watch,
}

/// A machine: its name, the path to it, and how many pages its line gave it.
#[derive(Drop)]
pub(crate) struct Entry {
    pub(crate) name: Name,
    pub(crate) path: Path,
    pub(crate) pages: u32,
}

impl Model for Entry {
    ghost use Rattle.std.specs.Prelude.{◌≤◌};
    ghost use Rattle.hv_limits.specs.Limits.{pages_limit};
    ghost use Rattle.hv_load.specs.Building.{Known};

    ghost Value = { Known };

    ghost view = { λ e. record { name = e.name; path = e.path; pages = e.pages } };

    ghost invariant = { λ e. e.pages ≤ pages_limit };
}

impl Entry {
    /// The same entry.
    pub(crate) fn copied(&self) -> Entry
        ensures { result ≡ self.now }
    {
        Entry {
            name: self.name.copied(),
            path: self.path.copied(),
            pages: self.pages,
        }
    }
}

/// Why a line isn't done.
#[derive(Clone, Copy, Debug, PartialEq, Eq)]
pub(crate) enum DirectiveEnd {
    Fault(BuildKind),
    Memory,
}

impl From<BuildKind> for DirectiveEnd {
    ghost use Rattle.std.specs.Prelude.{◌≡◌};
    ghost use Rattle.hv_load.specs.declared.parts.DirectiveEnd.TheVariants.{Fault};

    ghost from_gives = { λ kind end. end ≡ Fault kind };

    fn from(kind: BuildKind) -> DirectiveEnd {
        DirectiveEnd::Fault(kind)
    }
}

impl From<AllocError> for DirectiveEnd {
    ghost use Rattle.std.specs.Prelude.{◌≡◌};
    ghost use Rattle.hv_load.specs.declared.parts.DirectiveEnd.TheVariants.{Memory};

    ghost from_gives = { λ _ end. end ≡ Memory };

    fn from(_error: AllocError) -> DirectiveEnd {
        DirectiveEnd::Memory
    }
}

impl<T: Drop> From<AllocFailed<T>> for DirectiveEnd {
    ghost use Rattle.std.specs.Prelude.{◌≡◌};
    ghost use Rattle.hv_load.specs.declared.parts.DirectiveEnd.TheVariants.{Memory};

    ghost from_gives = { λ _ end. end ≡ Memory };

    fn from(_failed: AllocFailed<T>) -> DirectiveEnd {
        DirectiveEnd::Memory
    }
}

impl From<UpgradeEnd> for DirectiveEnd {
    ghost use Rattle.std.specs.Prelude.{◌≡◌};
    ghost use Rattle.hv_load.specs.declared.parts.DirectiveEnd.TheVariants.{Fault};
    ghost use Rattle.hv_load.specs.Kinds.{upgrade_kind};

    ghost from_gives = { λ given end. end ≡ Fault (upgrade_kind given) };

    fn from(given: UpgradeEnd) -> DirectiveEnd {
        DirectiveEnd::Fault(match given {
            UpgradeEnd::Version => BuildKind::Version,
            UpgradeEnd::Apart => BuildKind::Apart,
            UpgradeEnd::Outside => BuildKind::Outside,
            UpgradeEnd::Shut { .. } => BuildKind::Absent,
            UpgradeEnd::Overlap => BuildKind::Overlap,
        })
    }
}

// Whether two names are the same. Behind its letters a name has zeros alone, so all of its bytes can be compared.
fn are_same(name: &Name, other: &Name) -> bool
    ensures { result ≡ bytes_eq name.now other.now }
{
    are_equal(name.letters, other.letters) && name.len == other.len
}

// Whether the bytes of two names are the same, compared all at once as a number.
fn are_equal(letters: [u8; 16], others: [u8; 16]) -> bool
    ensures { result ≡ bytes_eq letters others }
{
    u128::from_le_bytes(letters) == u128::from_le_bytes(others)
}

/// The first machine of this name.
pub(crate) fn named<'a>(name: &Name, names: &'a [Entry]) -> Option<&'a Entry>
    ensures { option_copied result ≡ named_in name.now names.now }
{
    names.iter().find(|entry| are_same(&entry.name, name))
}

/// The same where there must be one.
pub(crate) fn known(name: &Name, names: &[Entry]) -> Result<Entry, BuildKind>
    ensures { result ≡ known_of name.now names.now }
{
    match named(name, names) {
        Some(entry) => Ok(entry.copied()),
        None => Err(BuildKind::Unknown),
    }
}

/// The same where it must lie in another machine.
pub(crate) fn known_inside(name: &Name, names: &[Entry]) -> Result<Entry, BuildKind>
    ensures known { result ≡ known_inside_of name.now names.now }
    ensures deep { IfOk result (λ k. 1 ≤ length k.path) }
{
    let entry = known(name, names)?;
    if entry.path.as_slice().is_empty() {
        return Err(BuildKind::Unknown);
    }
    Ok(entry)
}

/// The path of these syllables.
fn path_of(syllables: &[u32]) -> Path
    requires { length syllables.now ≤ depth_limit }
    ensures { result ≡ syllables.now }
{
    let mut path = Path::new();
    for syllable in syllables {
        path.push(*syllable);
    }
    path
}

/// The path to the parent of a machine.
pub(crate) fn outer(path: &Path) -> Path
    requires { 1 ≤ length path.now }
    ensures { result ≡ outer_of path.now }
{
    let syllables = path.as_slice();
    path_of(&syllables[..syllables.len() - 1])
}
