//! Machines by their names and paths.

ghost use Rattle.std.specs.Prelude.{◌≡◌, ◌<◌, IfSome};
ghost use Rattle.std.specs.Option.{option_and_then, option_copied};
ghost use Rattle.hv_word.specs.Storage.{page_count};
ghost use Rattle.hv_report.specs.Dumps.{page_read};
ghost use Rattle.hv_debug.specs.Answers.{machine_named, path_named};

use hv_job::Name;
use hv_load::Named;
use hv_map::{Chain, Path, pin};
use hv_report::read_page;
use hv_store::Store;

/// The path to the first machine of this name.
pub(crate) fn path_of<'a>(names: &'a [Named], name: &Name) -> Option<&'a Path>
    ensures { option_copied result ≡ path_named name.now names.now }
{
    let named = names.iter().find(|named| named.name.is(name.as_slice()))?;
    Some(&named.path)
}

/// The machines on the path to the machine of this name, as they are now.
pub(crate) fn chain_of(store: &Store, names: &[Named], name: &Name) -> Option<Chain>
    ensures { result ≡ machine_named store.now name.now names.now }
{
    let path = path_of(names, name)?;
    pin(store, path)
}

/// The bare page where the machine of this name reads a page, if there is one and it can read it.
pub(crate) fn page_of(store: &Store, names: &[Named], name: &Name, page: u32) -> Option<u32>
    ensures page { result ≡ option_and_then (λ path. page_read store.now path page) (path_named name.now names.now) }
    ensures bound { IfSome result (λ g. g < page_count store.now) }
{
    let path = path_of(names, name)?;
    read_page(store, path, page)
}
