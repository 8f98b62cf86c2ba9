//! What always holds of machines whose pages come on demand. Each function here is empty: it states one law, which is proved.

ghost use Rattle.hv_pager.specs.Paging.{PagedLaw};
ghost use Rattle.hv_pager.specs.Row.{FollowedLaw};

/// A machine whose pages are taken and brought back unchanged, and whose other words nobody changes, can't tell: it has the
/// registers and the pages of a bare machine that had all pages from the start.
pub fn paged_machines_cannot_tell()
    ensures { PagedLaw }
{}

/// The same of what is told of a watch: as long as it isn't closed, the machine is the bare one that began with the words of
/// each page's first arrival, and made the steps that are told.
pub fn followed_machines_cannot_tell()
    ensures { FollowedLaw }
{}
