//! What a look-up finds after each change of a cache. Each function here is empty: it states one law, which is proved.

ghost use Rattle.hv_cache.specs.Laws.{ForgottenLaw, KeptIsFoundLaw, LookKeepsLaw, OnlyKeptIsNewLaw, OthersStayLaw};

/// What was kept last for a page is found.
pub fn what_is_kept_is_found()
    ensures { KeptIsFoundLaw }
{}

/// What was kept last for a page is found, and for every other page what was found before, or nothing.
pub fn only_what_is_kept_is_new()
    ensures { OnlyKeptIsNewLaw }
{}

/// Where there is room, all others stay.
pub fn others_stay_where_there_is_room()
    ensures { OthersStayLaw }
{}

/// A look-up changes nothing that others find.
pub fn looking_changes_no_answer()
    ensures { LookKeepsLaw }
{}

/// After a page is forgotten what doesn't rest on it is found, and nothing else.
pub fn what_rests_elsewhere_is_still_found()
    ensures { ForgottenLaw }
{}
