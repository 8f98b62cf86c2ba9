//! What always holds of parked machines. Each function here is empty: it states one law, which is proved.

ghost use Rattle.hv_move.specs.Laws.{ContinuedLaw, MovedRunLaw, PlacedLaw, PlacedRunLaw, SavedAgainLaw};

/// A bare run that is continued is one bare run, with the changes of the second part behind those of the first.
pub fn continued_runs_are_bare_runs()
    ensures { ContinuedLaw }
{}

/// A machine that was watched over a run, saved, placed elsewhere and watched there over another run has the registers and
/// the pages of one bare machine that runs alone: it makes the steps that both watches count, and gets the changes of its
/// lines that both tell.
pub fn moved_runs_are_bare_runs()
    ensures { MovedRunLaw }
{}

/// A machine that was placed is the parked machine, on every hart.
pub fn placed_machine_is_there()
    ensures { PlacedLaw }
{}

/// A machine that was watched over a run, saved, placed by `place` and watched there over another run is as one bare machine
/// that runs alone.
pub fn placed_runs_are_bare_runs()
    ensures { PlacedRunLaw }
{}

/// To save a machine that was placed gives the same capsule again.
pub fn placed_machine_is_saved_again()
    ensures { SavedAgainLaw }
{}
