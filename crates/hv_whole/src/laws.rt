//! What always holds of whole runs. Each function here is empty: it states one law, which is proved.

ghost use Rattle.hv_whole.specs.Whole.{BlockLaw, RootRunLaw, WholeRunLaw};

/// A machine that stands apart has, as long as no step of another touches it, the registers and the pages of a bare machine
/// that runs alone: it makes the steps that are counted, and gets the changes of the interrupt lines that are told.
pub fn runs_are_bare_runs()
    ensures { WholeRunLaw }
{}

/// The registers of a machine inside another are those that the block on its page says.
pub fn registers_are_in_last_block()
    ensures { BlockLaw }
{}

/// The bare machine whose hart 0 is watched has, as long as no step of another hart touches it, the whole storage and the
/// registers of one that has no other hart.
pub fn bare_runs_are_those_of_one_hart()
    ensures { RootRunLaw }
{}
