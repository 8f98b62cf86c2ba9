//! What always holds of machines in plays. Each function here is empty: it states one law, which is proved.

ghost use Rattle.hv_isolate.specs.Equal.{EqualRowsLaw, EqualStartsLaw};
ghost use Rattle.hv_isolate.specs.Settled.{TouchedLaw, TouchersLaw};

/// Two machines that stand apart, each in a play of its own, and begin with the same registers and see the same, have equal
/// registers and pages wherever as many steps were counted for both, with the same changes of their lines.
pub fn agreeing_starts_stay_equal()
    ensures { EqualStartsLaw }
{}

/// Rows of two records that tell of untouched machines with as many steps and the same changes of lines tell of machines that
/// are equal at the ends, if they were at the starts.
pub fn equal_rows_tell_equal_machines()
    ensures { EqualRowsLaw }
{}

/// In a play that is settled for some paths, only a step of a machine that might do so at the start changes what a machine
/// stood on then; and a watch that tells a touch was touched by such a step.
pub fn machines_are_touched_by_those_that_may()
    ensures each { TouchersLaw }
    ensures told { TouchedLaw }
{}
