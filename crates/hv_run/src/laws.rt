//! What always holds of runs, whatever the start and the moves. Each function here is empty: it states one law, which is
//! proved.

ghost use Rattle.hv_run.specs.Order.{OrderLaw};
ghost use Rattle.hv_run.specs.Promises.{FaultsLaw, GuestsLaw};
ghost use Rattle.hv_run.specs.Run.{MomentLaw};

/// A watched machine that stands apart has, at each moment up to which no other machine has touched it, the registers and the
/// pages of a bare machine that runs alone, with as many steps and the same changes of its interrupt lines.
pub fn guests_cannot_tell()
    ensures { GuestsLaw }
{}

/// Each fault is told to the machine whose map refused first; a malformed block to the machine that holds it; and a machine
/// too deep to run another to the bare machine.
pub fn faults_reach_first_refusing_level()
    ensures { FaultsLaw }
{}

/// The state at each moment is an item of the list of all states.
pub fn moments_are_items_of_run()
    ensures { MomentLaw }
{}

/// A change of one hart's lines and a step of another hart give the same state and the same outcome in either order.
pub fn lines_and_steps_of_two_harts_commute()
    ensures { OrderLaw }
{}
