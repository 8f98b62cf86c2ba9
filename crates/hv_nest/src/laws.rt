//! What always holds of one step. Each function here is empty: it states one law, which is proved.

ghost use Rattle.hv_nest.specs.Received.{ReceivedLaw};
ghost use Rattle.hv_nest.specs.Routing.{RoutingLaw};
ghost use Rattle.hv_nest.specs.Simulation.{InnerSimulationLaw, SimulationLaw};

/// Every refusal of a map is told to the machine whose map refused first, a malformed block to the machine that holds it, and
/// a machine too deep to run another to the bare machine; where a machine on the running path has a pending interrupt,
/// nothing is.
pub fn faults_are_routed()
    ensures { RoutingLaw }
{}

/// A step that is refused, or in which a machine gets control back for an interrupt, changes nothing but the next of the
/// machine that receives it, and the three words by which one block tells of the fault. No refusal passes the bare machine.
pub fn refused_steps_change_only_what_is_told()
    ensures { ReceivedLaw }
{}

/// A machine can't tell that it runs inside others: each step is that of a bare machine whose storage is what the machine
/// sees, unless it is refused further out. Nothing changes that the machine doesn't see.
pub fn one_step_simulates()
    ensures machine { SimulationLaw }
    ensures inner { InnerSimulationLaw }
{}
