//! What always holds of towers. Each function here is empty: it states one law, which is proved.

ghost use Rattle.hv_towers.specs.Tower.{TowerPlayLaw};

/// The monitors of a tower of depth D make the first 3 D steps. From then on each step is one of the innermost machine,
/// which is as a bare machine that runs alone, as long as no machine is asked to run another that is too deep.
pub fn towers_are_bare_machines()
    ensures { TowerPlayLaw }
{}
