//! What always holds of building a tower. The function here is empty: it states one law, which is proved.

ghost use Rattle.hv_towers.specs.Same.{TowerLaw};
ghost use Rattle.hv_towers.specs.Towers.{TowerBuildLaw};

/// A tower with lines that write to its top lies in the storage as towers do, and its top sees what a bare machine with
/// the same lines sees.
pub fn towers_are_built()
    ensures { TowerBuildLaw }
{}

/// The program at the top of a tower runs as the same lines do on a bare machine, after the steps of the monitors.
pub fn towers_run_as_bare_machines()
    ensures { TowerLaw }
{}
