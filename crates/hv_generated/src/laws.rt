//! Which jobs are always built. Each function here is empty: it states one law, which is proved.

ghost use Rattle.hv_generated.specs.Fitting.{GeneratedBuildLaw, TowerFitLaw};

/// A tower that isn't too deep and fits the storage is built: no part of it is refused.
pub fn towers_that_fit_are_built()
    ensures { TowerFitLaw }
{}

/// The job of every number is built: no line of it is refused.
pub fn generated_jobs_are_built()
    ensures { GeneratedBuildLaw }
{}
