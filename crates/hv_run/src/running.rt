//! The path of the machine that a hart runs, and which watches are of a machine on it.

ghost use Rattle.std.specs.Prelude.{◌≡◌, ◌≢◌, ◌<◌, [], IfOk, length};
ghost use Rattle.hv_nest.specs.Move.{running_of};
ghost use Rattle.hv_run.specs.Play.{inside_of};

use crate::watched::Watched;
use hv_map::Path;
use hv_nest::Nested;
use std::alloc::{AllocError, Global};

/// The path of a machine that a hart ran, and of each watch, in order, whether its path begins that one. Paths are compared
/// only where the path is replaced, so that most steps compare none.
#[derive(Drop)]
pub(crate) struct Running {
    pub(crate) path: Path,
    pub(crate) inside: Vec<bool>,
}

impl Running {
    /// The path of the bare machine, with the memory for these watches.
    pub(crate) fn new(alloc: Global, watched: &[Watched]) -> Result<Running, AllocError>
        ensures { IfOk result (λ r. r.inside.items ≡ inside_of r.path watched.now) }
    {
        let path = Path::new();
        let mut inside = vec![in alloc; false; watched.len()]?;
        mark(&mut inside, &path, watched);
        Ok(Running { path, inside })
    }

    /// Finds the path of the machine that a hart runs. It is replaced only where the hart runs another machine than that of the
    /// path that is there; where there are no watches, it isn't looked for.
    #[inline(always)]
    pub(crate) fn find<N: Nested>(&mut self, nested: &mut N, hart: u32, watched: &[Watched])
        requires hart { hart < length (N.state nested.old).harts }
        requires inside { self.old.inside.items ≡ inside_of self.old.path watched.now }
        ensures inside { self.new.inside.items ≡ inside_of self.new.path watched.now }
        ensures path { watched.now ≢ [] → self.new.path ≡ running_of (N.state nested.old) hart }
        ensures same { N.state nested.new ≡ N.state nested.old }
    {
        if !watched.is_empty() && !nested.runs(hart, &self.path) {
            self.replace(nested, hart, watched);
        }
    }

    // Replaces the path by that of the machine that a hart runs. It is no part of `find`, since most steps replace none.
    #[inline(never)]
    fn replace<N: Nested>(&mut self, nested: &mut N, hart: u32, watched: &[Watched])
        requires hart { hart < length (N.state nested.old).harts }
        requires inside { self.old.inside.items ≡ inside_of self.old.path watched.now }
        ensures inside { self.new.inside.items ≡ inside_of self.new.path watched.now }
        ensures path { self.new.path ≡ running_of (N.state nested.old) hart }
        ensures same { N.state nested.new ≡ N.state nested.old }
    {
        self.path = nested.running(hart);
        mark(&mut self.inside, &self.path, watched);
    }
}

// Marks of each watch whether its path begins this one.
fn mark(inside: &mut [bool], path: &Path, watched: &[Watched])
    requires { length inside.old ≡ length watched.now }
    ensures { inside.new ≡ inside_of path.now watched.now }
{
    for (i, one) in watched.iter().enumerate() {
        inside[i] = one.path.begins(path);
    }
}
