//! The paths of a projection as they are read, none of which meets another.

ghost use Rattle.std.specs.Prelude.{◌≡◌, ◌++◌, [], ◌∷◌, false, IfOk};
ghost use Rattle.std.specs.List.{list_any};
ghost use Rattle.path.specs.Parts.{meets};

use bson::NoMemory;
use path::{Path, PathSet};
use std::alloc::Global;
use std::marker::Model;

/// Paths in the order read.
#[derive(Drop)]
pub(crate) struct PathList {
    paths: Vec<Path>,

    /// The same paths, by which it is told whether another meets one of them.
    set: PathSet,
}

impl Model for PathList {
    ghost use Rattle.std.specs.Prelude.{ℕ, List};
    ghost use Rattle.projection.specs.PathLists.{AreMetAlike};

    ghost Value = { List (List (List ℕ)) };

    ghost view = { λ a. a.paths.items };

    ghost invariant = { λ a. AreMetAlike a.set a.paths.items };
}

impl PathList {
    /// No path.
    pub fn new(alloc: Global) -> PathList
        ensures { result ≡ [] }
    {
        PathList {
            paths: Vec::new(alloc),
            set: PathSet::new(alloc),
        }
    }

    /// Whether the path meets one of these.
    pub fn meets(&self, path: &Path) -> bool
        ensures { result ≡ list_any (meets path.now) self.now }
    {
        self.set.meets(path)
    }

    /// With a path behind these, none of which it meets.
    pub fn with(self, path: Path) -> Result<PathList, NoMemory>
        requires { list_any (meets path) self ≡ false }
        ensures { IfOk result (λ paths. paths ≡ self ++ path ∷ []) }
    {
        let PathList { paths, set } = self;
        let mut paths = paths;
        let mut set = set;
        set.put(path.copy()?)?;
        paths.push(path)?;
        Ok(PathList { paths, set })
    }

    /// The paths.
    pub fn into_paths(self) -> Vec<Path>
        ensures { result.items ≡ self }
    {
        let PathList { paths, set: _ } = self;
        paths
    }
}
