//! The paths that an index tracks, looked up without case.
ghost use Rattle.std.specs.Prelude.{◌↔◌, IfOk, IsTrue, List};
ghost use Rattle.git_index.specs.Entries.{Tracked};
ghost use Rattle.git_index.specs.Folding.{AreAlike, HasBelowFolded, IsSubmoduleFolded, IsTrackedFolded};

use crate::entry::{Entry, Kind};
use crate::index::Index;
use crate::sorted::{has_below, last_kind, sorted};
use std::alloc::{AllocError, Global};
use std::marker::Model;

/// The paths that an index tracks, looked up without case: ASCII letters that differ in case alone are the same.
#[derive(Debug, Drop)]
pub struct FoldedPaths {
    /// The entries, in the order of their paths without case.
    sorted: Vec<Entry>,
}

impl Model for FoldedPaths {
    ghost use Rattle.std.specs.Prelude.{List, map};
    ghost use Rattle.git_index.specs.Entries.{InOrder, Tracked, tracked};
    ghost use Rattle.git_index.specs.Private.Folds.{bare};

    ghost Value = { List Tracked };

    ghost view = { λ paths. map tracked paths.sorted.items };

    ghost invariant = { λ paths. InOrder (map bare (map tracked paths.sorted.items)) };
}

impl FoldedPaths {
    /// The paths of an index.
    ///
    /// # Errors
    /// Only where memory was refused.
    pub fn new(alloc: Global, index: &Index) -> Result<FoldedPaths, AllocError>
        ensures { IfOk result (λ paths. AreAlike paths index.now) }
    {
        Ok(FoldedPaths {
            sorted: sorted(alloc, index.entries())?,
        })
    }

    /// Whether an entry, at whichever stage, has this path.
    pub fn is_tracked(&self, path: &[u8]) -> bool
        ensures { (entries : List Tracked) → AreAlike self.now entries → IsTrue result ↔ IsTrackedFolded entries path.now }
    {
        last_kind(&self.sorted, path).is_some()
    }

    /// Whether an entry's path goes on below this folder, which is told without a slash at its end.
    pub fn has_below(&self, folder: &[u8]) -> bool
        ensures { (entries : List Tracked) → AreAlike self.now entries → IsTrue result ↔ HasBelowFolded entries folder.now }
    {
        has_below(&self.sorted, folder)
    }

    /// Whether the last entry that has this path is a submodule.
    pub fn is_submodule(&self, path: &[u8]) -> bool
        ensures { (entries : List Tracked) → AreAlike self.now entries → IsTrue result ↔ IsSubmoduleFolded entries path.now }
    {
        matches!(last_kind(&self.sorted, path), Some(Kind::Submodule))
    }
}
