//! The paths that an index tracks, as `git check-ignore` is asked for them.
ghost use Rattle.std.specs.Prelude.{◌≡◌, ◌↔◌, ◌≤◌, [], IfNone, IfSome, IsTrue, List, ℕ, length, map};
ghost use Rattle.git_index.specs.Entries.{tracked};
ghost use Rattle.git_index.specs.Holding.{IsHeld, LiesIn};

use crate::asked_paths::{has_submodules, holds_by_path, submodule_above};
use crate::entry::Entry;
use crate::index::Index;
use crate::patterns::holds_by_pattern;
use std::alloc::Global;
use std::marker::Model;

/// The paths that an index tracks.
#[derive(Debug, Drop)]
pub struct TrackedPaths {
    index: Index,
    /// Most indexes have none: then no path is looked for in one.
    has_submodules: bool,
}

impl Model for TrackedPaths {
    ghost use Rattle.std.specs.Prelude.{◌↔◌, IsTrue, List};
    ghost use Rattle.git_index.specs.Entries.{Tracked};
    ghost use Rattle.git_index.specs.Private.Parts.{HasSubmodules};

    ghost Value = { List Tracked };

    ghost view = { λ paths. paths.index };

    ghost invariant = { λ paths. IsTrue paths.has_submodules ↔ HasSubmodules paths.index };
}

impl TrackedPaths {
    /// The paths of an index.
    pub fn new(index: Index) -> TrackedPaths
        ensures { result ≡ index }
    {
        let has_submodules = has_submodules(index.entries());
        TrackedPaths {
            index,
            has_submodules,
        }
    }

    /// No paths, as of a repository that has no index.
    pub fn none(alloc: Global) -> TrackedPaths
        ensures { result ≡ [] }
    {
        TrackedPaths::new(Index::empty(alloc))
    }

    /// The entries of the index, by path and stage.
    pub fn entries(&self) -> &[Entry]
        ensures { map tracked result.now ≡ self.now }
    {
        self.index.entries()
    }

    /// Whether no path is tracked.
    pub fn is_empty(&self) -> bool
        ensures { IsTrue result ↔ (self.now ≡ []) }
    {
        self.entries().is_empty()
    }

    /// Whether an entry holds what the path asks for: the path is an entry's, or that of a folder above it, perhaps with a slash at its
    /// end; a submodule's path with a slash; the top, which has no bytes, where any path is tracked; or a pattern that matches an entry's
    /// path, slashes too. Case counts.
    ///
    /// `asked` is told from the top of the work tree. Its first `literal` bytes, which the current folder put in front, are no pattern.
    /// Where no special byte stands behind these, the path is looked for; else it is held against each entry.
    pub fn holds(&self, asked: &[u8], literal: usize) -> bool
        ensures { IsTrue result ↔ IsHeld self.now asked.now literal }
    {
        if self.is_empty() {
            return false;
        }
        if asked.is_empty() {
            return true;
        }
        if holds_by_path(&self.index, asked) {
            return true;
        }
        holds_by_pattern(self.index.entries(), asked, literal)
    }

    /// The path of the submodule in which a path lies: the asked path goes on below it, by a slash and more. Where it lies in several,
    /// this is the shortest.
    ///
    /// `asked` is told from the top of the work tree, and its special bytes stand for themselves. A submodule doesn't lie in itself, with a
    /// slash at its end neither.
    pub fn submodule_of<'a>(&self, asked: &'a [u8]) -> Option<&'a [u8]>
        ensures some { IfSome result (λ path. LiesIn self.now asked.now path.now
            × ((other : List ℕ) → LiesIn self.now asked.now other → length path.now ≤ length other)) }
        ensures none { IfNone result ((path : List ℕ) → ¬ (LiesIn self.now asked.now path)) }
    {
        if !self.has_submodules {
            return None;
        }
        submodule_above(&self.index, asked)
    }
}
