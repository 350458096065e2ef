//! Folders in which nothing can be seen: none stands there, or it can't be looked at.
ghost use Rattle.std.specs.Prelude.{◌≡◌, ◌++◌, ◌∷◌, ◌⊎◌, ◌↔◌, [], IsTrue, List, OnOk, ℕ};
ghost use Rattle.gix_glob.specs.Bytes.{slash};
ghost use Rattle.tree_files.specs.Closed.{HasShut, IsClosed, is_shut};

use git_paths::folder_of;
use std::alloc::{AllocError, Global};
use std::collections::BTreeSet;

/// Folders in which nothing can be seen. What lies below one isn't looked at.
#[derive(Drop)]
pub(crate) struct ClosedFolders {
    alloc: Global,
    /// The one that was found last, with a slash behind it; no bytes where none was.
    last: Vec<u8>,
    /// Those that can't be looked at, which was told.
    shut: BTreeSet<Vec<u8>>,
}

impl ClosedFolders {
    /// None was found yet.
    pub(crate) fn new(alloc: Global) -> ClosedFolders
        ensures none { (folder : List ℕ) → ¬ IsClosed result folder }
    {
        ClosedFolders {
            alloc,
            last: Vec::new(alloc),
            shut: BTreeSet::new(alloc),
        }
    }

    /// Whether a folder lies below the one that was found last, or is one that can't be looked at, or lies below such a one.
    pub(crate) fn contain(&self, folder: &[u8]) -> bool
        ensures { IsTrue result ↔ IsClosed self.now folder.now }
    {
        if !self.last.is_empty() && folder.starts_with(&self.last) {
            return true;
        }
        self.has_shut(folder)
    }

    /// Keeps that no folder stands there.
    pub(crate) fn miss(&mut self, folder: &[u8]) -> Result<(), AllocError>
        ensures last { OnOk result (self.new.last.items ≡ folder.now ++ slash ∷ []) }
        ensures shut { self.new.shut ≡ self.old.shut }
    {
        self.last.clear();
        self.last.extend_from_slice(folder)?;
        self.last.push(b'/')?;
        Ok(())
    }

    /// Keeps that a folder can't be looked at.
    pub(crate) fn shut(&mut self, folder: &[u8]) -> Result<(), AllocError>
        ensures last { OnOk result (self.new.last.items ≡ folder.now ++ slash ∷ []) }
        ensures shut { OnOk result ((other : List ℕ) → IsTrue (is_shut self.new other) ↔ (IsTrue (is_shut self.old other) ⊎ (other ≡ folder.now))) }
    {
        self.miss(folder)?;
        let folder = Vec::from_slice(self.alloc, folder)?;
        self.shut.insert(folder)?;
        Ok(())
    }

    /// Whether a folder can't be looked at, or one above it.
    fn has_shut(&self, folder: &[u8]) -> bool
        ensures { IsTrue result ↔ HasShut self.now folder.now }
    {
        let mut front = folder;
        'fronts: while !self.shut.contains(front) {
            if front.is_empty() {
                return false;
            }
            front = folder_of(front);
        }
        true
    }
}
