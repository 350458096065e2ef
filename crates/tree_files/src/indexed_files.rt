//! Files of patterns that Git takes from the index where the work tree doesn't have them.
ghost use Rattle.std.specs.Prelude.{◌≡◌, ◌⊎◌, ◌↔◌, false, IsTrue, List, OnOk, ℕ};
ghost use Rattle.tree_files.specs.Indexed.{is_indexed};

use crate::fault::CheckFault;
use crate::standing::{file_in, path_text};
use std::alloc::{AllocError, Global};
use std::collections::BTreeSet;
use std::fs;
use std::fs::Metadata;
use std::rt::Files;
use system_files::{Sight, Unread, open_seen};

/// The folders whose own file of patterns lies in the index, from which it isn't read.
#[derive(Drop)]
pub struct IndexedFiles {
    alloc: Global,
    folders: BTreeSet<Vec<u8>>,
}

impl IndexedFiles {
    /// None is in the index.
    pub fn none(alloc: Global) -> IndexedFiles
        ensures { (folder : List ℕ) → is_indexed result folder ≡ false }
    {
        IndexedFiles {
            alloc,
            folders: BTreeSet::new(alloc),
        }
    }

    /// Adds the folder of a file that is in the index.
    ///
    /// # Errors
    /// Only where memory was refused.
    pub fn add(&mut self, folder: &[u8]) -> Result<(), AllocError>
        ensures { OnOk result ((other : List ℕ) → IsTrue (is_indexed self.new other) ↔ (IsTrue (is_indexed self.old other) ⊎ (other ≡ folder.now))) }
    {
        let folder = Vec::from_slice(self.alloc, folder)?;
        self.folders.insert(folder)?;
        Ok(())
    }

    /// Whether the file of this folder is in the index.
    pub(crate) fn has(&self, folder: &[u8]) -> bool
        ensures { result ≡ is_indexed self.now folder.now }
    {
        self.folders.contains(folder)
    }

    /// Refuses a folder whose file of this name is in the index, and has no fewer bytes in the work tree than the limit, or can't be opened
    /// there: then Git reads it from the index.
    pub(crate) fn check<R: Files>(
        &self,
        rt: &R,
        folder: &[u8],
        name: &str,
        limit: u64,
    ) -> Result<(), CheckFault> {
        if !self.has(folder) {
            return Ok(());
        }
        let folder = path_text(self.alloc, folder)?;
        let file = file_in(self.alloc, folder.as_str(), name)?;
        match fs::symlink_metadata(rt, file.as_str()) {
            Ok(found) if found.len() < limit && can_open(rt, file.as_str(), &found) => Ok(()),
            _ => Err(CheckFault::InIndexAlone(file)),
        }
    }
}

/// Whether what was seen can be opened: no link is, nor what would have to be waited for.
fn can_open<R: Files>(rt: &R, name: &str, found: &Metadata) -> bool {
    if found.is_symlink() {
        return false;
    }
    match open_seen(rt, name, &Sight::of(found)) {
        Ok(_opened) => true,
        Err(Unread::Folder) => fs::open(rt, name).is_ok(),
        // (what stands there by the time it is read is told then)
        Err(Unread::Device | Unread::Replaced) => true,
        Err(Unread::Waiting | Unread::System(_)) => false,
    }
}
