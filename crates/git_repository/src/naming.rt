//! How Git names the files of a repository, where it tells which line decides or where a value stands.

use crate::faults::FindFault;
use crate::file_system::FileSystem;
use crate::found::{Found, FoundBy};
use crate::paths::{below, folder_of, is_absolute, joined, told_from, without_dot};
use crate::setup::Setup;
use std::alloc::{AllocError, Global};

impl<'a, S: FileSystem> Setup<'a, S> {
    /// How Git tells the git folder from the top of the work tree, which may be `told`, and not only found: as `.git` where the git folder was
    /// found as the folder `.git` of the top, as `GIT_DIR` tells it in the top, and else by a path from the root.
    pub(crate) fn git_name(
        &self,
        found: &Found,
        top: &[u8],
        is_told: bool,
    ) -> Result<Vec<u8>, FindFault> {
        let alloc = self.finder.alloc;
        if found.by == FoundBy::Folder && !is_told {
            return Ok(Vec::from_slice(alloc, b".git")?);
        }
        let told = self.git_here(found)?;
        if self.current == top {
            return Ok(told);
        }
        if below(top, self.current).is_some() {
            return self.finder.real_path(&told);
        }
        if is_absolute(&told) {
            return Ok(told);
        }
        let path = told_from(alloc, folder_of(self.current), &told)?;
        Ok(Vec::from_slice(alloc, below(top, &path).unwrap_or(&path))?)
    }

    /// The git folder, as it is told in the current folder.
    fn git_here(&self, found: &Found) -> Result<Vec<u8>, FindFault> {
        let is_here = found.top.as_slice() == self.current;
        let told: &[u8] = match found.by {
            FoundBy::Folder if is_here => b".git",
            FoundBy::Folder => return self.finder.real_path(&found.git.path),
            FoundBy::Bare if is_here => b".",
            FoundBy::Bare | FoundBy::Gitfile | FoundBy::Named => &found.git.path,
        };
        Ok(Vec::from_slice(self.finder.alloc, told)?)
    }

    /// How Git names the file `info/exclude` where it tells that a line of it decides about a path of the work tree with this top.
    pub(crate) fn exclude_name(
        &self,
        found: &Found,
        top: &[u8],
        is_told: bool,
    ) -> Result<Vec<u8>, FindFault> {
        let alloc = self.finder.alloc;
        match &found.git.common {
            Some(common) => Ok(file_in(alloc, common, b"/info/exclude")?),
            None => {
                let name = self.git_name(found, top, is_told)?;
                Ok(file_in(alloc, &name, b"/info/exclude")?)
            }
        }
    }
}

/// The name of a file in a folder that is named so.
pub(crate) fn file_in(alloc: Global, folder: &[u8], name: &[u8]) -> Result<Vec<u8>, AllocError> {
    let path = joined(alloc, folder_of(folder), name)?;
    Vec::from_slice(alloc, without_dot(&path))
}
