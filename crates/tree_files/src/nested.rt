//! Folders of a work tree that are repositories of their own.

use crate::fault::CheckFault;
use git_repository::{FileSystem, FindFault, Finder, Variables};
use std::alloc::{AllocError, Global};
use std::rt::Files;
use system_files::DiskFiles;

/// What tells of a folder by its `.git` whether it is a repository of its own.
#[derive(Drop)]
pub struct NestedRepositories<'a, R> {
    alloc: Global,
    files: DiskFiles<'a, R>,
    variables: Variables,
    /// The git folder of the repository that the work tree belongs to, from the root and without links.
    own: Option<Vec<u8>>,
}

impl<'a, R: Files> NestedRepositories<'a, R> {
    /// Those of a work tree whose repository has this git folder, if there is one.
    ///
    /// # Errors
    /// Only where memory was refused.
    pub fn new(
        alloc: Global,
        files: DiskFiles<'a, R>,
        variables: Variables,
        git_folder: Option<&[u8]>,
    ) -> Result<NestedRepositories<'a, R>, AllocError> {
        let own = match git_folder {
            Some(folder) => files.real_path(folder)?,
            None => None,
        };
        Ok(NestedRepositories {
            alloc,
            files,
            variables,
            own,
        })
    }

    /// Whether what stands at this path, the `.git` of a folder, makes the folder a repository of its own, and not of the one that the work
    /// tree belongs to.
    pub(crate) fn has(&self, git: &[u8]) -> Result<bool, CheckFault> {
        let finder = Finder {
            alloc: self.alloc,
            source: &self.files,
            variables: &self.variables,
        };
        match finder.is_repository(git) {
            Ok(true) => Ok(!self.is_own(git)?),
            Ok(false) => Ok(false),
            Err(FindFault::Memory) => Err(CheckFault::Memory),
            Err(fault) => Err(CheckFault::Repository(format!(in self.alloc; "{fault}")?)),
        }
    }

    /// Whether a path is that of the git folder that the work tree belongs to.
    fn is_own(&self, git: &[u8]) -> Result<bool, AllocError> {
        match &self.own {
            Some(own) => Ok(self.files.real_path(git)?.as_ref() == Some(own)),
            None => Ok(false),
        }
    }
}
