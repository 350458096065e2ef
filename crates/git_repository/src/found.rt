//! A repository that was found.

use crate::faults::FindFault;
use crate::paths::joined;
use std::alloc::{AllocError, Global};

/// By what a repository was found.
#[derive(Debug, Clone, Copy, PartialEq, Eq)]
pub(crate) enum FoundBy {
    /// The folder `.git` of the top.
    Folder,
    /// The file `.git` of the top, which leads to the git folder.
    Gitfile,
    /// The folder itself, which is a git folder.
    Bare,
    /// `GIT_DIR`.
    Named,
}

/// A repository that was found.
#[derive(Drop)]
pub(crate) struct Found {
    /// By what it was found.
    pub(crate) by: FoundBy,
    /// The folder where it was found; the current folder where `GIT_DIR` tells it.
    pub(crate) top: Vec<u8>,
    /// The git folder.
    pub(crate) git: GitFolder,
}

/// A git folder.
#[derive(Drop)]
pub(crate) struct GitFolder {
    /// Its path. That of `GIT_DIR` is as it is told there.
    pub(crate) path: Vec<u8>,
    /// The common folder, which has `config`, `info`, `objects` and `refs`; `None` where it is the git folder itself, as but for linked work
    /// trees.
    pub(crate) common: Option<Vec<u8>>,
    /// What its `HEAD` names.
    pub(crate) head: Head,
}

/// What `HEAD` names.
#[derive(Drop)]
pub(crate) enum Head {
    /// This reference.
    Reference(Vec<u8>),
    /// A commit.
    Commit,
}

impl Found {
    /// The work tree, as it was found.
    pub(crate) fn work_tree(&self, alloc: Global) -> Result<Option<Vec<u8>>, FindFault> {
        match self.by {
            FoundBy::Bare => Ok(None),
            _ => Ok(Some(Vec::from_slice(alloc, &self.top)?)),
        }
    }
}

impl GitFolder {
    /// The common folder.
    pub(crate) fn common(&self) -> &[u8] {
        self.common.as_deref().unwrap_or(&self.path)
    }

    /// The path of a file of the common folder, whose name begins with a slash.
    pub(crate) fn common_file(&self, alloc: Global, name: &[u8]) -> Result<Vec<u8>, AllocError> {
        joined(alloc, self.common(), name)
    }
}
