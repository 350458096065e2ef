//! What a process was told before it looks for a repository, and where it then works.

use crate::faults::{FindFault, OpenFault, Wrong};
use crate::file_system::FileSystem;
use crate::finder::Finder;
use crate::found::Found;
use crate::own_files::OwnSettings;
use crate::paths::{below, folder_of, is_relative, told_from};
use crate::safety::{Safety, is_bare_refused, safe_directories};
use crate::sources::{ConfigSource, ConfigSources};
use git_config::{Config, ConfigFiles, Surroundings};
use std::alloc::AllocError;

/// What a repository is opened for.
#[derive(Debug, Clone, Copy, PartialEq, Eq)]
pub enum Purpose {
    /// The paths of its work tree: one that isn't there is a fault, before any value is looked at.
    Paths,
    /// The same, for `status`: a wrong `status.showUntrackedFiles` is a fault.
    Status,
    /// Its index, which it has without a work tree, too.
    Index,
}

/// What a process was told, and the files that it sees.
#[derive(Drop)]
pub struct Setup<'a, S> {
    /// The variables and the files.
    pub finder: Finder<'a, S>,
    /// The current folder, from the root, without links and without a slash at its end. The root has no bytes for
    /// [`Setup::open`], and a slash for [`Setup::config_place`].
    pub current: &'a [u8],
    /// The words behind `-c`.
    pub words: &'a [&'a [u8]],
}

impl<'a, S: FileSystem + ConfigFiles> Setup<'a, S> {
    /// The repository that is found. A bare one, and one of another user, are taken where the settings let them.
    pub(crate) fn find(&self, around: &mut Surroundings) -> Result<Found, OpenFault<S::Fault>> {
        let mut found = self.find_by(&[], true);
        if is_refused(&found, Wrong::Bare) {
            let config = self.read_trusted(around)?;
            found = self.find_by(&[], is_bare_refused(self.finder.alloc, &config)?);
        }
        if is_refused(&found, Wrong::Owner) || is_refused(&found, Wrong::User) {
            let config = self.read_trusted(around)?;
            let directories = safe_directories(self.finder.alloc, &config, around)?;
            found = self.find_by(&directories, false);
        }
        Ok(found?)
    }

    /// The repository that is found where these folders are safe.
    fn find_by(&self, directories: &[Vec<u8>], bare_is_refused: bool) -> Result<Found, FindFault> {
        let safety = Safety {
            directories,
            bare_is_refused,
        };
        self.finder.find(&safety, self.current)
    }

    /// The entries of the files outside of a repository and of the words, which say whose repositories may be taken.
    fn read_trusted(&self, around: &mut Surroundings) -> Result<Config, OpenFault<S::Fault>> {
        let mut listed = self.outer_files()?;
        listed.add_words(self.finder.alloc, self.finder.variables, self.words)?;
        self.read(around, None, listed)
    }

    /// The files outside of a repository.
    pub(crate) fn outer_files(&self) -> Result<ConfigSources, AllocError> {
        ConfigSources::of_files(self.finder.alloc, self.finder.variables, None, None)
    }

    /// Refuses relative paths of files and of the common folder, where Git tells them from the top and not from the current folder.
    pub(crate) fn check_relatives(&self, top: Option<&[u8]>) -> Result<(), OpenFault<S::Fault>> {
        let alloc = self.finder.alloc;
        match top {
            Some(top) if folder_of(top) != self.current => {}
            _ => return Ok(()),
        }
        for source in &self.outer_files()?.list {
            match source {
                ConfigSource::File { path, .. } if is_relative(path) => {
                    return Err(OpenFault::RelativeFile(Vec::from_slice(alloc, path)?));
                }
                _ => {}
            }
        }
        match &self.finder.variables.common_dir {
            Some(path) if is_relative(path) => {
                Err(OpenFault::RelativeFolder(Vec::from_slice(alloc, path)?))
            }
            _ => Ok(()),
        }
    }
}

impl<'a, S: FileSystem> Setup<'a, S> {
    /// The top of a work tree, where the current folder lies below it: Git works there, and else in the current folder.
    pub(crate) fn above<'t>(&self, top: Option<&'t [u8]>) -> Option<&'t [u8]> {
        match top {
            Some(top) if below(top, self.current).is_some() => Some(top),
            _ => None,
        }
    }

    /// The path of this folder in which Git works, which `PWD` may tell with links.
    pub(crate) fn shown<'t>(&'t self, place: &'t [u8]) -> Result<&'t [u8], AllocError> {
        match self.finder.variables.pwd.as_deref() {
            Some(pwd) if !pwd.is_empty() && self.leads_to(place, pwd)? => Ok(pwd),
            _ => Ok(place),
        }
    }

    /// Whether a path that is told from this folder leads to it.
    fn leads_to(&self, place: &[u8], path: &[u8]) -> Result<bool, AllocError> {
        let path = told_from(self.finder.alloc, place, path)?;
        match self.finder.source.real_path(&path)? {
            Some(real) => Ok(real.as_slice() == place),
            None => Ok(false),
        }
    }

    /// The top of the work tree of a repository, without links; `None` where it is bare.
    pub(crate) fn work_tree_of(
        &self,
        found: &Found,
        own: &OwnSettings,
    ) -> Result<Option<Vec<u8>>, FindFault> {
        if let Some(told) = &self.finder.variables.work_tree {
            return Ok(Some(self.finder.real_path(told)?));
        }
        let counts = own.count_in(&found.git);
        if counts && own.is_bare {
            return Ok(None);
        }
        match &own.work_tree {
            Some(told) if counts => Ok(Some(self.configured(&found.git.path, told)?)),
            _ => found.work_tree(self.finder.alloc),
        }
    }

    /// The work tree that `core.worktree` tells from the git folder.
    fn configured(&self, folder: &[u8], told: &[u8]) -> Result<Vec<u8>, FindFault> {
        let path = told_from(self.finder.alloc, folder, told)?;
        if told.is_empty() || is_relative(told) && !self.finder.source.can_enter(&path)? {
            return Err(self.finder.at(Wrong::NotEntered, told)?);
        }
        self.finder.real_path(&path)
    }

    /// Whether the work tree is told, and not only found.
    pub(crate) fn tells_tree(&self, found: &Found, own: &OwnSettings) -> bool {
        self.finder.variables.work_tree.is_some()
            || own.work_tree.is_some() && own.count_in(&found.git)
    }
}

/// Whether a repository was refused for this.
fn is_refused(found: &Result<Found, FindFault>, wrong: Wrong) -> bool {
    match found {
        Err(FindFault::At(other, _path)) => *other == wrong,
        _ => false,
    }
}
