//! A repository that is opened: where it is, and what its configuration says.

use crate::core_values::{CoreSettings, core_settings};
use crate::faults::OpenFault;
use crate::file_system::FileSystem;
use crate::found::Found;
use crate::own_files::OwnSettings;
use crate::paths::{folder_of, joined, told_from};
use crate::setup::{Purpose, Setup};
use crate::sources::{ConfigSources, config_sources};
use git_config::{Config, ConfigFiles, ReadSetting, Surroundings};
use std::alloc::AllocError;

/// What a command has to know of a repository. A path that isn't absolute is told from the current folder.
#[derive(Debug, Drop)]
pub struct Repository {
    /// The git folder: it has `HEAD` and the index.
    pub git_folder: Vec<u8>,
    /// The top of the work tree; `None` where there is none.
    pub top: Option<Vec<u8>>,
    /// The entries of all files and words.
    pub config: Config,
    /// What the configuration sets. Its files are as they are told there.
    pub core: CoreSettings,
    /// How Git names the file `info/exclude` where a line of it decides; `None` without a work tree.
    pub exclude_name: Option<Vec<u8>>,
    /// The file `info/attributes`.
    pub attributes_file: Vec<u8>,
    /// The index; empty where `GIT_INDEX_FILE` is, so that there is none.
    pub index_file: Vec<u8>,
}

impl<'a, S: FileSystem + ConfigFiles> Setup<'a, S> {
    /// Opens the repository of the current folder: finds it, reads its configuration and that of the system and the user, and tells what a
    /// command has to know. `around` is what is known of the user and the installation, with `HOME` as its home; its `real_home`,
    /// `git_folders`, `branch` and `urls` are found where a condition may ask for them.
    ///
    /// # Errors
    /// The first fault in Git's order; [`OpenFault::File`] where a file of configuration can't be read, and [`OpenFault::Memory`] where
    /// memory was refused.
    pub fn open(
        &self,
        around: &mut Surroundings,
        purpose: Purpose,
    ) -> Result<Repository, OpenFault<S::Fault>> {
        let (alloc, variables) = (self.finder.alloc, self.finder.variables);
        self.read(around, None, self.outer_files()?)?;
        let found = self.find(around)?;
        let own = OwnSettings::read(alloc, self.finder.source, &found.git)?;
        let top = self.work_tree_of(&found, &own)?;
        self.check_relatives(top.as_deref())?;
        let config = self.read_inside(around, &found, &own, top.as_deref())?;
        if purpose != Purpose::Index && !self.has_top(top.as_deref())? {
            return Err(OpenFault::NoWorkTree);
        }
        let core = core_settings(
            alloc,
            &config,
            around,
            variables.config_home.as_deref(),
            purpose == Purpose::Status,
        )?;
        let exclude_name = match &top {
            Some(top) => Some(self.exclude_name(&found, top, self.tells_tree(&found, &own))?),
            None => None,
        };
        let attributes_file = found.git.common_file(alloc, b"/info/attributes")?;
        let index_file = self.index_file(&found.git.path, top.as_deref())?;
        let git = found.git;
        Ok(Repository {
            git_folder: git.path,
            top,
            config,
            core,
            exclude_name,
            attributes_file,
            index_file,
        })
    }

    /// The entries of all files and words, in a repository. What conditions ask for is looked up where there is one, or the reading ended
    /// before all was read.
    fn read_inside(
        &self,
        around: &mut Surroundings,
        found: &Found,
        own: &OwnSettings,
        top: Option<&[u8]>,
    ) -> Result<Config, OpenFault<S::Fault>> {
        let first = self.read(around, None, self.inner_sources(found, own)?);
        if !may_ask(&first) {
            return first;
        }
        self.know(around, found, own, top)?;
        let uncertain = found.git.uncertain(self.finder.alloc, self.finder.source)?;
        self.read(
            around,
            uncertain.as_deref(),
            self.inner_sources(found, own)?,
        )
    }

    /// The files and words that count in a repository.
    fn inner_sources(&self, found: &Found, own: &OwnSettings) -> Result<ConfigSources, AllocError> {
        let (alloc, git) = (self.finder.alloc, &found.git);
        let config = git.common_file(alloc, b"/config")?;
        let work_tree = if own.has_worktree_config {
            Some(joined(alloc, &git.path, b"/config.worktree")?)
        } else {
            None
        };
        config_sources(
            alloc,
            self.finder.variables,
            Some(&config),
            work_tree.as_deref(),
            self.words,
        )
    }

    /// Adds to what is known around a configuration what its conditions ask for: the real home folder, the paths of the git folder and the
    /// branch. It answers how Git tells the git folder where it works.
    pub(crate) fn know(
        &self,
        around: &mut Surroundings,
        found: &Found,
        own: &OwnSettings,
        top: Option<&[u8]>,
    ) -> Result<Vec<u8>, OpenFault<S::Fault>> {
        let alloc = self.finder.alloc;
        if let Some(home) = &around.home {
            around.real_home = self.finder.source.real_path(home)?;
        }
        let real = self.finder.real_path(&found.git.path)?;
        let above = self.above(top);
        let place = above.unwrap_or(self.current);
        let is_told = above.is_none() || self.tells_tree(found, own);
        let name = self.git_name(found, place, is_told)?;
        let path = told_from(alloc, folder_of(self.shown(place)?), &name)?;
        around.git_folders.push(real)?;
        around.git_folders.push(path)?;
        around.branch = found.git.branch(alloc)?;
        Ok(name)
    }

    /// Whether the top of a work tree is there.
    fn has_top(&self, top: Option<&[u8]>) -> Result<bool, AllocError> {
        match top {
            Some(top) => self.finder.source.can_enter(top),
            None => Ok(false),
        }
    }

    /// The index. One that the environment tells is told from the top of the work tree.
    fn index_file(&self, git_folder: &[u8], top: Option<&[u8]>) -> Result<Vec<u8>, AllocError> {
        let alloc = self.finder.alloc;
        match (&self.finder.variables.index_file, top) {
            (Some(told), Some(top)) if !told.is_empty() => told_from(alloc, top, told),
            (Some(told), _) => Vec::from_slice(alloc, told),
            (None, _) => joined(alloc, git_folder, b"/index"),
        }
    }
}

/// Whether a condition may count for what was read.
fn may_ask<F>(read: &Result<Config, OpenFault<F>>) -> bool {
    match read {
        Ok(config) => has_conditions(config),
        Err(OpenFault::Memory) => false,
        Err(_fault) => true,
    }
}

/// Whether an entry has a condition.
fn has_conditions(config: &Config) -> bool {
    for place in 0..config.len() {
        if has_condition(&config.at(place)) {
            return true;
        }
    }
    false
}

/// Whether the key of an entry has a condition. The key of a word has no section.
fn has_condition(setting: &ReadSetting<'_>) -> bool {
    setting.section.starts_with(b"includeif.") || setting.entry.name.starts_with(b"includeif.")
}
