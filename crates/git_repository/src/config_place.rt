//! Where the configuration lies that counts in a current folder, in a repository or outside of one, and how Git names its files.

use crate::bytes::copied;
use crate::faults::{FindFault, Hidden, OpenFault, Wrong};
use crate::file_system::FileSystem;
use crate::found::Found;
use crate::naming::file_in;
use crate::own_files::OwnSettings;
use crate::paths::{joined, without_dot};
use crate::setup::Setup;
use crate::sources::config_sources;
use git_config::{Config, ConfigFiles, Surroundings};
use std::alloc::{AllocError, Global};

/// Where the configuration lies that counts in a current folder.
#[derive(Debug, Drop)]
pub struct ConfigPlace {
    /// The folder that its files are told from; `None` where this is the current folder.
    pub top: Option<Vec<u8>>,
    /// The name of the repository's file; `None` outside of a repository.
    pub config: Option<Vec<u8>>,
    /// The name of the file for this work tree alone; `None` where there is none.
    pub work_tree: Option<Vec<u8>>,
    /// The reference that `HEAD` names, where the branch isn't certain: Git may refuse this reference, or follow it to another.
    pub uncertain: Option<Vec<u8>>,
    /// What can't be looked at, where there may be a repository and none was found.
    pub hidden: Option<Hidden>,
}

impl ConfigPlace {
    /// The place without a repository, from which Git has gone to this top.
    fn outside(top: Option<Vec<u8>>, hidden: Option<Hidden>) -> ConfigPlace {
        ConfigPlace {
            top,
            config: None,
            work_tree: None,
            uncertain: None,
            hidden,
        }
    }
}

impl<'a, S: FileSystem + ConfigFiles> Setup<'a, S> {
    /// Tells where the configuration lies that counts in the current folder, and fills `around` as [`Setup::open`] does. Where there is no
    /// repository, or Git takes one for none since it may not be taken or its format is unknown, there is no file of one.
    ///
    /// # Errors
    /// The first fault in Git's order, as [`Setup::open`] tells it. Of the files only those are read that say where a repository is.
    pub fn config_place(
        &self,
        around: &mut Surroundings,
    ) -> Result<ConfigPlace, OpenFault<S::Fault>> {
        self.read(around, None, self.outer_files()?)?;
        let found = match self.find(around) {
            Ok(found) => found,
            Err(fault) if is_outside(&fault) => {
                let hidden = hidden_by(self.finder.alloc, &fault)?;
                return Ok(ConfigPlace::outside(None, hidden));
            }
            Err(fault) => return Err(fault),
        };
        match self.place_in(around, &found) {
            // (Git has gone to its top by then)
            Err(OpenFault::Version(_) | OpenFault::Unknown(_) | OpenFault::OnlyVersion1(_)) => {
                let top = self.above(Some(&found.top));
                Ok(ConfigPlace::outside(copied(self.finder.alloc, top)?, None))
            }
            place => place,
        }
    }

    /// The place in a repository that was found.
    fn place_in(
        &self,
        around: &mut Surroundings,
        found: &Found,
    ) -> Result<ConfigPlace, OpenFault<S::Fault>> {
        let (alloc, source) = (self.finder.alloc, self.finder.source);
        let own = OwnSettings::read(alloc, source, &found.git)?;
        let top = self.work_tree_of(found, &own)?;
        let name = self.know(around, found, &own, top.as_deref())?;
        let common = found.git.common.as_deref().unwrap_or(&name);
        let config = joined(alloc, common, b"/config")?;
        let work_tree = if own.has_worktree_config {
            Some(file_in(alloc, &name, b"/config.worktree")?)
        } else {
            None
        };
        Ok(ConfigPlace {
            top: copied(alloc, self.above(top.as_deref()))?,
            config: Some(Vec::from_slice(alloc, without_dot(&config))?),
            work_tree,
            uncertain: found.git.uncertain(alloc, source)?,
            hidden: None,
        })
    }

    /// The entries of the files and words of a place, whose `around` was filled. Files that aren't absolute are asked for by their names,
    /// so go to `top` before.
    ///
    /// # Errors
    /// The first fault in Git's order, as [`Setup::open`] tells it.
    pub fn read_config(
        &self,
        around: &mut Surroundings,
        place: &ConfigPlace,
    ) -> Result<Config, OpenFault<S::Fault>> {
        let listed = config_sources(
            self.finder.alloc,
            self.finder.variables,
            place.config.as_deref(),
            place.work_tree.as_deref(),
            self.words,
        )?;
        self.read(around, place.uncertain.as_deref(), listed)
    }
}

/// What can't be looked at, where this is why there is no repository.
fn hidden_by<F>(alloc: Global, fault: &OpenFault<F>) -> Result<Option<Hidden>, AllocError> {
    match fault {
        OpenFault::Find(FindFault::Hidden(hidden)) => Ok(Some(Hidden {
            named: copied(alloc, hidden.named.as_deref())?,
            path: Vec::from_slice(alloc, &hidden.path)?,
            reason: Vec::from_slice(alloc, &hidden.reason)?,
        })),
        _ => Ok(None),
    }
}

/// Whether Git, where a command needs no repository, takes this fault for a sign that there is none.
fn is_outside<F>(fault: &OpenFault<F>) -> bool {
    match fault {
        OpenFault::Find(FindFault::NotFound | FindFault::Hidden(_)) => true,
        OpenFault::Find(FindFault::At(wrong, _path)) => matches!(
            wrong,
            Wrong::NotNamed | Wrong::Border | Wrong::Owner | Wrong::Bare
        ),
        _ => false,
    }
}
