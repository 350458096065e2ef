//! What the repository's own files say of how it is read: its format, and its work tree.
ghost use Rattle.std.specs.Prelude.{◌≤◌, IsTrue};

use crate::bytes::copied;
use crate::core_values::{boolean_at, key_of, short_key};
use crate::faults::OpenFault;
use crate::found::GitFolder;
use crate::paths::joined;
use crate::value_faults::{bytes_of, check_values};
use git_config::{Config, ConfigFault, ConfigFiles, integer};
use std::alloc::{AllocError, Global};

/// What the file `config` of the common folder says without the files that it includes, and with `extensions.worktreeConfig` the file
/// `config.worktree` of the git folder behind it. The last value of a key counts.
#[derive(Drop)]
pub(crate) struct OwnSettings {
    /// Whether `core.repositoryFormatVersion` is said and isn't negative. Without it the other settings don't count.
    pub(crate) has_version: bool,
    /// Whether `extensions.worktreeConfig` is true.
    pub(crate) has_worktree_config: bool,
    /// Whether `core.bare` is true.
    pub(crate) is_bare: bool,
    /// `core.worktree`.
    pub(crate) work_tree: Option<Vec<u8>>,
}

impl OwnSettings {
    /// Reads the files.
    pub(crate) fn read<F: ConfigFiles>(
        alloc: Global,
        files: &F,
        git: &GitFolder,
    ) -> Result<OwnSettings, OpenFault<F::Fault>> {
        let mut config = Config::new(alloc);
        add_alone(
            alloc,
            files,
            git.common_file(alloc, b"/config")?,
            &mut config,
        )?;
        check_values(alloc, true, &config)?;
        let version = version_of(&config);
        check_format(alloc, version, &config)?;
        let has_version = version.is_some();
        let has_worktree_config = has_version
            && boolean_at(&config, b"extensions.worktreeconfig", false);
        if has_worktree_config {
            let path = joined(alloc, &git.path, b"/config.worktree")?;
            add_alone(alloc, files, path, &mut config)?;
            check_values(alloc, false, &config)?;
        }
        Ok(OwnSettings {
            has_version,
            has_worktree_config,
            is_bare: boolean_at(&config, b"core.bare", false),
            work_tree: last_bytes(alloc, &config, b"core.worktree")?,
        })
    }

    /// Whether `core.bare` and `core.worktree` count: only with a version, and only where the git folder is its own common folder or
    /// `extensions.worktreeConfig` is true.
    pub(crate) fn count_in(&self, git: &GitFolder) -> bool {
        self.has_version && (self.has_worktree_config || git.common.is_none())
    }
}

/// Adds the entries of the file at a path, without the files that it includes. One that isn't there has none.
fn add_alone<F: ConfigFiles>(
    alloc: Global,
    files: &F,
    path: Vec<u8>,
    config: &mut Config,
) -> Result<(), OpenFault<F::Fault>> {
    let bytes = match files.find(&path) {
        Ok(Some(found)) => found.bytes,
        Ok(None) => return Ok(()),
        Err(fault) => return Err(OpenFault::File(fault)),
    };
    match config.add_file(alloc, &path, &bytes) {
        Ok(()) => Ok(()),
        Err(ConfigFault::Memory) => Err(OpenFault::Memory),
        Err(ConfigFault::Line { line, .. }) => Err(OpenFault::Line {
            file: Some(path),
            line,
        }),
    }
}

/// The version of the format, unless it is negative.
fn version_of(config: &Config) -> Option<u32> {
    let setting = config.last_of(b"core.repositoryformatversion")?;
    let number = integer(bytes_of(setting.entry.value))?;
    if number < 0 {
        None
    } else {
        Some(number as u32)
    }
}

/// Refuses a format that can't be read: a version above 1; else an extension that isn't known, with version 1, or that is of version 1, with
/// version 0. Without a version there is none that can't.
fn check_format<F>(
    alloc: Global,
    version: Option<u32>,
    config: &Config,
) -> Result<(), OpenFault<F>> {
    let Some(version) = version else {
        return Ok(());
    };
    if !is_read(version) {
        return Err(OpenFault::Version(version));
    }
    for place in 0..config.len() {
        let setting = config.at(place);
        let key = short_key(alloc, &setting)?;
        let Some(name) = key.strip_prefix(b"extensions.") else {
            continue;
        };
        if !accepts(version, name) {
            let whole = key_of(alloc, &setting)?;
            let name = whole.strip_prefix(b"extensions.").unwrap_or(name);
            let name = Vec::from_slice(alloc, name)?;
            return Err(if version == 0 {
                OpenFault::OnlyVersion1(name)
            } else {
                OpenFault::Unknown(name)
            });
        }
    }
    Ok(())
}

/// Whether a version of the format can be read.
fn is_read(version: u32) -> bool
    ensures { IsTrue result → version ≤ 1 }
{
    version <= 1
}

/// Whether a version accepts an extension, whose name stands in lower case.
fn accepts(version: u32, name: &[u8]) -> bool {
    match name {
        b"noop" | b"preciousobjects" | b"partialclone" | b"worktreeconfig" => true,
        b"noop-v1" | b"objectformat" => version == 1,
        _ => version == 0,
    }
}

/// The bytes of the last entry of a key, where it has any.
fn last_bytes(alloc: Global, config: &Config, key: &[u8]) -> Result<Option<Vec<u8>>, AllocError> {
    match config.last_of(key) {
        Some(setting) => copied(alloc, setting.entry.value),
        None => Ok(None),
    }
}
