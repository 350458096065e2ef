//! The work tree that a command is called in: where paths are told from, and the files that count in all of it.

use crate::fault::{Fault, Result};
use crate::moving::{current_folder, go_to_top};
use crate::opening::open_here;
use crate::places::{from_root, standpoint_at, standpoint_in};
use crate::tracked::IndexFile;
use crate::words::Options;
use git_config::Config;
use git_index::ObjectFormat;
use git_paths::{Quoting, Standpoint, below_folder};
use git_repository::{Purpose, Repository, ShowUntracked, settings_file, told_from};
use std::alloc::{AllocError, Global};
use std::rt::{Env, Files};
use system_files::variable;
use tree_files::path_text;

/// What counts for all paths of a work tree, whose top is the current folder.
#[derive(Drop)]
pub(crate) struct WorkTree {
    /// Where paths are told from.
    pub(crate) standpoint: Standpoint,
    /// Whether the configuration says that the case of letters doesn't count.
    pub(crate) folds: bool,
    /// Which names stand in quotes, by the configuration.
    pub(crate) quoting: Quoting,
    /// The file of excludes for all repositories.
    pub(crate) excludes: Option<Vec<u8>>,
    /// The file that a listing takes in its place, as `git ls-files` does; `None` where it takes the same.
    pub(crate) listing_excludes: Option<Vec<u8>>,
    /// The file of attributes for all repositories.
    pub(crate) attributes: Option<Vec<u8>>,
    /// Which files `status` tells that aren't tracked, where no option says so.
    pub(crate) untracked: ShowUntracked,
    /// Whether `status --short` tells paths from where paths are told.
    pub(crate) relative_paths: bool,
    /// The repository's own file of excludes.
    pub(crate) own_excludes: String,
    /// The repository's own file of attributes.
    pub(crate) own_attributes: String,
    /// The git folder; `None` where no repository is looked for.
    pub(crate) git_folder: Option<Vec<u8>>,
    /// The index; `None` where no repository is looked for.
    pub(crate) index: Option<IndexFile>,
}

/// Goes to the top of the work tree: the folder that is named, or that of the repository of the current folder.
pub(crate) fn work_tree<R: Files + Env + AllocGlobal>(
    rt: &R,
    alloc: Global,
    options: &Options<'_>,
    purpose: Purpose,
) -> Result<WorkTree> {
    match options.top {
        Some(top) => named_tree(rt, alloc, top),
        None => tree_of_repository(rt, alloc, options, purpose),
    }
}

/// The work tree with a top that is named: no repository is looked for, and no configuration is read.
fn named_tree<R: Files + Env + AllocGlobal>(rt: &R, alloc: Global, top: &str) -> Result<WorkTree> {
    let here = current_folder(rt, alloc)?;
    let top = go_to_top(rt, alloc, top)?;
    Ok(WorkTree {
        standpoint: standpoint_at(alloc, &here, top)?,
        folds: false,
        quoting: Quoting::Full,
        excludes: users_file(rt, alloc, b"ignore")?,
        listing_excludes: None,
        attributes: users_file(rt, alloc, b"attributes")?,
        untracked: ShowUntracked::Normal,
        relative_paths: true,
        own_excludes: String::from_str(alloc, ".git/info/exclude")?,
        own_attributes: String::from_str(alloc, ".git/info/attributes")?,
        git_folder: None,
        index: None,
    })
}

/// The name of a file in Git's part of the user's folder of settings, whether it is there or not.
fn users_file<R: Env>(rt: &R, alloc: Global, name: &[u8]) -> Result<Option<Vec<u8>>> {
    let home = variable(rt, alloc, "HOME")?;
    let settings = variable(rt, alloc, "XDG_CONFIG_HOME")?;
    Ok(settings_file(alloc, settings.as_deref(), home.as_deref(), name)?)
}

/// The work tree of the repository of the current folder. From a folder outside of it, paths are told from its top.
fn tree_of_repository<R: Files + Env + AllocGlobal>(
    rt: &R,
    alloc: Global,
    options: &Options<'_>,
    purpose: Purpose,
) -> Result<WorkTree> {
    let here = current_folder(rt, alloc)?;
    let current = from_root(alloc, &here)?;
    let opened = open_here(rt, alloc, options, &current, purpose)?;
    let Some(top) = opened.top.as_deref() else {
        return Err(Fault::NoWorkTree);
    };
    let top = path_text(alloc, &told_from(alloc, &current, top)?)?;
    let top = go_to_top(rt, alloc, top.as_str())?;
    let is_outside = below_folder(&here, &top).is_none();
    let standpoint = standpoint_in(alloc, &here, top)?;
    tree_at(alloc, standpoint, is_outside, &current, opened)
}

/// The work tree of an opened repository, of which the configuration tells files from the top, and all else from this folder.
fn tree_at(
    alloc: Global,
    standpoint: Standpoint,
    is_outside: bool,
    current: &[u8],
    opened: Repository,
) -> Result<WorkTree> {
    let own_attributes = told_from(alloc, current, &opened.attributes_file)?;
    let git_folder = told_from(alloc, current, &opened.git_folder)?;
    let index = index_file_of(alloc, current, &opened)?;
    let listing_excludes = listing_excludes(alloc, current, is_outside, &opened.core.excludes)?;
    let own_excludes = opened.exclude_name.ok_or(Fault::NoWorkTree)?;
    Ok(WorkTree {
        standpoint,
        folds: opened.core.ignore_case,
        quoting: quoting_of(opened.core.quote_path),
        excludes: opened.core.excludes,
        listing_excludes,
        attributes: opened.core.attributes,
        untracked: opened.core.untracked,
        relative_paths: opened.core.relative_paths,
        own_excludes: path_text(alloc, &own_excludes)?,
        own_attributes: path_text(alloc, &own_attributes)?,
        git_folder: Some(git_folder),
        index: Some(index),
    })
}

/// The file of excludes that a listing takes in place of this one. Outside of the work tree, a relative path is told from the current folder.
fn listing_excludes(
    alloc: Global,
    current: &[u8],
    is_outside: bool,
    file: &Option<Vec<u8>>,
) -> Result<Option<Vec<u8>>, AllocError> {
    match file {
        Some(path) if is_outside && !path.is_empty() && !path.starts_with(b"/") => {
            Ok(Some(told_from(alloc, current, path)?))
        }
        _ => Ok(None),
    }
}

/// The index of an opened repository, which is told from this folder.
fn index_file_of(alloc: Global, current: &[u8], opened: &Repository) -> Result<IndexFile> {
    let name = index_name(alloc, current, &opened.index_file)?;
    let git_folder = told_from(alloc, current, &opened.git_folder)?;
    Ok(IndexFile {
        name: path_text(alloc, &name)?,
        git_folder: path_text(alloc, &git_folder)?,
        format: format_of(&opened.config),
    })
}

/// The path of an index that is told from a folder. One without bytes is that of no file.
fn index_name(alloc: Global, current: &[u8], told: &[u8]) -> Result<Vec<u8>, AllocError> {
    if told.is_empty() {
        Ok(Vec::new(alloc))
    } else {
        told_from(alloc, current, told)
    }
}

/// The index of a repository, and from where its paths are told.
#[derive(Drop)]
pub(crate) struct IndexPlace {
    /// The current folder where it lies in the work tree, and else the top.
    pub(crate) standpoint: Standpoint,
    /// Which names stand in quotes, by the configuration.
    pub(crate) quoting: Quoting,
    /// The index.
    pub(crate) index: IndexFile,
}

/// The index of the repository of the current folder, which may have no work tree.
pub(crate) fn index_place<R: Files + Env + AllocGlobal>(
    rt: &R,
    alloc: Global,
    options: &Options<'_>,
) -> Result<IndexPlace> {
    let here = current_folder(rt, alloc)?;
    let current = from_root(alloc, &here)?;
    let opened = open_here(rt, alloc, options, &current, Purpose::Index)?;
    let index = index_file_of(alloc, &current, &opened)?;
    let quoting = quoting_of(opened.core.quote_path);
    let standpoint = standpoint_below(alloc, &here, &current, opened.top.as_deref())?;
    Ok(IndexPlace {
        standpoint,
        quoting,
        index,
    })
}

/// From where paths are told below the top of a work tree, which is told from the current folder: from this, where it lies in the work tree,
/// and else from the top, which may be missing. Without a work tree they are told as they are.
fn standpoint_below(
    alloc: Global,
    here: &[u8],
    current: &[u8],
    top: Option<&[u8]>,
) -> Result<Standpoint, AllocError> {
    let Some(top) = top else {
        return standpoint_in(alloc, b"", Vec::new(alloc));
    };
    let top = told_from(alloc, current, top)?;
    let left = top.strip_prefix(b"/").unwrap_or(&top);
    standpoint_in(alloc, here, Vec::from_slice(alloc, left)?)
}

/// Which names stand in quotes: all with bytes past ASCII, unless that is configured otherwise.
fn quoting_of(quotes_paths: bool) -> Quoting {
    if quotes_paths {
        Quoting::Full
    } else {
        Quoting::AsciiOnly
    }
}

/// The digest that names objects, by the configuration.
fn format_of(config: &Config) -> ObjectFormat {
    match config.last_of(b"extensions.objectformat") {
        Some(setting) => format_named(setting.entry.value),
        None => ObjectFormat::Sha1,
    }
}

/// The digest that a value names.
fn format_named(value: Option<&[u8]>) -> ObjectFormat {
    match value {
        Some(name) if name == b"sha256".as_slice() => ObjectFormat::Sha256,
        _ => ObjectFormat::Sha1,
    }
}
