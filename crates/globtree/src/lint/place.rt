//! Where ignore files are looked at: the work tree, and the folder in it whose files are told.

use crate::fault::{Fault, Result};
use crate::fronts::{Fronts, case_of};
use crate::index_use::{IndexUse, Taken, take_from_index};
use crate::moving::{current_folder, go_to_folders};
use crate::places::standpoint_at;
use crate::told_name::refuse_beyond_link;
use crate::words::Options;
use crate::words::lint::LintFiles;
use crate::work_tree::{WorkTree, work_tree};
use git_paths::{Standpoint, below_folder};
use git_repository::Purpose;
use gix_glob::pattern::Case;
use std::alloc::Global;
use std::env;
use std::rt::{Env, Files};
use system_files::read_variables;
use tree_commands::check_ignore::PathKinds;
use tree_files::{CheckFault, FileKinds, IndexedFiles};

/// The work tree whose ignore files are looked at, and the folder at or below which findings are told.
#[derive(Drop)]
pub(crate) struct Place {
    /// What counts in the work tree. No list stands before those of its folders, and no ignore file is taken from the index.
    pub(crate) fronts: Fronts,
    /// The path of the folder from the top, without a slash at its end; no bytes for the top.
    pub(crate) folder: Vec<u8>,
    /// Whether the case of letters counts: it does, whatever the configuration says, unless an option says otherwise.
    pub(crate) case: Case,
}

/// Goes to the top of the work tree that a folder lies in, or else the current one, and reads the index.
pub(crate) fn place_of<R: Files + Env + AllocGlobal>(
    rt: &R,
    alloc: Global,
    options: &Options<'_>,
    asked: &LintFiles<'_>,
) -> Result<Place> {
    go_to_folders(rt, alloc, options)?;
    let here = current_folder(rt, alloc)?;
    let is_told = names_tree(rt, alloc, options)?;
    if let (Some(folder), false) = (asked.folder, is_told) {
        go_to_folder(rt, alloc, folder)?;
    }
    let tree = work_tree(rt, alloc, options, Purpose::Paths)?;
    let standpoint = standpoint_at(alloc, &here, tree.standpoint.top.clone()?)?;
    let folder = match asked.folder {
        Some(told) if is_told => led_folder(rt, alloc, &standpoint, told)?,
        Some(_folder) => tree.standpoint.here.clone()?,
        None => folder_here(alloc, &standpoint)?,
    };
    let fronts = fronts_at(rt, alloc, standpoint, tree)?;
    Ok(Place {
        fronts,
        folder,
        case: case_of(options, false),
    })
}

/// Whether options or the environment say which work tree is meant, so that none is looked for.
fn names_tree<R: Env>(rt: &R, alloc: Global, options: &Options<'_>) -> Result<bool> {
    if options.top.is_some() || options.git_dir.is_some() || options.work_tree.is_some() {
        return Ok(true);
    }
    let variables = read_variables(rt, alloc)?;
    Ok(variables.git_dir.is_some() || variables.work_tree.is_some())
}

/// Goes to a folder that is told.
fn go_to_folder<R: Env>(rt: &R, alloc: Global, folder: &str) -> Result<()> {
    if folder.is_empty() {
        return Err(CheckFault::Empty.into());
    }
    env::set_current_dir(rt, folder).map_err(|error| Fault::told(format!(in alloc;
        "'{folder}': {error}"
    )))
}

/// Where a told folder lies in a work tree whose top is the current folder.
fn led_folder<R: Files>(
    rt: &R,
    alloc: Global,
    standpoint: &Standpoint,
    told: &str,
) -> Result<Vec<u8>> {
    refuse_beyond_link(rt, alloc, standpoint, told)?;
    let mut path = Vec::new(alloc);
    if let Err(fault) = standpoint.lead(alloc, &mut path, told.as_bytes()) {
        return Err(CheckFault::of_lead(alloc, told.as_bytes(), fault).into());
    }
    if !path.is_empty() && !FileKinds::new(rt, alloc).is_folder(&path)? {
        return Err(Fault::told(format!(in alloc; "'{told}' is no folder")));
    }
    Ok(path)
}

/// The current folder, where it lies in the work tree, and else the top.
fn folder_here(alloc: Global, standpoint: &Standpoint) -> Result<Vec<u8>> {
    if standpoint.is_inside {
        return Ok(standpoint.here.clone()?);
    }
    Ok(Vec::new(alloc))
}

/// What counts in a work tree, whose paths are told from a standpoint.
fn fronts_at<R: Files>(
    rt: &R,
    alloc: Global,
    standpoint: Standpoint,
    tree: WorkTree,
) -> Result<Fronts> {
    let Taken { tracked, .. } = take_from_index(rt, alloc, &tree.index, IndexUse::Paths)?;
    Ok(Fronts {
        standpoint,
        lists: Vec::new(alloc),
        folds: false,
        quoting: tree.quoting,
        tracked,
        indexed: IndexedFiles::none(alloc),
        git_folder: tree.git_folder,
    })
}

impl Place {
    /// Whether a path is that of the folder's own file, or of what lies below the folder.
    pub(crate) fn holds(&self, path: &[u8]) -> bool {
        below_folder(path, &self.folder).is_some()
    }
}
