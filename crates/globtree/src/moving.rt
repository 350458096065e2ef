//! Going to the folders that the words name, and to the top of the work tree.

use crate::fault::{Fault, Result};
use crate::words::Options;
use std::alloc::Global;
use std::env;
use std::path::PathBuf;
use std::rt::{Env, Files};

/// Goes to each folder that `-C` names, from the one before it. One without a name is the current one.
pub(crate) fn go_to_folders<R: Files + Env>(
    rt: &R,
    alloc: Global,
    options: &Options<'_>,
) -> Result<()> {
    for folder in &options.folders {
        if !folder.is_empty() {
            env::set_current_dir(rt, *folder).map_err(|error| {
                Fault::told(format!(in alloc; "cannot change to '{folder}': {error}"))
            })?;
        }
    }
    Ok(())
}

/// Goes to the top of a work tree, and answers its path, as [`current_folder`] does.
pub(crate) fn go_to_top<R: Files + Env + AllocGlobal>(
    rt: &R,
    alloc: Global,
    top: &str,
) -> Result<Vec<u8>> {
    env::set_current_dir(rt, top).map_err(|error| Fault::told(format!(in alloc;
        "the top {top}: {error}"
    )))?;
    current_folder(rt, alloc)
}

/// The path of the current folder from the root, without links and without the slash at its front.
pub(crate) fn current_folder<R: Env + AllocGlobal>(rt: &R, alloc: Global) -> Result<Vec<u8>> {
    let folder = current_path(rt, alloc)?;
    let path = folder.as_str().as_bytes();
    let left = path.strip_prefix(b"/").unwrap_or(path);
    Ok(Vec::from_slice(alloc, left)?)
}

/// The path of the current folder from the root, without links.
pub(crate) fn current_path<R: Env + AllocGlobal>(rt: &R, alloc: Global) -> Result<PathBuf> {
    env::current_dir(rt).map_err(|error| Fault::told(format!(in alloc;
        "the current folder: {error}"
    )))
}
