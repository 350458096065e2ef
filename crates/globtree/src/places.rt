//! Where paths are told from, by the paths of the current folder and of the top, both without the slash at their front.

use git_paths::{Standpoint, below_folder};
use std::alloc::{AllocError, Global};

/// From the current folder, where it lies in the work tree, and else from the top.
pub(crate) fn standpoint_in(
    alloc: Global,
    here: &[u8],
    top: Vec<u8>,
) -> Result<Standpoint, AllocError> {
    let here = match below_folder(here, &top) {
        Some(below) => Vec::from_slice(alloc, below)?,
        None => Vec::new(alloc),
    };
    Ok(Standpoint {
        top,
        here,
        is_inside: true,
    })
}

/// From the current folder, wherever it lies.
pub(crate) fn standpoint_at(
    alloc: Global,
    here: &[u8],
    top: Vec<u8>,
) -> Result<Standpoint, AllocError> {
    let below = below_folder(here, &top);
    let is_inside = below.is_some();
    let here = Vec::from_slice(alloc, below.unwrap_or(here))?;
    Ok(Standpoint {
        top,
        here,
        is_inside,
    })
}

/// A path with the slash at its front; that of the root has no bytes.
pub(crate) fn from_root(alloc: Global, path: &[u8]) -> Result<Vec<u8>, AllocError> {
    let mut whole = Vec::new(alloc);
    if !path.is_empty() {
        whole.push(b'/')?;
        whole.extend_from_slice(path)?;
    }
    Ok(whole)
}

/// The same standpoint once more.
pub(crate) fn copy_of(standpoint: &Standpoint) -> Result<Standpoint, AllocError> {
    Ok(Standpoint {
        top: standpoint.top.clone()?,
        here: standpoint.here.clone()?,
        is_inside: standpoint.is_inside,
    })
}

/// From the top of the same work tree.
pub(crate) fn at_top(standpoint: &Standpoint) -> Result<Standpoint, AllocError> {
    let mut top = copy_of(standpoint)?;
    top.here.clear();
    top.is_inside = true;
    Ok(top)
}
