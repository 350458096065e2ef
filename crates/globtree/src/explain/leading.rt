//! Where a word leads that tells a path, as `check-ignore` goes there.

use crate::fault::Result;
use git_paths::Standpoint;
use pathspecs::Pathspec;
use std::alloc::Global;
use std::rt::Files;
use tree_commands::check_ignore::{IgnoreFault, PathKinds};
use tree_files::{CheckFault, FileKinds};

/// Where a word leads.
#[derive(Drop)]
pub(crate) struct Led {
    /// The path from the top, without a slash at its end.
    pub(crate) path: Vec<u8>,
    /// Whether a folder stands there, or it is told as one.
    pub(crate) is_folder: bool,
    /// How many bytes of the current folder's path stay in front, which are no pattern.
    pub(crate) literal: usize,
}

/// Goes where a word leads.
pub(crate) fn lead<R: Files>(
    alloc: Global,
    standpoint: &Standpoint,
    kinds: &mut FileKinds<'_, R>,
    told: &[u8],
) -> Result<Led> {
    if told.is_empty() {
        return Err(CheckFault::Empty.into());
    }
    let Some(spelt) = Pathspec::spelt_by(told) else {
        let word = Vec::from_slice(alloc, told)?;
        return Err(CheckFault::of_ignore(alloc, IgnoreFault::Unspelt(word)).into());
    };
    let mut path = Vec::new(alloc);
    let is_told_folder = match spelt.lead(alloc, standpoint, &mut path)? {
        Some(is_told_folder) => is_told_folder,
        None => match lead_by_links(alloc, &spelt, kinds, &mut path)? {
            Some(is_told_folder) => is_told_folder,
            None => {
                let word = Vec::from_slice(alloc, told)?;
                return Err(CheckFault::of_ignore(alloc, IgnoreFault::Outside(word)).into());
            }
        },
    };
    if is_told_folder && !path.is_empty() {
        kinds.check_folder(&path)?;
    }
    let is_folder = !path.is_empty() && (is_told_folder || kinds.is_folder(&path)?);
    Ok(Led {
        path,
        is_folder,
        literal: spelt.literal_front(standpoint),
    })
}

/// Goes where a path leads that is told from the root, by a link to the top or to a folder above it. It answers whether it is told as a
/// folder's; `None` where it leads out of the work tree.
fn lead_by_links<R: Files>(
    alloc: Global,
    spelt: &Pathspec<'_>,
    kinds: &mut FileKinds<'_, R>,
    path: &mut Vec<u8>,
) -> Result<Option<bool>> {
    let Some(is_told_folder) = spelt.lead_from_root(path)? else {
        return Ok(None);
    };
    let Some(below) = below_top(kinds, path)? else {
        return Ok(None);
    };
    *path = Vec::from_slice(alloc, below)?;
    Ok(Some(is_told_folder))
}

/// What is left of a path from the root below the first of its folders that is the top; nothing where the path itself is.
fn below_top<'p, R: Files>(
    kinds: &mut FileKinds<'_, R>,
    path: &'p [u8],
) -> Result<Option<&'p [u8]>> {
    'folders: for (end, byte) in path.iter().enumerate() {
        if *byte == b'/' && kinds.is_top(&path[..end])? {
            return Ok(Some(&path[end + 1..]));
        }
    }
    if kinds.is_top(path)? {
        return Ok(Some(&path[path.len()..]));
    }
    Ok(None)
}
