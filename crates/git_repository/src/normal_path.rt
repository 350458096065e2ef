//! Paths without `.`, `..` and slashes in a row, by their text alone.
ghost use Rattle.std.specs.Prelude.{◌≤◌, length};

use crate::paths::joined;
use std::alloc::{AllocError, Global};

/// A path without `.`, `..` and slashes in a row; links aren't followed. One that leads above its front stays as it is told; `None` where a
/// name behind one of these stands before that place, since Git has written the name over the path by then.
pub(crate) fn normal_path(alloc: Global, path: &[u8]) -> Result<Option<Vec<u8>>, AllocError> {
    let root = root_of(path);
    let parts: Vec<&[u8]> = path[root.len()..].split(|b| *b == b'/').collect(alloc)?;
    match walk(alloc, &parts)? {
        Destination::To(names) => {
            let text = spelled(alloc, ends_in_folder(&parts), &names)?;
            Ok(Some(joined(alloc, root, &text)?))
        }
        Destination::Above { is_moved: false } => Ok(Some(Vec::from_slice(alloc, path)?)),
        Destination::Above { is_moved: true } => Ok(None),
    }
}

/// Where parts lead.
#[derive(Drop)]
enum Destination<'a> {
    /// To these names.
    To(Vec<&'a [u8]>),
    /// Above their front.
    Above {
        /// Whether a name before that stands behind a part that is none.
        is_moved: bool,
    },
}

/// The slash of a path that is told from the root.
fn root_of(path: &[u8]) -> &[u8]
    ensures { length result.now ≤ length path.now }
{
    if path.starts_with(b"/") { b"/" } else { b"" }
}

/// Where parts lead.
fn walk<'a>(alloc: Global, parts: &[&'a [u8]]) -> Result<Destination<'a>, AllocError> {
    let mut names = Vec::new(alloc);
    let (mut is_behind, mut is_moved) = (false, false);
    for part in parts {
        if stays(part) {
            is_behind = true;
        } else if !goes_up(part) {
            names.push(*part)?;
            is_moved |= is_behind;
        } else if names.pop().is_some() {
            is_behind = true;
        } else {
            return Ok(Destination::Above { is_moved });
        }
    }
    Ok(Destination::To(names))
}

/// Whether a part leads nowhere else.
fn stays(part: &[u8]) -> bool {
    part.is_empty() || part == b".".as_slice()
}

/// Whether a part leads to the folder above.
fn goes_up(part: &[u8]) -> bool {
    part == b"..".as_slice()
}

/// Whether the last part is no name.
fn ends_in_folder(parts: &[&[u8]]) -> bool {
    let mut is_folder = false;
    for part in parts {
        is_folder = stays(part) || goes_up(part);
    }
    is_folder
}

/// Names with slashes between, and at the end where a folder is meant.
fn spelled(alloc: Global, is_folder: bool, names: &[&[u8]]) -> Result<Vec<u8>, AllocError> {
    let mut text = with_slashes(alloc, names)?;
    if !is_folder {
        text.pop();
    }
    Ok(text)
}

/// Names with a slash behind each.
fn with_slashes(alloc: Global, names: &[&[u8]]) -> Result<Vec<u8>, AllocError> {
    let mut text = Vec::new(alloc);
    for name in names {
        text.extend_from_slice(name)?;
        text.push(b'/')?;
    }
    Ok(text)
}
