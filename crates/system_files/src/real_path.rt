//! The path of a file from the root, without links, as Git finds it.

use crate::parts::{first_part, leave};
use crate::reading::answered;
use std::alloc::{AllocError, Global};
use std::io::ErrorKind;
use std::path::PathBuf;
use std::rt::Files;
use std::{fs, io};

/// So many links are followed in one path: Git follows no more.
const MOST_LINKS: usize = 33;

/// Where a part of a path leads, or all its parts.
#[derive(Drop)]
enum Lead {
    /// To what was reached, be it that nothing stands there.
    Here,
    /// From what was reached by this path, which stands for a link and what follows it.
    By(Vec<u8>),
    /// Nowhere.
    Nowhere,
}

/// The path from the root without links. Its last part may be missing, if no slash follows it. A part `..` leads back also from what is
/// no folder. `None` where the path leads nowhere or over more than 33 links, or where a name on the way is no UTF-8 text.
///
/// # Errors
/// Only where memory was refused.
pub(crate) fn real_path<R: Files>(
    rt: &R,
    alloc: Global,
    path: &[u8],
) -> Result<Option<Vec<u8>>, AllocError> {
    let Some(mut reached) = start_of(rt, alloc, path)? else {
        return Ok(None);
    };
    let mut rest = Vec::from_slice(alloc, path)?;
    'links: for _ in 0..MOST_LINKS + 1 {
        match walk(rt, alloc, &mut reached, &rest)? {
            Lead::Here => return Ok(Some(named(reached)?)),
            Lead::By(next) => rest = next,
            Lead::Nowhere => return Ok(None),
        }
    }
    Ok(None)
}

/// The folder that a path is told from, the root being named by an empty text; `None` where the path has no bytes, or the current folder
/// can't be told.
fn start_of<R: Files>(rt: &R, alloc: Global, path: &[u8]) -> Result<Option<Vec<u8>>, AllocError> {
    if path.is_empty() {
        return Ok(None);
    }
    if path.starts_with(b"/") {
        return Ok(Some(Vec::new(alloc)));
    }
    let Some(current) = answered(rt.canonicalize(alloc, "."))? else {
        return Ok(None);
    };
    let mut folder = current.into_string().into_bytes();
    if folder.ends_with(b"/") {
        leave(&mut folder);
    }
    Ok(Some(folder))
}

/// A path from the root: there the root has its slash.
fn named(mut path: Vec<u8>) -> Result<Vec<u8>, AllocError> {
    if path.is_empty() {
        path.push(b'/')?;
    }
    Ok(path)
}

/// Goes the parts of a path, up to the first that is a link.
fn walk<R: Files>(
    rt: &R,
    alloc: Global,
    reached: &mut Vec<u8>,
    path: &[u8],
) -> Result<Lead, AllocError> {
    let mut rest = path;
    'parts: while let Some((part, tail)) = first_part(rest) {
        match step(rt, alloc, reached, part, tail.is_empty())? {
            Lead::Here => rest = tail,
            Lead::By(mut text) => {
                text.extend_from_slice(tail)?;
                return Ok(Lead::By(text));
            }
            Lead::Nowhere => return Ok(Lead::Nowhere),
        }
    }
    Ok(Lead::Here)
}

/// Goes one part.
fn step<R: Files>(
    rt: &R,
    alloc: Global,
    reached: &mut Vec<u8>,
    part: &[u8],
    is_last: bool,
) -> Result<Lead, AllocError> {
    match part {
        b"." => return Ok(Lead::Here),
        b".." => {
            leave(reached);
            return Ok(Lead::Here);
        }
        _ => {}
    }
    reached.push(b'/')?;
    reached.extend_from_slice(part)?;
    let Ok(name) = str::from_utf8(reached) else {
        return Ok(Lead::Nowhere);
    };
    match fs::symlink_metadata(rt, name) {
        Ok(found) if found.is_symlink() => follow(rt.read_link(alloc, name), reached),
        Ok(_found) => Ok(Lead::Here),
        Err(error) => missed(&error, is_last),
    }
}

/// Follows a link that was reached: it is left, since its text is told from its folder, or from the root.
fn follow(link: io::Result<PathBuf>, reached: &mut Vec<u8>) -> Result<Lead, AllocError> {
    let Some(path) = answered(link)? else {
        return Ok(Lead::Nowhere);
    };
    let text = path.into_string().into_bytes();
    if text.starts_with(b"/") {
        reached.clear();
    } else {
        leave(reached);
    }
    Ok(Lead::By(text))
}

/// Where a part leads that can't be looked at: the last one may be missing.
fn missed(error: &io::Error, is_last: bool) -> Result<Lead, AllocError> {
    match error.kind() {
        ErrorKind::OutOfMemory => Err(AllocError),
        ErrorKind::NotFound if is_last => Ok(Lead::Here),
        _ => Ok(Lead::Nowhere),
    }
}
