//! Reading a file, which is looked at before it is opened, and again when it is.

use crate::sight::{FileKind, Sight, is_same_file};
use std::alloc::{AllocError, Global};
use std::fs::OpenFile;
use std::io::{ErrorKind, Read};
use std::rt::Files;
use std::{fs, io};

/// Why a file isn't read.
#[derive(Drop)]
pub enum Unread {
    /// A folder stands there.
    Folder,
    /// A device stands there.
    Device,
    /// A pipe or a socket stands there, which might be waited for.
    Waiting,
    /// Another file took its place before it was opened.
    Replaced,
    /// The system's error, or that memory was refused.
    System(io::Error),
}

impl From<io::Error> for Unread {
    fn from(error: io::Error) -> Unread {
        Unread::System(error)
    }
}

/// A regular file that was opened.
#[derive(Drop)]
pub struct OpenedFile<F> {
    /// The file, of which nothing was read.
    pub file: F,
    /// How many bytes it tells that it has.
    pub len: u64,
}

/// The front of the regular file at a path, so many bytes of it at most. Links are followed, and `/dev/null` has no bytes.
///
/// # Errors
/// Where it can't be read, be it that it isn't there.
pub(crate) fn read_front<R: Files>(
    rt: &R,
    alloc: Global,
    path: &str,
    limit: usize,
) -> Result<Vec<u8>, Unread> {
    let seen = Sight::of(&fs::metadata(rt, path)?);
    read_seen_front(rt, alloc, path, &seen, limit)
}

/// The same of what was seen at the path.
pub(crate) fn read_seen_front<R: Files>(
    rt: &R,
    alloc: Global,
    path: &str,
    seen: &Sight,
    limit: usize,
) -> Result<Vec<u8>, Unread> {
    let mut bytes = Vec::new(alloc);
    if let Some(opened) = open_seen(rt, path, seen)? {
        opened.file.take(limit as u64).read_to_end(&mut bytes)?;
    }
    Ok(bytes)
}

/// Opens the regular file that was seen at a path; `None` where `/dev/null` was seen, which has no bytes.
///
/// # Errors
/// Where something else was seen, the file can't be opened, or another one took its place since.
pub fn open_seen<R: Files>(
    rt: &R,
    path: &str,
    seen: &Sight,
) -> Result<Option<OpenedFile<R::File>>, Unread> {
    match seen.kind {
        FileKind::Regular => {}
        FileKind::Null => return Ok(None),
        FileKind::Device => return Err(Unread::Device),
        FileKind::Folder => return Err(Unread::Folder),
        FileKind::Waiting => return Err(Unread::Waiting),
    }
    let file = fs::open(rt, path)?;
    let found = file.metadata()?;
    if !is_same_file(seen, &Sight::of(&found)) {
        return Err(Unread::Replaced);
    }
    let len = found.len();
    Ok(Some(OpenedFile { file, len }))
}

/// What the system answers; `None` where it answers an error.
///
/// # Errors
/// Only where memory was refused.
pub(crate) fn answered<T>(answer: io::Result<T>) -> Result<Option<T>, AllocError> {
    match answer {
        Ok(found) => Ok(Some(found)),
        Err(error) if error.kind() == ErrorKind::OutOfMemory => Err(AllocError),
        Err(_error) => Ok(None),
    }
}
