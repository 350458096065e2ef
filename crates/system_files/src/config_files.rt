//! What a configuration asks of the files of the operating system.
ghost use Rattle.std.specs.Prelude.{◌≡◌, ◌+◌, ◌-◌, ◌<◌, ◌≤◌, None, Some};

use crate::disk_files::DiskFiles;
use crate::fault::{ConfigFileFault, WrongFile};
use crate::reading::{Unread, read_front};
use git_config::{ConfigFiles, FoundFile};
use git_repository::FileSystem;
use std::alloc::{AllocError, Global};
use std::cell::Cell;
use std::io;
use std::io::ErrorKind;
use std::rt::Files;

/// The files that are given have so many bytes in all at most, since each entry of one takes memory: 16 MiB.
pub(crate) const MOST_BYTES: usize = 16 << 20;

/// So many files are given at most: files that include one another could ask for very many.
const MOST_FILES: usize = 10_000;

/// Nothing is known of real files, so nothing is claimed of them.
impl<'a, R: Files> ConfigFiles for DiskFiles<'a, R> {
    type Fault = ConfigFileFault;

    ghost shows = { λ _ _ _. Unit {0} };

    fn find(&self, path: &[u8]) -> Result<Option<FoundFile<Vec<u8>>>, ConfigFileFault> {
        count(&self.asked)?;
        let alloc = self.alloc;
        if let Some(kept) = self.kept_at(path)? {
            if let Some(found) = &kept
                && !take(&self.left, found.bytes.len())
            {
                return wrong(alloc, WrongFile::TooLarge, path);
            }
            return Ok(kept);
        }
        let found = self.read(path)?;
        self.keep(path, &found)?;
        Ok(found)
    }
}

impl<'a, R: Files> DiskFiles<'a, R> {
    /// Reads the file at a path.
    fn read(&self, path: &[u8]) -> Result<Option<FoundFile<Vec<u8>>>, ConfigFileFault> {
        let alloc = self.alloc;
        let Ok(name) = str::from_utf8(path) else {
            return wrong(alloc, WrongFile::Unnamed, path);
        };
        let bytes = match read_front(self.rt, alloc, name, self.left.get().saturating_add(1)) {
            Ok(bytes) => bytes,
            Err(Unread::Folder) => return wrong(alloc, WrongFile::Folder, path),
            Err(Unread::Device | Unread::Waiting) => return wrong(alloc, WrongFile::NoFile, path),
            Err(Unread::Replaced) => return wrong(alloc, WrongFile::Replaced, path),
            Err(Unread::System(error)) => return refused(alloc, &error, path),
        };
        if !take(&self.left, bytes.len()) {
            return wrong(alloc, WrongFile::TooLarge, path);
        }
        let real_path = if has_condition(&bytes) {
            self.real_path(path)?
        } else {
            Some(Vec::new(alloc))
        };
        // (it may have been removed since)
        Ok(real_path.map(|real_path| FoundFile { bytes, real_path }))
    }
}

/// Whether a file may have a section `includeIf`, whose conditions may ask for the file's own path: no name of a section is escaped.
fn has_condition(bytes: &[u8]) -> bool {
    const NAME: &[u8] = b"includeif";
    bytes.split(|b| *b == b'[').any(|rest| {
        rest.get(..NAME.len())
            .is_some_and(|front| front.eq_ignore_ascii_case(NAME))
    })
}

/// Of so many paths it is kept what was found, of those that are asked for first: the system's file, the user's and the repository's, which
/// are read by themselves and once more with all others.
const MOST_KEPT: usize = 8;

/// What was found at a path.
#[derive(Drop)]
pub(crate) struct KeptFile {
    path: Vec<u8>,
    found: Option<FoundFile<Vec<u8>>>,
}

impl<'a, R: Files> DiskFiles<'a, R> {
    /// What was found at a path before, where this is kept.
    fn kept_at(&self, path: &[u8]) -> Result<Option<Option<FoundFile<Vec<u8>>>>, AllocError> {
        let kept = self.kept.replace(Vec::new(self.alloc));
        let found = among(self.alloc, &kept, path);
        self.kept.set(kept);
        found
    }

    /// Keeps what was found. What has a relative path isn't kept: it is another one where the current folder is.
    fn keep(&self, path: &[u8], found: &Option<FoundFile<Vec<u8>>>) -> Result<(), AllocError> {
        let mut kept = self.kept.replace(Vec::new(self.alloc));
        if path.starts_with(b"/") && kept.len() < MOST_KEPT {
            kept.push(KeptFile {
                path: Vec::from_slice(self.alloc, path)?,
                found: copy_of(self.alloc, found)?,
            })?;
        }
        self.kept.set(kept);
        Ok(())
    }
}

/// What was found at a path, where this is among these.
fn among(
    alloc: Global,
    kept: &[KeptFile],
    path: &[u8],
) -> Result<Option<Option<FoundFile<Vec<u8>>>>, AllocError> {
    for file in kept {
        if file.path.as_slice() == path {
            return Ok(Some(copy_of(alloc, &file.found)?));
        }
    }
    Ok(None)
}

/// A copy of what was found.
fn copy_of(
    alloc: Global,
    found: &Option<FoundFile<Vec<u8>>>,
) -> Result<Option<FoundFile<Vec<u8>>>, AllocError> {
    match found {
        Some(found) => Ok(Some(FoundFile {
            bytes: Vec::from_slice(alloc, &found.bytes)?,
            real_path: Vec::from_slice(alloc, &found.real_path)?,
        })),
        None => Ok(None),
    }
}

/// Counts a file that is asked for.
fn count(asked: &Cell<usize>) -> Result<(), ConfigFileFault> {
    let Some(more) = one_more(asked.get()) else {
        return Err(ConfigFileFault::TooMany);
    };
    asked.set(more);
    Ok(())
}

/// The number of files with one more that is asked for; `None` where that is too many.
fn one_more(asked: usize) -> Option<usize>
    ensures few { asked < 10000 → result ≡ Some (asked + 1) }
    ensures many { 10000 ≤ asked → result ≡ None }
{
    if asked < MOST_FILES {
        Some(asked + 1)
    } else {
        None
    }
}

/// Takes the bytes of a file from those that may be given. It answers whether so many are left.
fn take(left: &Cell<usize>, count: usize) -> bool {
    let Some(rest) = left_behind(left.get(), count) else {
        return false;
    };
    left.set(rest);
    true
}

/// How many bytes are left behind so many; `None` where that is too many.
fn left_behind(left: usize, count: usize) -> Option<usize>
    ensures few { count ≤ left → result ≡ Some (left - count) }
    ensures many { left < count → result ≡ None }
{
    left.checked_sub(count)
}

/// The answer for a file that the system refuses, or that isn't there.
fn refused<F>(alloc: Global, error: &io::Error, path: &[u8]) -> Result<Option<F>, ConfigFileFault> {
    match error.kind() {
        ErrorKind::OutOfMemory => Err(ConfigFileFault::Memory),
        ErrorKind::NotFound | ErrorKind::NotADirectory => Ok(None),
        _ => wrong(alloc, WrongFile::Refused(reason_of(alloc, error)?), path),
    }
}

/// The fault of the file at a path.
fn wrong<F>(alloc: Global, what: WrongFile, path: &[u8]) -> Result<Option<F>, ConfigFileFault> {
    Err(ConfigFileFault::At(what, Vec::from_slice(alloc, path)?))
}

/// The system's words for an error, without its number.
pub(crate) fn reason_of(alloc: Global, error: &io::Error) -> Result<String, AllocError> {
    let told = format!(in alloc; "{error}")?;
    String::from_str(alloc, without_number(told.as_str()))
}

/// What stands before the system's number of an error.
fn without_number(told: &str) -> &str {
    match told.split_once(" (os error ") {
        Some((words, _number)) => words,
        None => told,
    }
}
