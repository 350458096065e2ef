//! What the search for a repository asks files about: paths, git folders, and where files `.git` lead.
ghost use Rattle.std.specs.Prelude.{◌≡◌, ◌≤◌, length};
ghost use Rattle.std.specs.Char.{is_ascii_hexdigit};
ghost use Rattle.std.specs.List.{prefix_len};

use crate::faults::{FindFault, Hidden, Wrong};
use crate::file_system::{FileSystem, Held};
use crate::found::{GitFolder, Head};
use crate::paths::{joined, told_by, told_from, without_blanks, without_line_ends};
use crate::variables::Variables;
use std::alloc::{AllocError, Global};

/// A file that tells a path or a reference has so many bytes at most.
const FILE_LIMIT: usize = 1 << 20;

/// So many bytes of `HEAD` say whether it is one.
const HEAD_LEN: usize = 255;

/// So many hexadecimal digits name a commit.
const COMMIT_LEN: usize = 40;

/// The files that are looked at, and the variables that say how.
#[derive(Drop)]
pub struct Finder<'a, S> {
    /// The allocator.
    pub alloc: Global,
    /// The files.
    pub source: &'a S,
    /// The variables.
    pub variables: &'a Variables,
}

impl<'a, S: FileSystem> Finder<'a, S> {
    /// Whether what stands at this path, a `.git` in a folder of a work tree, makes the folder a repository of its own: it is a git folder, or
    /// a file that leads to one or can't be read.
    ///
    /// # Errors
    /// Where its common folder can't be told, and where memory was refused.
    pub fn is_repository(&self, git: &[u8]) -> Result<bool, FindFault> {
        if !self.source.is_file(git)? {
            return Ok(self.git_folder(git)?.is_some());
        }
        match self.led_by(git) {
            Ok(_folder) => Ok(true),
            Err(FindFault::At(Wrong::Unreadable, _file)) => Ok(true),
            Err(
                FindFault::At(
                    Wrong::TooLarge | Wrong::Format | Wrong::NoPath | Wrong::NoGitFolder,
                    _path,
                ),
            ) => Ok(false),
            Err(fault) => Err(fault),
        }
    }

    /// A path from the root, without links.
    pub(crate) fn real_path(&self, path: &[u8]) -> Result<Vec<u8>, FindFault> {
        match self.source.real_path(path)? {
            Some(real) => Ok(real),
            None => Err(self.at(Wrong::LeadsNowhere, path)?),
        }
    }

    /// The fault of this path.
    pub(crate) fn at(&self, wrong: Wrong, path: &[u8]) -> Result<FindFault, AllocError> {
        Ok(FindFault::At(wrong, Vec::from_slice(self.alloc, path)?))
    }

    /// The git folder at this path, if it is one: with `HEAD`, `objects` and `refs`.
    pub(crate) fn git_folder(&self, folder: &[u8]) -> Result<Option<GitFolder>, FindFault> {
        let Some(head) = self.head_in(folder)? else {
            return Ok(None);
        };
        let common = self.common_folder(folder)?;
        let git = GitFolder {
            path: Vec::from_slice(self.alloc, folder)?,
            common,
            head,
        };
        if self.has_stores(git.common())? {
            Ok(Some(git))
        } else {
            Ok(None)
        }
    }

    /// What the file or link `HEAD` of a folder names, if it names anything.
    fn head_in(&self, folder: &[u8]) -> Result<Option<Head>, AllocError> {
        let path = joined(self.alloc, folder, b"/HEAD")?;
        match self.source.held(&path, FILE_LIMIT)? {
            Some(Held::Link(target)) => Ok(head_linked(target)),
            Some(Held::Bytes(text)) => head_named(self.alloc, &text),
            None => Ok(None),
        }
    }

    /// The common folder of a git folder, where it is another one.
    fn common_folder(&self, folder: &[u8]) -> Result<Option<Vec<u8>>, FindFault> {
        if let Some(told) = &self.variables.common_dir {
            return Ok(Some(Vec::from_slice(self.alloc, told)?));
        }
        let file = joined(self.alloc, folder, b"/commondir")?;
        if !self.source.is_there(&file)? {
            return Ok(None);
        }
        match self.source.bytes(&file, FILE_LIMIT + 1)? {
            Some(bytes) if !bytes.is_empty() && bytes.len() <= FILE_LIMIT => {
                let path = told_from(self.alloc, folder, without_line_ends(&bytes))?;
                Ok(Some(self.real_path(&path)?))
            }
            _ => Err(self.at(Wrong::CommonFolder, &file)?),
        }
    }

    /// Whether a common folder has `objects` and `refs`.
    fn has_stores(&self, common: &[u8]) -> Result<bool, AllocError> {
        if !self.source.can_enter(&self.objects_of(common)?)? {
            return Ok(false);
        }
        self.source
            .can_enter(&joined(self.alloc, common, b"/refs")?)
    }

    /// The folder of objects.
    fn objects_of(&self, common: &[u8]) -> Result<Vec<u8>, AllocError> {
        match &self.variables.object_directory {
            Some(told) => Vec::from_slice(self.alloc, told),
            None => joined(self.alloc, common, b"/objects"),
        }
    }

    /// What can't be looked at in a folder that is no git folder, so that it may be one.
    pub(crate) fn hidden_in(&self, folder: &[u8]) -> Result<Option<Hidden>, FindFault> {
        let head = joined(self.alloc, folder, b"/HEAD")?;
        if let Some(reason) = self.source.hidden(&head)? {
            return Ok(Some(Hidden {
                named: None,
                path: head,
                reason,
            }));
        }
        if self.head_in(folder)?.is_none() {
            return Ok(None);
        }
        let common = self.common_folder(folder)?;
        let path = self.objects_of(common.as_deref().unwrap_or(folder))?;
        match self.source.hidden(&joined(self.alloc, &path, b"/.")?)? {
            Some(reason) => Ok(Some(Hidden {
                named: None,
                path,
                reason,
            })),
            None => Ok(None),
        }
    }

    /// The git folder that a file leads to.
    pub(crate) fn led_by(&self, file: &[u8]) -> Result<GitFolder, FindFault> {
        let Some(bytes) = self.source.bytes(file, FILE_LIMIT + 1)? else {
            return Err(self.at(Wrong::Unreadable, file)?);
        };
        let folder = told_by(self.alloc, file, &path_told(self.alloc, file, &bytes)?)?;
        match self.git_folder(&folder)? {
            Some(mut git) => {
                git.path = self.real_path(&folder)?;
                Ok(git)
            }
            None => Err(FindFault::At(Wrong::NoGitFolder, folder)),
        }
    }
}

/// The path that the bytes of a file `.git` tell.
fn path_told(alloc: Global, file: &[u8], bytes: &[u8]) -> Result<Vec<u8>, FindFault> {
    if bytes.len() > FILE_LIMIT {
        return Err(FindFault::At(Wrong::TooLarge, Vec::from_slice(alloc, file)?));
    }
    let Some(rest) = bytes.strip_prefix(b"gitdir: ") else {
        return Err(FindFault::At(Wrong::Format, Vec::from_slice(alloc, file)?));
    };
    let path = without_line_ends(rest);
    if path.is_empty() {
        return Err(FindFault::At(Wrong::NoPath, Vec::from_slice(alloc, file)?));
    }
    Ok(Vec::from_slice(alloc, path)?)
}

/// What a link `HEAD` with this text names.
fn head_linked(target: Vec<u8>) -> Option<Head> {
    if target.starts_with(b"refs/") {
        Some(Head::Reference(target))
    } else {
        None
    }
}

/// What a file `HEAD` with this text names.
fn head_named(alloc: Global, text: &[u8]) -> Result<Option<Head>, AllocError> {
    let front = &text[..text.len().min(HEAD_LEN)];
    match text.strip_prefix(b"ref:") {
        Some(rest) if names_reference(front) => {
            Ok(Some(Head::Reference(Vec::from_slice(alloc, without_blanks(rest))?)))
        }
        None if digit_count(front) >= COMMIT_LEN => Ok(Some(Head::Commit)),
        _ => Ok(None),
    }
}

/// Whether a text names a reference.
fn names_reference(text: &[u8]) -> bool {
    match text.strip_prefix(b"ref:") {
        Some(rest) => without_blanks(rest).starts_with(b"refs/"),
        None => false,
    }
}

/// How many hexadecimal digits stand in front of a text.
pub(crate) fn digit_count(text: &[u8]) -> usize
    ensures value { result ≡ prefix_len is_ascii_hexdigit text.now }
    ensures within { result ≤ length text.now }
{
    let mut end = 0;
    'bytes: while end < text.len() {
        if !text[end].is_ascii_hexdigit() {
            return end;
        }
        end += 1;
    }
    end
}
