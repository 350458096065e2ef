//! The files of the operating system, and what the search for a repository asks of them.

use crate::config_files::{KeptFile, MOST_BYTES, reason_of};
use crate::reading::{Unread, answered, read_front, read_seen_front};
use crate::real_path::real_path;
use crate::sight::Sight;
use crate::user::User;
use crate::users::{USERS, USERS_LIMIT, users_in};
use git_config::UserFolder;
use git_repository::{FileSystem, Held};
use std::alloc::{AllocError, Global};
use std::cell::Cell;
use std::fs::Metadata;
use std::io::ErrorKind;
use std::os::unix::fs::MetadataExt;
use std::rt::Files;
use std::{fs, io};

/// The files of the operating system. What can't be looked at isn't there. The kit opens a file only by a text, so what has a path that is
/// no UTF-8 isn't there, either. Of a configuration 10,000 files of 16 MiB in all are given at most, since files that include one another
/// could ask for very many.
#[derive(Drop)]
pub struct DiskFiles<'a, R> {
    pub(crate) rt: &'a R,
    pub(crate) alloc: Global,
    user: User,
    /// How many files of a configuration were asked for.
    pub(crate) asked: Cell<usize>,
    /// How many bytes of such files may still be given.
    pub(crate) left: Cell<usize>,
    /// Files of a configuration that were read, and may be asked for again.
    pub(crate) kept: Cell<Vec<KeptFile>>,
}

impl<'a, R> DiskFiles<'a, R> {
    /// The files as this user sees them, of which none was asked for.
    pub fn new(rt: &'a R, alloc: Global, user: User) -> DiskFiles<'a, R> {
        DiskFiles {
            rt,
            alloc,
            user,
            asked: Cell::new(0),
            left: Cell::new(MOST_BYTES),
            kept: Cell::new(Vec::new(alloc)),
        }
    }
}

impl<'a, R: Files> DiskFiles<'a, R> {
    /// What stands at a path, where links are followed.
    fn found(&self, path: &[u8]) -> Result<Option<Metadata>, AllocError> {
        match str::from_utf8(path) {
            Ok(path) => answered(fs::metadata(self.rt, path)),
            Err(_bad) => Ok(None),
        }
    }

    /// What stands at a path. A link isn't followed.
    fn standing(&self, path: &[u8]) -> Result<Option<Metadata>, AllocError> {
        match str::from_utf8(path) {
            Ok(path) => answered(fs::symlink_metadata(self.rt, path)),
            Err(_bad) => Ok(None),
        }
    }

    /// Whether what is told from a folder by `.` is found, which needs leave to enter it.
    fn leads_into(&self, folder: &[u8]) -> Result<bool, AllocError> {
        let mut inner = Vec::from_slice(self.alloc, folder)?;
        inner.extend_from_slice(b"/.")?;
        Ok(self.found(&inner)?.is_some())
    }
}

/// The bits of a mode that let the owner, the group or others run a file.
const RUN_BITS: u32 = 0o111;

impl<'a, R: Files> FileSystem for DiskFiles<'a, R> {
    ghost owned = { λ _ _ _. Unit {0} };

    fn is_file(&self, path: &[u8]) -> Result<bool, AllocError> {
        Ok(self.found(path)?.is_some_and(|there| there.is_file()))
    }

    fn is_there(&self, path: &[u8]) -> Result<bool, AllocError> {
        Ok(self.standing(path)?.is_some())
    }

    /// The text of a link that is no UTF-8 can't be had.
    fn held(&self, path: &[u8], limit: usize) -> Result<Option<Held>, AllocError> {
        let Some(there) = self.standing(path)? else {
            return Ok(None);
        };
        let Ok(path) = str::from_utf8(path) else {
            return Ok(None);
        };
        if there.is_symlink() {
            let link = answered(self.rt.read_link(self.alloc, path))?;
            return Ok(link.map(|text| Held::Link(text.into_string().into_bytes())));
        }
        let read = read_seen_front(self.rt, self.alloc, path, &Sight::of(&there), limit);
        Ok(read_or_none(read)?.map(Held::Bytes))
    }

    fn bytes(&self, path: &[u8], limit: usize) -> Result<Option<Vec<u8>>, AllocError> {
        match str::from_utf8(path) {
            Ok(path) => read_or_none(read_front(self.rt, self.alloc, path, limit)),
            Err(_bad) => Ok(None),
        }
    }

    /// The kit has no `access`: a folder can be entered where `.` is found in it. What is no folder is answered for by the bits of its
    /// mode, whoever they let run it.
    fn can_enter(&self, path: &[u8]) -> Result<bool, AllocError> {
        if self.leads_into(path)? {
            return Ok(true);
        }
        match self.found(path)? {
            Some(there) => Ok(!there.is_dir() && there.mode() & RUN_BITS != 0),
            None => Ok(false),
        }
    }

    /// The kit has no `access`: a file may be read where it is opened.
    fn is_shut(&self, path: &[u8]) -> Result<bool, AllocError> {
        let Ok(path) = str::from_utf8(path) else {
            return Ok(false);
        };
        match read_front(self.rt, self.alloc, path, 0) {
            Err(Unread::System(error)) if error.kind() == ErrorKind::OutOfMemory => Err(AllocError),
            Err(Unread::System(error)) => Ok(error.kind() == ErrorKind::PermissionDenied),
            _ => Ok(false),
        }
    }

    fn hidden(&self, path: &[u8]) -> Result<Option<Vec<u8>>, AllocError> {
        let Ok(path) = str::from_utf8(path) else {
            return Ok(None);
        };
        match read_front(self.rt, self.alloc, path, 0) {
            Err(Unread::System(error)) => reason_hidden(self.alloc, &error),
            _ => Ok(None),
        }
    }

    fn knows_user(&self) -> bool {
        self.user.number.is_some()
    }

    fn users(&self) -> Result<Vec<UserFolder>, AllocError> {
        match self.bytes(USERS, USERS_LIMIT)? {
            Some(text) => users_in(self.alloc, &text),
            None => Ok(Vec::new(self.alloc)),
        }
    }

    fn is_ours(&self, path: &[u8]) -> Result<bool, AllocError> {
        let user = self.user;
        Ok(
            self.standing(path)?
                .is_some_and(|there| user.owns(there.uid())),
        )
    }

    /// 0 where nothing can be looked at.
    fn device(&self, path: &[u8]) -> Result<u64, AllocError> {
        Ok(self.found(path)?.map_or(0, |there| there.dev()))
    }

    fn real_path(&self, path: &[u8]) -> Result<Option<Vec<u8>>, AllocError> {
        real_path(self.rt, self.alloc, path)
    }
}

/// The bytes that were read; `None` where they can't be.
fn read_or_none(read: Result<Vec<u8>, Unread>) -> Result<Option<Vec<u8>>, AllocError> {
    match read {
        Ok(bytes) => Ok(Some(bytes)),
        Err(Unread::System(error)) if error.kind() == ErrorKind::OutOfMemory => Err(AllocError),
        Err(_unread) => Ok(None),
    }
}

/// Why a file can't be looked at; `None` where none is there.
fn reason_hidden(alloc: Global, error: &io::Error) -> Result<Option<Vec<u8>>, AllocError> {
    match error.kind() {
        ErrorKind::OutOfMemory => Err(AllocError),
        ErrorKind::NotFound | ErrorKind::NotADirectory => Ok(None),
        _ => Ok(Some(reason_of(alloc, error)?.into_bytes())),
    }
}
