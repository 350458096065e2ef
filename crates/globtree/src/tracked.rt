//! The index file, and the file that it shares entries with: which paths they track.
ghost use Rattle.std.specs.Prelude.{IfOk};
ghost use Rattle.globtree.specs.Tracked.{IsOfIndex};

use crate::fault::{Fault, Result};
use git_index::{Index, IndexFault, ObjectFormat};
use std::alloc::{AllocError, Global};
use std::io::{ErrorKind, Read};
use std::rt::Files;
use std::{fs, io};
use system_files::{Sight, Unread, open_seen};

/// The length in bytes above which an index isn't read.
const MOST_BYTES: u64 = 1 << 30;

/// An index file, and the digest that names objects in it.
#[derive(Drop)]
pub(crate) struct IndexFile {
    pub(crate) name: String,
    /// The git folder, where the shared file of a split index is looked for first.
    pub(crate) git_folder: String,
    pub(crate) format: ObjectFormat,
}

impl IndexFile {
    /// What it says: nothing where there is no file.
    pub(crate) fn read<R: Files>(&self, rt: &R, alloc: Global) -> Result<Index>
        ensures { IfOk result IsOfIndex }
    {
        let Some(bytes) = bytes_of(rt, alloc, self.name.as_str())? else {
            return Ok(Index::empty(alloc));
        };
        let read = match Index::from_bytes(alloc, &bytes, self.format) {
            Err(IndexFault::Split) => self.read_split(rt, alloc, &bytes)?,
            read => read,
        };
        match read {
            Ok(index) => Ok(index),
            Err(IndexFault::Memory) => Err(AllocError.into()),
            Err(fault) => Err(Fault::told(format!(in alloc; "{}: {fault}", self.name))),
        }
    }

    /// What a split index, of these bytes, says together with the shared file that it names. A fault of either's bytes is the answer.
    fn read_split<R: Files>(
        &self,
        rt: &R,
        alloc: Global,
        bytes: &[u8],
    ) -> Result<std::result::Result<Index, IndexFault>>
        ensures { IfOk result (λ read. IfOk read IsOfIndex) }
    {
        let hash = match Index::shared_hash(alloc, bytes, self.format) {
            Ok(Some(hash)) => hash,
            Ok(None) => return Ok(Err(IndexFault::NotSplit)),
            Err(fault) => return Ok(Err(fault)),
        };
        let shared = self.shared(rt, alloc, hash)?;
        Ok(Index::from_split(alloc, bytes, &shared, self.format))
    }

    /// The bytes of the shared file with this hash: in the git folder, or else beside the index.
    fn shared<R: Files>(&self, rt: &R, alloc: Global, hash: &[u8]) -> Result<Vec<u8>> {
        let hash = hex::encode(alloc, hash)?;
        let beside = match self.name.as_str().rsplit_once('/') {
            Some((folder, _name)) => folder,
            None => ".",
        };
        for folder in [self.git_folder.as_str(), beside] {
            let name = format!(in alloc; "{folder}/sharedindex.{hash}")?;
            if let Some(bytes) = bytes_of(rt, alloc, name.as_str())? {
                return Ok(bytes);
            }
        }
        Err(Fault::told(format!(in alloc;
            "{}: the shared file 'sharedindex.{hash}' isn't there",
            self.name
        )))
    }
}

/// The bytes of a file of an index; `None` where there is no such file.
fn bytes_of<R: Files>(rt: &R, alloc: Global, name: &str) -> Result<Option<Vec<u8>>> {
    let seen = match fs::metadata(rt, name) {
        Ok(found) => Sight::of(&found),
        Err(error) if error.kind() == ErrorKind::NotFound => return Ok(None),
        Err(error) => return Err(unread(alloc, name, error)),
    };
    let mut bytes = Vec::new(alloc);
    match open_seen(rt, name, &seen) {
        Ok(Some(opened)) if opened.len > MOST_BYTES => {
            return Err(Fault::told(format!(in alloc; "'{name}' has more than {MOST_BYTES} bytes")));
        }
        Ok(Some(opened)) => opened
            .file
            .take(opened.len)
            .read_to_end(&mut bytes)
            .map_err(|error| unread(alloc, name, error))?,
        Ok(None) => 0,
        Err(Unread::System(error)) => return Err(unread(alloc, name, error)),
        Err(_unread) => return Err(Fault::told(format!(in alloc; "'{name}' is no file"))),
    };
    Ok(Some(bytes))
}

/// The fault of a file of an index that can't be read.
fn unread(alloc: Global, name: &str, error: io::Error) -> Fault {
    Fault::told(format!(in alloc; "'{name}': {error}"))
}
