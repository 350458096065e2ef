//! The names in a folder, read before anything is asked of them.

use std::alloc::{AllocError, Global};
use std::fs::Files;
use std::io;
use std::io::Read;

/// How many bytes of names are read at once. They have room for each name.
const ROOM: usize = 32 * 1024;

/// What reads the names of folders, in room that is made once.
#[derive(Drop)]
pub(crate) struct NameReader {
    alloc: Global,
    room: Vec<u8>,
}

impl NameReader {
    /// Nothing was read yet.
    pub(crate) fn new(alloc: Global) -> Result<NameReader, AllocError> {
        Ok(NameReader {
            alloc,
            room: vec![in alloc; 0; ROOM]?,
        })
    }

    /// The names in a folder, each before a byte 0, with `.` and `..`. A link at the end of its path isn't followed, where no slash follows it.
    ///
    /// # Errors
    /// The system's, and where memory was refused.
    pub(crate) fn read<R: Files>(&mut self, rt: &R, folder: &str) -> io::Result<Vec<u8>> {
        let mut open = rt.open_dir(folder)?;
        let mut bytes = Vec::new(self.alloc);
        'reads: for _ in 0..u64::MAX {
            let count = open.read(&mut self.room)?;
            if count == 0 {
                break;
            }
            bytes.extend_from_slice(self.room.get(..count).unwrap_or(&[]))?;
        }
        Ok(bytes)
    }
}
