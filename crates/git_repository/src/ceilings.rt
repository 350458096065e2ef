//! The ceilings of the search: folders at which it ends.

use crate::faults::FindFault;
use crate::file_system::FileSystem;
use crate::finder::Finder;
use crate::paths::folder_of;
use std::alloc::AllocError;

impl<'a, S: FileSystem> Finder<'a, S> {
    /// How long a folder on the way to the current one has to be at least, to lie below each ceiling that is told.
    pub(crate) fn floor_of(&self, current: &[u8]) -> Result<usize, FindFault> {
        let Some(told) = &self.variables.ceiling_directories else {
            return Ok(0);
        };
        let mut floor = 0;
        let mut follows = true;
        for entry in told.split(|b| *b == b':') {
            if let Some(ceiling) = self.ceiling_told(follows, entry)? {
                floor = floor.max(reach(&ceiling, current));
            }
            follows = follows && !entry.is_empty();
        }
        Ok(floor)
    }

    /// The ceiling that an entry tells: only an absolute path does. Behind an empty entry no links are followed.
    fn ceiling_told(&self, follows: bool, entry: &[u8]) -> Result<Option<Vec<u8>>, AllocError> {
        if !entry.starts_with(b"/") {
            return Ok(None);
        }
        if !follows {
            return Ok(Some(Vec::from_slice(self.alloc, folder_of(entry))?));
        }
        match self.source.real_path(entry)? {
            Some(real) => Ok(Some(Vec::from_slice(self.alloc, folder_of(&real))?)),
            None => Ok(None),
        }
    }
}

/// The same as [`Finder::floor_of`] for one ceiling.
fn reach(ceiling: &[u8], current: &[u8]) -> usize {
    match current.strip_prefix(ceiling) {
        Some([b'/', ..]) => ceiling.len() + 1,
        _ => 0,
    }
}
