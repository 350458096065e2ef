//! Entries whose paths are told by places in a text.
ghost use Rattle.std.specs.Prelude.{◌≡◌, IfOk, map};
ghost use Rattle.std.specs.List.{All};
ghost use Rattle.git_index.specs.Entries.{tracked};
ghost use Rattle.git_index.specs.Private.Places.{LiesWithin, placed};

use crate::entry::{Entry, Kind};
use crate::entry_path::EntryPath;
use std::alloc::{AllocError, Global};
use std::rc::Rc;

/// An entry whose path is told by where it begins and ends in a text.
#[derive(Clone, Copy, Drop)]
pub struct Place {
    /// Where the path begins.
    pub start: usize,
    /// Where it ends.
    pub end: usize,
    pub stage: u8,
    pub kind: Kind,
    pub assume_valid: bool,
    pub skip_worktree: bool,
    pub intent_to_add: bool,
}

impl Place {
    /// The entry whose path lies there.
    fn entry(self, text: Rc<Vec<u8>>) -> Entry
        requires { LiesWithin text.value.items self }
        ensures { tracked result ≡ placed text.value.items self }
    {
        Entry {
            path: EntryPath::new(text, self.start, self.end),
            stage: self.stage,
            kind: self.kind,
            assume_valid: self.assume_valid,
            skip_worktree: self.skip_worktree,
            intent_to_add: self.intent_to_add,
        }
    }
}

/// The entries whose paths lie there.
pub fn entries_in(alloc: Global, text: Vec<u8>, places: &[Place]) -> Result<Vec<Entry>, AllocError>
    requires { All (LiesWithin text.items) places.now }
    ensures { IfOk result (λ entries. map tracked entries.items ≡ map (placed text.items) places.now) }
{
    let text = Rc::new(alloc, text)?;
    let mut entries = Vec::with_capacity(alloc, places.len())?;
    'places: for place in places {
        entries.push(place.entry(text.clone()?))?;
    }
    Ok(entries)
}
