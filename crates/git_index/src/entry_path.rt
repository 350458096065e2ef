//! The path of an entry, which lies in a text that has all paths of a file.
ghost use Rattle.std.specs.Prelude.{◌≡◌, ◌≤◌, length, slice_range};

use std::alloc::AllocError;
use std::marker::Model;
use std::ops::DerefSlice;
use std::rc::Rc;

/// The path of an entry: a part of a text that has all paths of a file, and that they share.
#[derive(Debug, Drop)]
pub struct EntryPath {
    text: Rc<Vec<u8>>,
    start: usize,
    end: usize,
}

impl Model for EntryPath {
    ghost use Rattle.std.specs.Prelude.{◌≤◌, List, ℕ, length, slice_range};

    ghost Value = { List ℕ };

    ghost view = { λ path. slice_range path.text.value.items path.start path.end };

    ghost invariant = { λ path. (path.start ≤ path.end) × (path.end ≤ length path.text.value.items) };
}

impl EntryPath {
    /// The part of a text from one place up to another.
    pub(crate) fn new(text: Rc<Vec<u8>>, start: usize, end: usize) -> EntryPath
        requires { (start ≤ end) × (end ≤ length text.value.items) }
        ensures { result ≡ slice_range text.value.items start end }
    {
        EntryPath { text, start, end }
    }

    /// The bytes of the path.
    pub fn as_slice(&self) -> &[u8]
        ensures value { result.now ≡ self.now }
    {
        &self.text[self.start..self.end]
    }
}

impl DerefSlice for EntryPath {
    type Elem = u8;

    ghost deref_gives = { λ path bytes. bytes ≡ path };

    fn deref(&self) -> &[u8]
        ensures value { result.now ≡ self.now }
    {
        self.as_slice()
    }
}

impl Clone for EntryPath {
    ghost is_clone = { λ path copy. copy ≡ path };

    fn clone(&self) -> Result<EntryPath, AllocError> {
        Ok(EntryPath {
            text: self.text.clone()?,
            start: self.start,
            end: self.end,
        })
    }
}
