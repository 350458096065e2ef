//! What an index says of a tracked path.
use crate::entry_path::EntryPath;

/// What lies at a path.
#[derive(Debug, Clone, Copy, PartialEq, Eq)]
pub enum Kind {
    /// A file.
    File,
    /// A file that may be executed.
    Executable,
    /// A symbolic link.
    Link,
    /// A submodule.
    Submodule,
}

/// An entry: a tracked path, at one stage.
#[derive(Debug, Clone, Drop)]
pub struct Entry {
    /// The path from the top of the work tree, with slashes between its parts.
    pub path: EntryPath,
    /// 0, or in an unfinished merge 1 for the common ancestor, 2 for ours and 3 for theirs.
    pub stage: u8,
    /// What lies there.
    pub kind: Kind,
    /// The file is held to be unchanged.
    pub assume_valid: bool,
    /// The file may be missing in the work tree.
    pub skip_worktree: bool,
    /// The path was added without its content.
    pub intent_to_add: bool,
}
