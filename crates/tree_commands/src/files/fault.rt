//! Why files aren't listed to the end.
ghost use Rattle.std.specs.Prelude.{◌≡◌, false};
ghost use Rattle.tree_commands.specs.Private.ListingFaults.{is_of_start};

use glob_trees::TreeFault;
use std::alloc::AllocError;
use std::fmt::Display;
use std::io;
use thiserror::Error;

/// The fault that ended a listing.
#[derive(Debug, Drop, Error)]
#[error_bound(F: Display)]
pub enum FilesFault<F> {
    /// Memory was refused.
    #[error("no memory")]
    Memory,
    /// The base of a list before those of all folders is no folder's.
    #[error("the bases of lists")]
    Base,
    /// The path at which the listing is to begin has no bytes.
    #[error("an empty text is no path")]
    Empty,
    /// The path leads out of the work tree.
    #[error("the path leads out of the work tree")]
    Outside,
    /// The source failed.
    #[error("{0}")]
    Source(F),
    /// A write or a flush failed.
    #[error("writing: {0}")]
    Write(io::Error),
    /// 2^64 - 1 paths were met, and the tree has no end.
    #[error("a tree without an end")]
    Endless,
}

impl<F> From<AllocError> for FilesFault<F> {
    ghost from_gives = { λ _ fault. is_of_start fault ≡ false };

    fn from(_refused: AllocError) -> FilesFault<F> {
        FilesFault::Memory
    }
}

impl<F> From<TreeFault<F>> for FilesFault<F> {
    ghost from_gives = { λ _ fault. is_of_start fault ≡ false };

    fn from(fault: TreeFault<F>) -> FilesFault<F> {
        match fault {
            TreeFault::Memory => FilesFault::Memory,
            TreeFault::Source(fault) => FilesFault::Source(fault),
        }
    }
}
