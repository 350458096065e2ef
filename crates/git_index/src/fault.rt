//! Why an index isn't read.
ghost use Rattle.std.specs.Prelude.{◌≡◌};
ghost use Rattle.git_index.specs.declared.fault.IndexFault.TheVariants.{Memory};

use std::alloc::{AllocError, AllocFailed};
use thiserror::Error;

/// The first fault that reading an index met.
#[derive(Debug, Clone, Copy, PartialEq, Eq, Error)]
pub enum IndexFault {
    /// Memory was refused.
    #[error("no memory")]
    Memory,
    /// The file is shorter than a header and a checksum.
    #[error("index file smaller than expected")]
    TooShort,
    /// The file doesn't begin with `DIRC`.
    #[error("bad signature")]
    Signature,
    /// The format has another version than 2, 3 or 4.
    #[error("bad index version {0}")]
    Version(u32),
    /// An entry or an extension goes on behind the end.
    #[error("index file cut off")]
    Cut,
    /// An entry has a mode that no tracked path has.
    #[error("unknown index entry mode {0:o}")]
    Mode(u32),
    /// An entry has flags of the second kind that aren't known.
    #[error("unknown index entry format {0:x}")]
    Flags(u16),
    /// An entry's path hasn't the length that its flags tell, isn't followed by zero bytes alone, or takes more bytes from the path
    /// before than that one has.
    #[error("malformed name field in the index")]
    Path,
    /// The paths have together more than 16 bytes for each byte of the file.
    #[error("the paths of the index are too long")]
    PathsTooLong,
    /// An entry doesn't come after the one before it.
    #[error("unordered stage entries in index")]
    Order,
    /// An extension that has to be understood isn't. Its name is the four bytes of this number, the highest first.
    #[error("unknown index extension {0:x}")]
    Extension(u32),
    /// The index is sparse: some of its entries stand for whole folders.
    #[error("a sparse index isn't read")]
    Sparse,
    /// The index is split: some of its entries are in another file.
    #[error("a split index, whose shared file isn't at hand")]
    Split,
    /// The index isn't split: it has all of its entries.
    #[error("the index isn't split")]
    NotSplit,
    /// The shared file of a split index has another hash at its end than the index names.
    #[error("broken index, the shared file has another hash")]
    SharedHash,
    /// The shared file of a split index is itself split.
    #[error("the shared file is itself a split index")]
    SharedSplit,
    /// The extension `link` is shorter than a hash, stands twice, has bytes behind its two bitmaps, or a bitmap that isn't whole.
    #[error("corrupt link extension")]
    Link,
    /// A bitmap marks an entry behind the last one of the shared file.
    #[error("corrupt link extension, a position exceeds the size of the shared file")]
    Position,
    /// The first entries of a split index, which replace others, aren't as many as these, or have names; or another has none.
    #[error("corrupt link extension, the entries without a name aren't those that replace others")]
    Replacements,
}

impl From<AllocError> for IndexFault {
    ghost from_gives = { λ _ fault. fault ≡ Memory };

    fn from(_refused: AllocError) -> IndexFault {
        IndexFault::Memory
    }
}

impl<T: Drop> From<AllocFailed<T>> for IndexFault {
    ghost from_gives = { λ _ fault. fault ≡ Memory };

    fn from(_refused: AllocFailed<T>) -> IndexFault {
        IndexFault::Memory
    }
}
