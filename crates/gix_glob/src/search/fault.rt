//! Why a list of patterns could not be loaded.
ghost use Rattle.std.specs.Prelude.{◌≡◌};
ghost use Rattle.gix_glob.specs.declared.search.fault.LoadFault.TheVariants.{Memory};

use std::alloc::AllocError;
use std::io;
use thiserror::Error;

/// A refusal of a call that loads patterns. What it leaves is said at each call.
#[derive(Debug, Drop, Error)]
pub enum LoadFault {
    /// Memory was wanted and refused, in opening the source too.
    #[error("out of memory while loading patterns")]
    Memory,
    /// The source could not be opened or read; the error is the one answered there.
    #[error("reading patterns: {0}")]
    Read(io::Error),
}

impl From<AllocError> for LoadFault {
    ghost from_gives = { λ _ fault. fault ≡ Memory };

    fn from(_refused: AllocError) -> LoadFault {
        LoadFault::Memory
    }
}
