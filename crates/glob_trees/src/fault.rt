//! Why a tree has no answer about a path.
ghost use Rattle.std.specs.Prelude.{◌≡◌};
ghost use Rattle.glob_trees.specs.declared.fault.TreeFault.TheVariants.{Memory};

use std::alloc::AllocError;
use thiserror::Error;

/// Why a tree has no answer about a path. The tree stays as good as it was: the next call answers right.
#[derive(Debug, Clone, Copy, PartialEq, Eq, Drop, Error)]
pub enum TreeFault<F> {
    /// Memory was refused.
    #[error("no memory")]
    Memory,
    /// The source has no list of a folder, for this reason.
    #[error("reading the patterns of a folder")]
    Source(F),
}

impl<F> From<AllocError> for TreeFault<F> {
    ghost from_gives = { λ _ fault. fault ≡ Memory };

    fn from(_refused: AllocError) -> TreeFault<F> {
        TreeFault::Memory
    }
}
