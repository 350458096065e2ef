//! Why a path got no answer.
ghost use Rattle.std.specs.Prelude.{◌≡◌};
ghost use Rattle.tree_commands.specs.Private.Faults.{IsOfName, IsOfTree};
ghost use Rattle.tree_commands.specs.declared.check_ignore.fault.IgnoreFault.TheVariants.{Memory};

use glob_trees::TreeFault;
use std::alloc::AllocError;
use std::fmt::Display;
use thiserror::Error;
use tree_answers::NameFault;

/// Why a path got no answer.
#[derive(Debug, Drop, Error)]
#[error_bound(F: Display)]
pub enum IgnoreFault<F> {
    /// Memory was refused.
    #[error("no memory")]
    Memory,
    /// The path has no bytes.
    #[error("an empty text is no path")]
    Empty,
    /// This path, as it was told, leads out of the work tree.
    #[error("the path leads out of the work tree")]
    Outside(Vec<u8>),
    /// This word spells no path: what stands behind its colon isn't the sign of the top.
    #[error("the signs before the path aren't known here")]
    Unspelt(Vec<u8>),
    /// This path, as it was told, leads into a submodule.
    #[error("the path lies in a submodule")]
    InSubmodule(Vec<u8>),
    /// A record in quotes isn't spelt as Git writes a name.
    #[error("a name in quotes can't be read")]
    BadlyQuoted,
    /// A source has no answer, for this reason.
    #[error("{0}")]
    Source(F),
}

impl<F> From<AllocError> for IgnoreFault<F> {
    ghost from_gives = { λ _ fault. fault ≡ Memory };

    fn from(_refused: AllocError) -> IgnoreFault<F> {
        IgnoreFault::Memory
    }
}

impl<F> From<NameFault> for IgnoreFault<F> {
    ghost from_gives = { IsOfName };

    fn from(fault: NameFault) -> IgnoreFault<F> {
        match fault {
            NameFault::Memory => IgnoreFault::Memory,
            NameFault::BadlyQuoted => IgnoreFault::BadlyQuoted,
        }
    }
}

impl<F> From<TreeFault<F>> for IgnoreFault<F> {
    ghost from_gives = { IsOfTree };

    fn from(fault: TreeFault<F>) -> IgnoreFault<F> {
        match fault {
            TreeFault::Memory => IgnoreFault::Memory,
            TreeFault::Source(fault) => IgnoreFault::Source(fault),
        }
    }
}
