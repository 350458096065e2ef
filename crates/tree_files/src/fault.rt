//! Why a path got no answer.
ghost use Rattle.std.specs.Prelude.{◌≡◌};
ghost use Rattle.tree_files.specs.declared.fault.CheckFault.TheVariants.{Memory};

use git_paths::LeadFault;
use std::alloc::{AllocError, Global};
use thiserror::Error;
use tree_answers::NameFault;
use tree_commands::check_attr::AttributeFault;
use tree_commands::check_ignore::IgnoreFault;

/// Why a path got no answer.
#[derive(Debug, Drop, Error)]
pub enum CheckFault {
    /// Memory was refused.
    #[error("no memory")]
    Memory,
    /// The path has no bytes.
    #[error("an empty text is no path: write . where the folder is meant")]
    Empty,
    /// The base of a list is no folder's.
    #[error("the bases of lists")]
    Base,
    /// A line begins with a double quote, and is no name in quotes.
    #[error("line is badly quoted")]
    BadlyQuoted,
    /// The path leads out of the work tree.
    #[error("'{0}' is outside the work tree")]
    Outside(String),
    /// What stands behind the word's colon isn't the sign of the top.
    #[error("'{0}' has another sign before its path than that of the top")]
    Unspelt(String),
    /// The path leads into a submodule.
    #[error("'{0}' is in a submodule")]
    InSubmodule(String),
    /// A folder above the path is a link.
    #[error("'{0}' is beyond a symbolic link")]
    BeyondLink(String),
    /// A file that decides couldn't be read, though it is there and may be opened, or a folder stands in its place. One text tells which file
    /// and why, so that the fault stays small: each answer about a path has room for one.
    #[error("{0}")]
    Unread(String),
    /// A file of patterns isn't in the work tree, or can't be read there, and Git reads it from the index.
    #[error("'{0}' can't be read in the work tree, and from the index it isn't read")]
    InIndexAlone(String),
    /// What makes a folder a repository of its own can't be told.
    #[error("{0}")]
    Repository(String),
    /// A folder or a path that has to be looked at has a name that is no UTF-8 text.
    #[error("'{0}' is no UTF-8 text, so it can't be opened")]
    NotText(String),
}

impl From<AllocError> for CheckFault {
    ghost from_gives = { λ _ fault. fault ≡ Memory };

    fn from(_refused: AllocError) -> CheckFault {
        CheckFault::Memory
    }
}

impl From<NameFault> for CheckFault {
    ghost from_gives = { λ _ _. Unit {0} };

    fn from(fault: NameFault) -> CheckFault {
        match fault {
            NameFault::Memory => CheckFault::Memory,
            NameFault::BadlyQuoted => CheckFault::BadlyQuoted,
        }
    }
}

impl CheckFault {
    /// The fault of a told path that leads nowhere.
    pub fn of_lead(alloc: Global, told: &[u8], fault: LeadFault) -> CheckFault {
        match fault {
            LeadFault::Memory => CheckFault::Memory,
            LeadFault::Empty => CheckFault::Empty,
            LeadFault::Outside => CheckFault::of_outside(alloc, told),
        }
    }

    /// The fault of a path that `check-ignore` has no answer for.
    pub fn of_ignore(alloc: Global, fault: IgnoreFault<CheckFault>) -> CheckFault {
        match fault {
            IgnoreFault::Memory => CheckFault::Memory,
            IgnoreFault::Empty => CheckFault::Empty,
            IgnoreFault::Outside(told) => CheckFault::of_outside(alloc, &told),
            IgnoreFault::Unspelt(word) => CheckFault::of_unspelt(alloc, &word),
            IgnoreFault::InSubmodule(told) => CheckFault::of_submodule(alloc, &told),
            IgnoreFault::BadlyQuoted => CheckFault::BadlyQuoted,
            IgnoreFault::Source(fault) => fault,
        }
    }

    /// The fault of a path that `check-attr` has no answer for.
    pub fn of_attributes(alloc: Global, fault: AttributeFault<CheckFault>) -> CheckFault {
        match fault {
            AttributeFault::Memory | AttributeFault::Spent => CheckFault::Memory,
            AttributeFault::BadlyQuoted => CheckFault::BadlyQuoted,
            AttributeFault::Outside(told) => CheckFault::of_outside(alloc, &told),
            AttributeFault::Source(fault) => fault,
        }
    }

    /// The fault of a told path that leads out of the work tree.
    fn of_outside(alloc: Global, told: &[u8]) -> CheckFault {
        match String::from_utf8_lossy(alloc, told) {
            Ok(text) => CheckFault::Outside(text),
            Err(_refused) => CheckFault::Memory,
        }
    }

    /// The fault of a word that spells no path.
    fn of_unspelt(alloc: Global, word: &[u8]) -> CheckFault {
        match String::from_utf8_lossy(alloc, word) {
            Ok(text) => CheckFault::Unspelt(text),
            Err(_refused) => CheckFault::Memory,
        }
    }

    /// The fault of a told path that leads into a submodule.
    fn of_submodule(alloc: Global, told: &[u8]) -> CheckFault {
        match String::from_utf8_lossy(alloc, told) {
            Ok(text) => CheckFault::InSubmodule(text),
            Err(_refused) => CheckFault::Memory,
        }
    }
}
