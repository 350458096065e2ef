//! Why a configuration file can't be read.
ghost use Rattle.std.specs.Prelude.{◌≡◌};
ghost use Rattle.git_config.specs.declared.fault.ConfigFault.TheVariants.{Memory};

use std::alloc::{AllocError, AllocFailed};
use thiserror::Error;

/// What is wrong in a configuration file.
#[derive(Debug, Clone, Copy, PartialEq, Eq, Error)]
pub enum Wrong {
    /// Only a part of a byte order mark stands at the front.
    #[error("a part of a byte order mark")]
    Mark,
    /// Neither a section, an entry, a comment nor a blank begins here.
    #[error("no section or entry begins here")]
    Outside,
    /// The head of a section isn't a name in brackets, or a name and a subsection in quotes.
    #[error("the head of a section")]
    Head,
    /// The quotes of a subsection aren't closed on their line.
    #[error("a subsection that is not closed")]
    Subsection,
    /// Neither an equals sign nor the end of the line follows an entry's name.
    #[error("an entry's name")]
    Name,
    /// The quotes of a value aren't closed on their line.
    #[error("a quote that is not closed")]
    Quote,
    /// A backslash of a value stands before a byte that it can't stand before.
    #[error("a backslash before another byte")]
    Escape,
}

/// The first fault of a configuration file.
#[derive(Debug, Clone, Copy, PartialEq, Eq, Error)]
pub enum ConfigFault {
    /// Memory was refused.
    #[error("no memory")]
    Memory,
    /// A line is wrong.
    #[error("bad config line {line}: {what}")]
    Line {
        /// The number of the line, from 1, that Git tells.
        line: usize,
        /// What is wrong.
        what: Wrong,
    },
}

impl From<AllocError> for ConfigFault {
    ghost from_gives = { λ _ fault. fault ≡ Memory };

    fn from(_refused: AllocError) -> ConfigFault {
        ConfigFault::Memory
    }
}

impl<T: Drop> From<AllocFailed<T>> for ConfigFault {
    ghost from_gives = { λ _ fault. fault ≡ Memory };

    fn from(_refused: AllocFailed<T>) -> ConfigFault {
        ConfigFault::Memory
    }
}
