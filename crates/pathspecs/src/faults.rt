//! Why words are no list of pathspecs.
ghost use Rattle.std.specs.Prelude.{◌≡◌};
ghost use Rattle.pathspecs.specs.declared.faults.ReadFault.TheVariants.{Memory};

use std::alloc::AllocError;
use thiserror::Error;

/// Why a word is no pathspec.
#[derive(Debug, Clone, Copy, PartialEq, Eq, Error)]
pub enum WordFault {
    /// It has no bytes.
    #[error("a word without bytes is no pathspec")]
    Empty,
    /// This byte behind the colon is no sign.
    #[error("a byte behind the colon is no sign of a pathspec")]
    Sign(u8),
    /// The words in parentheses don't end.
    #[error("no parenthesis closes the words behind the colon")]
    Unclosed,
    /// A word in parentheses isn't known.
    #[error("a word behind the colon isn't known")]
    Unknown,
    /// A word in parentheses is `attr`: requirements on attributes aren't taken.
    #[error("`attr` isn't taken")]
    Attr,
    /// A word in parentheses is `prefix:`, which Git keeps for itself.
    #[error("`prefix` isn't taken")]
    Prefix,
    /// It is marked `literal`, and `glob` too.
    #[error("`literal` and `glob` don't go together")]
    LiteralGlob,
    /// The settings for all words don't go together.
    #[error("the settings of all pathspecs don't go together")]
    Settings,
    /// Its path leads out of the work tree.
    #[error("the path leads out of the work tree")]
    Outside,
}

/// Why words are no list.
#[derive(Debug, Drop, Error)]
pub enum ReadFault {
    /// Memory was refused.
    #[error("no memory")]
    Memory,
    /// The word at this place, from 0, is the first that is no pathspec.
    #[error("{fault}")]
    Word {
        /// The place of the word.
        place: usize,
        /// What is wrong with it.
        fault: WordFault,
    },
}

impl From<AllocError> for ReadFault {
    ghost from_gives = { λ _ fault. fault ≡ Memory };

    fn from(_refused: AllocError) -> ReadFault {
        ReadFault::Memory
    }
}
