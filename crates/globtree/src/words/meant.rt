//! The name that a wrong word may have been meant for.

use crate::words::command_name::COMMANDS;
use crate::words::fault::WordFault;
use crate::words::table::option_names;
use crate::words::texts;
use std::alloc::{AllocError, Global};
use strsim::levenshtein;

/// More edits than these lead to a name that isn't near.
const MOST_EDITS: usize = 2;

/// A word of so many bytes may stand for a name that begins with it.
const LEAST_FRONT: usize = 3;

/// The name that may have been meant by the wrong word: of those that could stand there the first to which the fewest edits lead, two at
/// most. An edit puts in a character, takes one out or changes one. A word of three bytes or more that begins a name is as near as the
/// name itself.
pub(crate) fn meant_by(
    alloc: Global,
    fault: WordFault<'_>,
) -> Result<Option<&'static str>, AllocError> {
    match fault {
        WordFault::UnknownCommand { word } => nearest(alloc, word, &COMMANDS),
        WordFault::UnknownOption { word } => {
            nearest(alloc, word, &option_names(alloc, texts::program::HELP)?)
        }
        WordFault::UnknownOptionOf { command, word } => {
            nearest(alloc, word, &option_names(alloc, command.help())?)
        }
        _ => Ok(None),
    }
}

/// The name that is nearest to a word; `None` where each is too far away.
fn nearest(
    alloc: Global,
    word: &str,
    names: &[&'static str],
) -> Result<Option<&'static str>, AllocError> {
    let mut nearest = None;
    let mut least = MOST_EDITS + 1;
    'names: for name in names {
        let distance = distance(alloc, word, name)?;
        if distance < least {
            nearest = Some(*name);
            least = distance;
        }
    }
    Ok(nearest)
}

/// How far the word is from the name.
fn distance(alloc: Global, word: &str, name: &str) -> Result<usize, AllocError> {
    if word.len() >= LEAST_FRONT && name.starts_with(word) {
        return Ok(0);
    }
    levenshtein(alloc, word, name)
}
