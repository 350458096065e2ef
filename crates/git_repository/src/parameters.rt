//! The words of `GIT_CONFIG_PARAMETERS`, by which Git hands those of `-c` on: each in quotes, as a whole or its key and its value.
ghost use Rattle.std.specs.Prelude.{◌<◌, ◌≤◌, IfOk, IfSome, length};

use crate::faults::VariableFault;
use crate::paths::without_blanks;
use crate::sources::{ConfigSource, add_word};
use git_config::{is_blank, split_word};
use std::alloc::{AllocError, Global};

/// Adds the words of a text, up to one that is wrong, and tells this fault.
pub(crate) fn add_handed(
    alloc: Global,
    text: &[u8],
    list: &mut Vec<ConfigSource>,
) -> Result<Option<VariableFault>, AllocError> {
    let mut rest = text;
    'words: while !rest.is_empty() {
        let Some(more) = add_first(alloc, rest, list)? else {
            return Ok(Some(VariableFault::Parameters));
        };
        rest = more;
    }
    Ok(None)
}

/// Adds the word at the front of a text, and answers what follows it and the blanks behind; `None` where it is wrong.
fn add_first<'t>(
    alloc: Global,
    text: &'t [u8],
    list: &mut Vec<ConfigSource>,
) -> Result<Option<&'t [u8]>, AllocError>
    ensures shorter { IfOk result (λ rest. IfSome rest (λ more. length more.now < length text.now)) }
{
    let mut word = Vec::new(alloc);
    let Some(rest) = unquote(text, &mut word)? else {
        return Ok(None);
    };
    let Some(told) = rest.strip_prefix(b"=") else {
        let Some(rest) = behind_blanks(rest) else {
            return Ok(None);
        };
        let (key, value) = split_word(&word);
        add_word(alloc, without_blanks(key), value, list)?;
        return Ok(Some(rest));
    };
    if !told.starts_with(b"'") {
        let Some(rest) = behind_blanks(told) else {
            return Ok(None);
        };
        add_word(alloc, &word, None, list)?;
        return Ok(Some(rest));
    }
    let mut value = Vec::new(alloc);
    let Some(rest) = unquote(told, &mut value)? else {
        return Ok(None);
    };
    let Some(rest) = behind_blanks(rest) else {
        return Ok(None);
    };
    add_word(alloc, &word, Some(&value), list)?;
    Ok(Some(rest))
}

/// Adds the bytes that stand in quotes at the front of a text, and answers what follows; `None` where no quotes stand there. A backslash
/// outside of them may stand before a quote and before `!`.
fn unquote<'t>(text: &'t [u8], out: &mut Vec<u8>) -> Result<Option<&'t [u8]>, AllocError>
    ensures shorter { IfOk result (λ rest. IfSome rest (λ more. length more.now < length text.now)) }
{
    let [b'\'', first @ ..] = text else {
        return Ok(None);
    };
    let mut rest = first;
    'bytes: while let [byte, more @ ..] = rest {
        rest = match rest {
            [b'\'', b'\\', escaped @ (b'\'' | b'!'), b'\'', behind @ ..] => {
                out.push(*escaped)?;
                behind
            }
            [b'\'', behind @ ..] => return Ok(Some(behind)),
            _ => {
                out.push(*byte)?;
                more
            }
        };
    }
    Ok(None)
}

/// What follows the blanks in front of a text, of which there is one at least unless the text is empty.
fn behind_blanks(text: &[u8]) -> Option<&[u8]>
    ensures shorter { IfSome result (λ more. length more.now ≤ length text.now) }
{
    match text.iter().position(|b| !is_blank(*b)) {
        Some(0) => None,
        Some(place) => Some(&text[place..]),
        None => Some(b""),
    }
}
