//! The head of a line: a pattern, or what defines a macro, bare or between quotes.
ghost use Rattle.std.specs.Prelude.{◌≡◌, ℕ, List, IfOk, MatchOption, option_map};
ghost use Rattle.glob_attributes.specs.Equations.Heads.{escape_at, head_of, letter_byte, quoted_from, unit_at};
ghost use Rattle.glob_attributes.specs.Heads.{IsQuotedHead};

use crate::words::split_at_blank;
use std::alloc::{AllocError, Global};

/// The head that a text begins with, its escapes replaced, and what follows it.
///
/// A text that begins with a quote has the bytes up to the closing quote as its head, where there is one and only right escapes
/// stand before it. The head of another text is what stands before its first blank.
pub(crate) fn read_head(alloc: Global, text: &[u8]) -> Result<(Vec<u8>, &[u8]), AllocError>
    ensures { IfOk result (λ read. (read.0.items, read.1.now) ≡ head_of text.now) }
{
    if let Some(quoted) = text.strip_prefix(b"\"") {
        if let Some(found) = read_units(alloc, quoted)? {
            return Ok(found);
        }
    }
    let (head, rest) = split_at_blank(text);
    Ok((Vec::from_slice(alloc, head)?, rest))
}

/// The bytes that a text spells between a quote at its front and the next one, as Git writes a name with unusual bytes, and what
/// follows that quote. `None` where the text begins with no quote, has no other one, or has a wrong escape before it.
///
/// # Errors
/// Only where memory was refused.
pub fn read_quoted(alloc: Global, text: &[u8]) -> Result<Option<(Vec<u8>, &[u8])>, AllocError>
    ensures { IfOk result (λ read. MatchOption read
        ((name rest : List ℕ) → ¬ IsQuotedHead text.now name rest)
        (λ found. IsQuotedHead text.now found.0.items found.1.now)) }
{
    match text.strip_prefix(b"\"") {
        Some(quoted) => read_units(alloc, quoted),
        None => Ok(None),
    }
}

/// The bytes before the closing quote, with their escapes replaced, and what follows that quote. `None` where there is no closing
/// quote, or a wrong escape stands before it.
fn read_units(alloc: Global, quoted: &[u8]) -> Result<Option<(Vec<u8>, &[u8])>, AllocError>
    ensures { IfOk result (λ read. option_map (λ found. (found.0.items, found.1.now)) read ≡ quoted_from 0 quoted.now) }
{
    let mut head = Vec::new(alloc);
    let mut rest = quoted;
    'units: while let Some((byte, more)) = unit_at(rest) {
        head.push(byte)?;
        rest = &rest[more + 1..];
    }
    match rest.strip_prefix(b"\"") {
        Some(behind) => Ok(Some((head, behind))),
        None => Ok(None),
    }
}

/// The byte that is spelled at the front of a quoted text, and how many bytes behind the first belong to its spelling. `None` at a
/// quote, at the end, and where a backslash begins no right escape.
#[inline(always)]
pub(crate) fn unit_at(bytes: &[u8]) -> Option<(u8, usize)>
    ensures { result ≡ unit_at bytes.now }
{
    match bytes {
        [] | [b'"', ..] => None,
        [b'\\', behind @ ..] => escape_at(behind),
        [b, ..] => Some((*b, 0)),
    }
}

/// The byte that a backslash and what follows it spell, and how many bytes behind the backslash belong to it. `None` where they are no
/// right escape.
#[inline(always)]
fn escape_at(behind: &[u8]) -> Option<(u8, usize)>
    ensures { result ≡ escape_at behind.now }
{
    if let [x @ b'0'..=b'3', y @ b'0'..=b'7', z @ b'0'..=b'7', ..] = behind {
        return Some(((*x - b'0') * 64 + (*y - b'0') * 8 + (*z - b'0'), 3));
    }
    let [letter, ..] = behind else {
        return None;
    };
    Some((letter_byte(*letter)?, 1))
}

/// The byte that a backslash and a letter, a quote or a backslash spell; `None` where they are no escape.
fn letter_byte(letter: u8) -> Option<u8>
    ensures { result ≡ letter_byte letter }
{
    match letter {
        b'a' => Some(7),
        b'b' => Some(8),
        b't' => Some(9),
        b'n' => Some(10),
        b'v' => Some(11),
        b'f' => Some(12),
        b'r' => Some(13),
        b'"' | b'\\' => Some(letter),
        _ => None,
    }
}
