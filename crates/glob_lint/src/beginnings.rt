//! How the paths begin that a line matches: with the base of its list, and with the literal front of its text.
ghost use Rattle.std.specs.Prelude.{◌≡◌, ◌+◌, ◌<◌, ◌++◌, [], IfOk, IsTrue, if◌then◌else◌, length, slice_index, unwrap_or};
ghost use Rattle.gix_glob.specs.GitPaths.{front_of};
ghost use Rattle.gix_glob.specs.Patterns.{IsPattern};
ghost use Rattle.glob_lint.specs.Private.Beginnings.{DifferAtFront, beginning_of, front_of_line};

use crate::line::Line;
use gix_glob::pattern::PatternView;
use gix_glob::wildmatch::Way;
use std::alloc::{AllocError, Global};

/// How the paths begin that a line matches.
///
/// # Errors
/// Only where memory was refused.
pub(crate) fn beginning_of(alloc: Global, line: &Line<'_>) -> Result<Vec<u8>, AllocError>
    ensures { IfOk result (λ bytes. bytes.items ≡ beginning_of line.now) }
{
    let mut bytes = Vec::from_slice(alloc, base_of(line))?;
    bytes.extend_from_slice(front_of(line))?;
    Ok(bytes)
}

/// The base of a line's list; no bytes where it has none.
fn base_of<'a>(line: &Line<'a>) -> &'a [u8]
    ensures { result.now ≡ unwrap_or line.now.base [] }
{
    match line.base {
        Some(base) => base,
        None => b"",
    }
}

/// The literal front of a line's text; no bytes where it looks at names alone.
fn front_of<'a>(line: &Line<'a>) -> &'a [u8]
    ensures { result.now ≡ front_of_line line.now }
{
    if line.pattern.mode.looks_at_name() {
        return b"";
    }
    literal_front(line.pattern)
}

/// What stands before the first special byte of a pattern.
fn literal_front(pattern: PatternView<'_>) -> &[u8]
    requires { IsPattern pattern.text.now pattern.mode pattern.first_wildcard_pos }
    ensures { result.now ≡ front_of pattern.entry.text.now }
{
    match pattern.first_wildcard_pos {
        Some(place) => &pattern.text[..place],
        None => pattern.text,
    }
}

/// Whether no path begins as both lines have it.
pub(crate) fn begin_apart(left: &Line<'_>, right: &Line<'_>, way: Way) -> bool
    ensures { IsTrue result → DifferAtFront way (beginning_of left.now) (beginning_of right.now) }
{
    let (base, front) = (base_of(left), front_of(left));
    let (other_base, other_front) = (base_of(right), front_of(right));
    let count = base.len() + front.len();
    'places: for place in 0..count.min(other_base.len() + other_front.len()) {
        let byte = byte_of(base, front, place);
        if !way.alike(byte, byte_of(other_base, other_front, place)) {
            return true;
        }
    }
    false
}

/// The byte at a place of a base and what follows it.
fn byte_of(base: &[u8], front: &[u8], place: usize) -> u8
    requires { place < length base.now + length front.now }
    ensures { result ≡ slice_index (base.now ++ front.now) place }
{
    if place < base.len() {
        base[place]
    } else {
        front[place - base.len()]
    }
}
