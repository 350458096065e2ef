//! What one line of an attribute file gives.
ghost use Rattle.std.specs.Prelude.{◌≡◌, ◌≤◌, IfOk, length, option_map};
ghost use Rattle.std.specs.List.{before_first};
ghost use Rattle.glob_attributes.specs.Places.{IsPartOf};
ghost use Rattle.glob_attributes.specs.Private.Readings.{assignments_of, is_macro, is_zero, macro_name, macro_reading, pattern_reading, says_nothing};
ghost use Rattle.glob_attributes.specs.Readings.{line_gives};
ghost use Rattle.glob_attributes.specs.Views.{seen_assignments, seen_reading};

use crate::assignment::{Assignment, own_assignment, read_assignment};
use crate::head::read_head;
use crate::name::is_name;
use crate::words::{Words, after_blanks, split_at_blank};
use memchr::memchr;
use std::alloc::{AllocError, Global};

/// The length in bytes from which on a line says nothing.
pub(crate) const LINE_LIMIT: usize = 2048;

/// Why a line says nothing, though it is neither empty nor a comment.
#[derive(Debug, Clone, Copy, PartialEq, Eq, Hash, PartialOrd, Ord)]
pub enum Silence {
    /// The line has 2,048 bytes or more.
    TooLong,
    /// A macro can't be defined in the attribute file of a folder below the top.
    MacroBelowTop,
    /// The name of a macro isn't valid.
    MacroName,
    /// The name of an attribute isn't valid.
    AttributeName,
    /// The pattern begins with `!`.
    Negative,
}

/// What a line of an attribute file gives.
#[derive(Debug, PartialEq, Eq, Drop)]
pub enum LineReading {
    /// The line is blank or a comment.
    Nothing,
    /// The line says nothing, for this reason.
    Silent(Silence),
    /// The line defines a macro.
    Macro {
        /// The macro's name.
        name: Vec<u8>,
        /// What the macro assigns, in the order of the line.
        assignments: Vec<Assignment<Vec<u8>>>,
    },
    /// The line assigns to the paths that match a pattern.
    Pattern {
        /// The bytes that the pattern is read from.
        pattern: Vec<u8>,
        /// What the paths are assigned, in the order of the line.
        assignments: Vec<Assignment<Vec<u8>>>,
    },
}

/// Reads a line of an attribute file, given without its ending. Macros are defined where `is_top` says that the file is no
/// attribute file of a folder below the top.
///
/// # Errors
/// Only where memory was refused.
pub fn read_line(alloc: Global, line: &[u8], is_top: bool) -> Result<LineReading, AllocError>
    ensures { IfOk result (λ reading. seen_reading reading ≡ line_gives is_top line.now) }
{
    let text = before_zero(line);
    let inner = after_blanks(text);
    if says_nothing(inner) {
        return Ok(LineReading::Nothing);
    }
    if text.len() >= LINE_LIMIT {
        return Ok(LineReading::Silent(Silence::TooLong));
    }
    let (head, rest) = read_head(alloc, inner)?;
    if is_macro(&head) {
        read_macro(alloc, &head, rest, is_top)
    } else {
        read_pattern(alloc, &head, rest)
    }
}

/// Whether nothing is left of a line behind its blanks, or a comment.
pub(crate) fn says_nothing(inner: &[u8]) -> bool
    ensures { result ≡ says_nothing inner.now }
{
    inner.is_empty() || inner.starts_with(b"#")
}

/// What stands before the first byte 0.
pub(crate) fn before_zero(bytes: &[u8]) -> &[u8]
    ensures bytes { result.now ≡ before_first is_zero bytes.now }
    ensures place { IsPartOf result bytes.entry }
{
    match memchr(0, bytes) {
        Some(place) => &bytes[..place],
        None => bytes,
    }
}

/// Whether a head defines a macro.
pub(crate) fn is_macro(head: &[u8]) -> bool
    ensures { result ≡ is_macro head.now }
{
    head.starts_with(b"[attr]") && head.len() > 6
}

/// Reads the head and the rest of a line that defines a macro.
fn read_macro(
    alloc: Global,
    head: &[u8],
    rest: &[u8],
    is_top: bool,
) -> Result<LineReading, AllocError>
    requires { 6 ≤ length head.now }
    ensures { IfOk result (λ reading. seen_reading reading ≡ macro_reading is_top head.now rest.now) }
{
    if !is_top {
        return Ok(LineReading::Silent(Silence::MacroBelowTop));
    }
    let name = macro_name(head);
    if !is_name(name) {
        return Ok(LineReading::Silent(Silence::MacroName));
    }
    let Some(assignments) = read_assignments(alloc, rest)? else {
        return Ok(LineReading::Silent(Silence::AttributeName));
    };
    let name = Vec::from_slice(alloc, name)?;
    Ok(LineReading::Macro { name, assignments })
}

/// Reads the head and the rest of a line that gives a pattern.
fn read_pattern(alloc: Global, head: &[u8], rest: &[u8]) -> Result<LineReading, AllocError>
    ensures { IfOk result (λ reading. seen_reading reading ≡ pattern_reading head.now rest.now) }
{
    let Some(assignments) = read_assignments(alloc, rest)? else {
        return Ok(LineReading::Silent(Silence::AttributeName));
    };
    if head.starts_with(b"!") {
        return Ok(LineReading::Silent(Silence::Negative));
    }
    let pattern = Vec::from_slice(alloc, before_zero(head))?;
    Ok(LineReading::Pattern {
        pattern,
        assignments,
    })
}

/// The name of the macro that a head defines, valid or not: behind `[attr]` and blanks, up to the next blank or byte 0.
pub(crate) fn macro_name(head: &[u8]) -> &[u8]
    requires { 6 ≤ length head.now }
    ensures bytes { result.now ≡ macro_name head.now }
    ensures place { IsPartOf result head.entry }
{
    split_at_blank(before_zero(after_blanks(&head[6..]))).0
}

/// What the words of a text assign; `None` where the name of one isn't valid.
fn read_assignments(
    alloc: Global,
    text: &[u8],
) -> Result<Option<Vec<Assignment<Vec<u8>>>>, AllocError>
    ensures { IfOk result (λ read. option_map seen_assignments read ≡ assignments_of text.now) }
{
    let mut assignments = Vec::new(alloc);
    for word in Words::new(text) {
        let Some(assignment) = read_assignment(word) else {
            return Ok(None);
        };
        assignments.push(own_assignment(alloc, &assignment)?)?;
    }
    Ok(Some(assignments))
}
