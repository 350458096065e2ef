//! The lines of a file that say nothing, and why.
ghost use Rattle.std.specs.Prelude.{◌≡◌, IfOk};
ghost use Rattle.glob_attributes.specs.Told.{silent_lines};

use crate::line::{LineReading, Silence, read_line};
use crate::parser::file_lines;
use glob_lines::next_ended_line;
use std::alloc::{AllocError, Global};

/// A line that says nothing, though it is neither empty nor a comment.
#[derive(Debug, Clone, Copy, PartialEq, Eq, Hash, PartialOrd, Ord)]
pub struct SilentLine {
    /// The number of the line, from 1.
    pub number: usize,
    /// Why it says nothing: the first reason, in the order of [`Silence`].
    pub silence: Silence,
}

/// The lines of an attribute file that say nothing for a reason, in order. Macros are defined where `is_top` says that the file is no
/// attribute file of a folder below the top.
///
/// # Errors
/// Only where memory was refused.
pub fn silent_lines(
    alloc: Global,
    bytes: &[u8],
    is_top: bool,
) -> Result<Vec<SilentLine>, AllocError>
    ensures { IfOk result (λ lines. lines.items ≡ silent_lines is_top bytes.now) }
{
    let mut lines = Vec::new(alloc);
    let mut number = 0;
    let mut rest = file_lines(bytes);
    'lines: while let Some((line, more)) = next_ended_line(rest) {
        number += 1;
        if let LineReading::Silent(silence) = read_line(alloc, line, is_top)? {
            lines.push(SilentLine { number, silence })?;
        }
        rest = more;
    }
    Ok(lines)
}
