//! The parser of attribute files: each line that gives a pattern, with its number and what it assigns.
ghost use Rattle.std.specs.Prelude.{◌≡◌};
ghost use Rattle.glob_lines.specs.Equations.Ignore.{without_returns};
ghost use Rattle.glob_lines.specs.Equations.Lines.{lines_of};
ghost use Rattle.glob_attributes.specs.Equations.Files.{file_lines};

use crate::assignment::Assignment;
use crate::line::{LineReading, read_line};
use crate::pattern::read_pattern;
use gix_glob::search::pattern::Mapping;
use gix_glob::{laws, search};
use glob_lines::{next_ended_line, without_byte_order_mark};
use glob_lists::Reading;
use std::alloc::{AllocError, Global};

/// The length in bytes from which on a file has no lines.
pub const FILE_LIMIT: usize = 104_857_600;

/// Reads the lines of an attribute file that give a pattern, each as [`read_line`] does, with what they assign. Any other line is
/// skipped, but counted.
///
/// A byte order mark at the front of the bytes is passed over. A line ends at a line feed, with a carriage return directly before
/// it, or at the end of the bytes. The number of a mapping is that of its line, from 1. A file of 104,857,600 bytes or more has no
/// lines.
#[derive(Clone, Copy, PartialEq, Eq, Debug, Hash, PartialOrd, Ord, Default)]
pub struct AttributeLines {
    /// Whose reading of the patterns counts.
    pub reading: Reading,
}

impl search::Pattern for AttributeLines {
    ghost use Rattle.std.specs.Prelude.{ℕ, List};
    ghost use Rattle.glob_attributes.specs.declared.assignment.Assignment.{Assignment};
    ghost use Rattle.glob_attributes.specs.Views.{seen_assignments};
    ghost use Rattle.glob_attributes.specs.Equations.Files.{attributes_of};

    type Value = Vec<Assignment<Vec<u8>>>;

    ghost Seen = { List (Assignment (List ℕ)) };

    ghost seen = { seen_assignments };

    ghost meaning = { λ lines bytes _. attributes_of lines.reading bytes };

    fn bytes_to_patterns(
        &self,
        alloc: Global,
        bytes: &[u8],
        _source: &str,
    ) -> Result<Vec<Mapping<Vec<Assignment<Vec<u8>>>>>, AllocError> {
        // laws do nothing: they are called for what they ensure
        laws::readings_are_these();
        laws::git_readings_are_these();
        let mut mappings = Vec::new(alloc);
        let mut number = 0;
        let mut rest = file_lines(bytes);
        'lines: while let Some((line, more)) = next_ended_line(rest) {
            number += 1;
            if let LineReading::Pattern {
                pattern,
                assignments,
            } = read_line(alloc, line, true)?
            {
                mappings.push(Mapping {
                    pattern: read_pattern(alloc, &pattern, self.reading)?,
                    value: assignments,
                    sequence_number: number,
                })?;
            }
            rest = more;
        }
        Ok(mappings)
    }
}

/// The bytes that hold the lines of a file: without the byte order mark, and none where the file is too long.
pub(crate) fn file_lines(bytes: &[u8]) -> &[u8]
    ensures { lines_of (without_returns result.now) ≡ file_lines bytes.now }
{
    if bytes.len() >= FILE_LIMIT {
        return &[];
    }
    without_byte_order_mark(bytes)
}
