//! The parsers of ignore lines: each line of an ignore file is a pattern, and its number stands beside it.

use crate::entries::NumberedMappings;
use crate::git_line::next_git_line;
use crate::ignore_line::{next_ignore_line, without_byte_order_mark};
use gix_glob::search;
use gix_glob::search::pattern::Mapping;
use std::alloc::{AllocError, Global};

/// Reads the lines of an ignore file, by Git's rules but for three departures, and numbers them from 1.
///
/// A byte order mark at the front of the bytes is passed over. Each line is taken as [`next_ignore_line`] gives it, and read by
/// `Pattern::from_bytes`. A comment, and a line that is no pattern, is skipped, but counted. The rules are in `docs/PATTERNS.md`.
#[derive(Clone, Copy, PartialEq, Eq, Debug, Hash, PartialOrd, Ord, Default)]
pub struct IgnoreLines;

impl search::Pattern for IgnoreLines {
    ghost use Rattle.glob_lines.specs.Equations.Ignore.{ignore_of};

    type Value = ();

    ghost Seen = { Unit {0} };

    ghost seen = { λ _. tt };

    ghost meaning = { λ _ bytes _. ignore_of bytes };

    fn bytes_to_patterns(
        &self,
        alloc: Global,
        bytes: &[u8],
        _source: &str,
    ) -> Result<Vec<Mapping<()>>, AllocError> {
        let mut read = NumberedMappings::new(alloc);
        let mut rest = without_byte_order_mark(bytes);
        'lines: while let Some(line) = next_ignore_line(rest) {
            read.push_line(line.text, ())?;
            rest = line.rest;
        }
        Ok(read.into_mappings())
    }
}

/// Reads the lines of an ignore file as Git does, and numbers them from 1.
///
/// A byte order mark at the front of the bytes is passed over. Each line is taken as [`next_git_line`] gives it, and read by
/// `Pattern::from_git_line`. A comment, and a line without bytes, is skipped, but counted. The rules are in `docs/PATTERNS.md`.
#[derive(Clone, Copy, PartialEq, Eq, Debug, Hash, PartialOrd, Ord, Default)]
pub struct GitIgnoreLines;

impl search::Pattern for GitIgnoreLines {
    ghost use Rattle.glob_lines.specs.Equations.GitLines.{git_entries_of};

    type Value = ();

    ghost Seen = { Unit {0} };

    ghost seen = { λ _. tt };

    ghost meaning = { λ _ bytes _. git_entries_of bytes };

    fn bytes_to_patterns(
        &self,
        alloc: Global,
        bytes: &[u8],
        _source: &str,
    ) -> Result<Vec<Mapping<()>>, AllocError> {
        let mut read = NumberedMappings::new(alloc);
        let mut rest = without_byte_order_mark(bytes);
        'lines: while let Some(line) = next_git_line(rest) {
            read.push_git_line(line.text, ())?;
            rest = line.rest;
        }
        Ok(read.into_mappings())
    }
}
