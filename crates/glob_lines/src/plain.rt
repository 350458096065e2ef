//! The parser of plain lines: each line is a pattern, and its number stands beside it.

use crate::entries::NumberedMappings;
use crate::lines::Lines;
use gix_glob::search;
use gix_glob::search::pattern::Mapping;
use std::alloc::{AllocError, Global};

/// Reads each line by `Pattern::from_bytes`. A line that is no pattern is skipped, but counted.
///
/// A line ends at a line feed or at the end of the bytes. The number of a mapping is that of its line, from 1.
#[derive(Clone, Copy, PartialEq, Eq, Debug, Hash, PartialOrd, Ord, Default)]
pub struct PlainLines;

impl search::Pattern for PlainLines {
    ghost use Rattle.glob_lines.specs.Equations.Plain.{plain_of};

    type Value = ();

    ghost Seen = { Unit {0} };

    ghost seen = { λ _. tt };

    ghost meaning = { λ _ bytes _. plain_of bytes };

    fn bytes_to_patterns(
        &self,
        alloc: Global,
        bytes: &[u8],
        _source: &str,
    ) -> Result<Vec<Mapping<()>>, AllocError> {
        let mut read = NumberedMappings::new(alloc);
        for line in Lines::new(bytes) {
            read.push_line(Some(line), ())?;
        }
        Ok(read.into_mappings())
    }
}
