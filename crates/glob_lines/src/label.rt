//! The parser of labels: a pattern, a tab and a value on each line.
ghost use Rattle.glob_lines.specs.Label.{GivesLabel};

use crate::entries::NumberedMappings;
use crate::lines::Lines;
use gix_glob::search;
use gix_glob::search::pattern::Mapping;
use memchr::memchr;
use std::alloc::{AllocError, Global};

/// Reads of each line what stands before its first tab by `Pattern::from_bytes`; what stands after that tab is the value,
/// and without a tab the value is empty. A line with no pattern is skipped, but counted.
///
/// A line ends at a line feed or at the end of the bytes. The number of a mapping is that of its line, from 1.
#[derive(Clone, Copy, PartialEq, Eq, Debug, Hash, PartialOrd, Ord, Default)]
pub struct LabelLines;

impl search::Pattern for LabelLines {
    ghost use Rattle.std.specs.Prelude.{ℕ, List};
    ghost use Rattle.std.specs.Vec.{vec_items};
    ghost use Rattle.glob_lines.specs.Equations.Label.{label_of};

    type Value = Vec<u8>;

    ghost Seen = { List ℕ };

    ghost seen = { vec_items };

    ghost meaning = { λ _ bytes _. label_of bytes };

    fn bytes_to_patterns(
        &self,
        alloc: Global,
        bytes: &[u8],
        _source: &str,
    ) -> Result<Vec<Mapping<Vec<u8>>>, AllocError> {
        let mut read = NumberedMappings::new(alloc);
        for line in Lines::new(bytes) {
            let (text, label) = split_label(line);
            let label = Vec::from_slice(alloc, label)?;
            read.push_line(Some(text), label)?;
        }
        Ok(read.into_mappings())
    }
}

/// What stands before the first tab of a line, and what stands after it.
fn split_label(line: &[u8]) -> (&[u8], &[u8])
    ensures { GivesLabel line.now result.0.now result.1.now }
{
    match memchr(b'\t', line) {
        Some(tab) => (&line[..tab], &line[tab + 1..]),
        None => (line, &[]),
    }
}
