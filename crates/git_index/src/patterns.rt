//! Patterns that are held against the paths of entries.
ghost use Rattle.std.specs.Prelude.{◌≡◌, ◌↔◌, IsTrue, map};
ghost use Rattle.glob_matcher.specs.declared.wildmatch.way.Way.TheVariants.{Plain};
ghost use Rattle.glob_matcher.specs.Matching.{SplitsBy};
ghost use Rattle.git_index.specs.Entries.{tracked};
ghost use Rattle.git_index.specs.Private.Parts.{Fits, IsFitted, IsHeldByPattern};

use crate::entry::Entry;
use crate::fronts::split;
use glob_matcher::wildmatch::{Mode, wildmatch};

/// Whether a pattern matches the rest of a path, slashes too.
fn matches_rest(pattern: &[u8], rest: &[u8]) -> bool
    ensures { IsTrue result ↔ SplitsBy rest.now pattern.now Plain }
{
    wildmatch(pattern, rest, Mode::default())
}

/// Whether a path begins with the front, and the pattern matches the rest.
fn fits(path: &[u8], front: &[u8], pattern: &[u8]) -> bool
    ensures { IsTrue result ↔ Fits path.now front.now pattern.now }
{
    match path.strip_prefix(front) {
        Some(rest) => matches_rest(pattern, rest),
        None => false,
    }
}

/// Whether one of the entries has such a path.
fn is_fitted(entries: &[Entry], front: &[u8], pattern: &[u8]) -> bool
    ensures { IsTrue result ↔ IsFitted (map tracked entries.now) front.now pattern.now }
{
    for entry in entries {
        if fits(&entry.path, front, pattern) {
            return true;
        }
    }
    false
}

/// Whether an entry holds an asked path as a pattern.
pub fn holds_by_pattern(entries: &[Entry], asked: &[u8], literal: usize) -> bool
    ensures { IsTrue result ↔ IsHeldByPattern (map tracked entries.now) asked.now literal }
{
    let (front, pattern) = split(asked, literal);
    !pattern.is_empty() && is_fitted(entries, front, pattern)
}
