//! What a search may use: memory, and a number of matches.

use gix_glob::search::pattern::List;
use glob_lines::GitIgnoreLines;
use std::alloc::Global;

/// About how many matches are asked for at most: each is one of a line with a path or with another line. What is left then isn't looked at.
pub const MOST_MATCHES: usize = 200_000_000;

/// What a search may use.
#[derive(Drop)]
pub(crate) struct Means {
    pub(crate) alloc: Global,
    /// How many matches may still be asked for.
    left: usize,
    /// Whether more were asked for than were left.
    is_cut: bool,
    /// How many lines a question asks: those of the lists in the folder that is looked at, and above.
    lines: usize,
    /// The places of the lines that matched some path: the memory serves many questions.
    pub(crate) found: Vec<(usize, usize)>,
}

impl Means {
    /// What a search may use.
    pub(crate) fn new(alloc: Global) -> Means {
        Means {
            alloc,
            left: MOST_MATCHES,
            is_cut: false,
            lines: 0,
            found: Vec::new(alloc),
        }
    }

    /// Begins with the lines of a list.
    pub(crate) fn enter(&mut self, lists: &[List<GitIgnoreLines>], list: &List<GitIgnoreLines>) {
        self.lines = 0;
        'lists: for above in lists {
            if base_of(list).starts_with(base_of(above)) {
                self.lines = self.lines.saturating_add(above.patterns.len());
            }
        }
    }

    /// Whether more was asked for than was left.
    pub(crate) fn is_cut(&self) -> bool {
        self.is_cut
    }

    /// Takes the matches of some questions; whether so many were left.
    pub(crate) fn take_questions(&mut self, questions: usize) -> bool {
        self.take(questions.saturating_mul(self.lines))
    }

    /// Takes some matches; whether so many were left.
    pub(crate) fn take(&mut self, matches: usize) -> bool {
        if matches > self.left {
            self.is_cut = true;
            return false;
        }
        self.left -= matches;
        true
    }
}

/// Whether a path may lie under the bases of both lists.
pub(crate) fn bases_meet(list: &List<GitIgnoreLines>, other: &List<GitIgnoreLines>) -> bool {
    base_of(list).starts_with(base_of(other)) || base_of(other).starts_with(base_of(list))
}

/// The base of a list; no bytes where it has none.
fn base_of(list: &List<GitIgnoreLines>) -> &[u8] {
    match &list.base {
        Some(base) => base,
        None => b"",
    }
}
