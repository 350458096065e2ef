//! What a report says of a line that makes no difference: the name of the finding, how grave it is, and its words.

use crate::covering::covers;
use crate::line::Line;
use crate::lints::{Level, Lint};
use crate::nothing::{Fault, Part, fault_of, matches_nothing};
use crate::pairs::comes_before;
use crate::why::Why;
use bitflags::Flags;
use gix_glob::pattern::{Mode, PatternView};
use gix_glob::search::pattern::List;
use glob_lines::GitIgnoreLines;
use glob_lists::Rules;
use std::alloc::{AllocError, Global};

/// What is said of a line.
#[derive(Clone, Copy)]
pub(crate) struct Verdict {
    pub(crate) level: Level,
    pub(crate) lint: Lint,
    pub(crate) text: &'static str,
    /// The places of the list and of the line in it that are the reason.
    pub(crate) by: Option<(usize, usize)>,
}

impl Verdict {
    /// Whether this, said of the line at a pair of places, is seldom a mistake: files in folders repeat what the top says.
    pub(crate) fn is_seldom_a_mistake(&self, pair: (usize, usize)) -> bool {
        match self.lint {
            Lint::NothingToTakeBack => true,
            Lint::Covered | Lint::Repeated => match self.by {
                Some(by) => by.0 != pair.0,
                None => false,
            },
            _ => false,
        }
    }
}

/// Lists, and the rules by which they were looked at.
#[derive(Clone, Copy)]
pub(crate) struct Lines<'a> {
    pub(crate) lists: &'a [List<GitIgnoreLines>],
    pub(crate) rules: Rules,
}

impl<'a> Lines<'a> {
    /// The line at a pair of places.
    pub(crate) fn get(&self, pair: (usize, usize)) -> Option<Line<'a>> {
        let list = self.lists.get(pair.0)?;
        if pair.1 >= list.patterns.len() {
            return None;
        }
        Some(Line::at(list, pair.1))
    }

    /// The number of the line at a pair of places in its file, from 1.
    pub(crate) fn number_of(&self, pair: (usize, usize)) -> Option<usize> {
        let list = self.lists.get(pair.0)?;
        let mapping = list.patterns.get(pair.1)?;
        Some(mapping.sequence_number)
    }

    /// Whether the line at a pair of places has `!` in front.
    fn is_negative(&self, pair: (usize, usize)) -> bool {
        match self.get(pair) {
            Some(line) => line.pattern.mode.contains(Mode::NEGATIVE),
            None => false,
        }
    }

    /// What is said of the line at a pair of places, which makes no difference for this reason.
    pub(crate) fn verdict(&self, pair: (usize, usize), why: Why) -> Verdict {
        match why {
            Why::MatchesNothing => Verdict {
                level: Level::Error,
                lint: Lint::MatchesNothing,
                text: self.text_of_fault(pair),
                by: None,
            },
            Why::Covered(by) => self.verdict_of_covered(pair, by),
            Why::BelowIgnored(by) => self.verdict_of_below(pair, by),
            Why::TakesNothingBack => Verdict {
                level: Level::Note,
                lint: Lint::NothingToTakeBack,
                text: "takes nothing back: no line here ignores what it matches",
                by: None,
            },
        }
    }

    /// Why the line at a pair of places matches nothing, in words.
    fn text_of_fault(&self, pair: (usize, usize)) -> &'static str {
        let fault = match self.get(pair) {
            Some(line) => fault_of(&line, self.rules),
            None => None,
        };
        match fault {
            Some(Fault::Bracket) => "matches nothing: a bracket isn't closed, or names no class",
            Some(Fault::Backslash) => "matches nothing: its last backslash escapes nothing",
            Some(Fault::Part(Part::Dot)) => "matches nothing: no path has a part `.`",
            Some(Fault::Part(Part::TwoDots)) => "matches nothing: no path has a part `..`",
            Some(Fault::Part(Part::Empty)) if self.has_text(pair) => {
                "matches nothing: no path has two slashes in a row"
            }
            _ => "matches nothing: it names nothing",
        }
    }

    /// Whether the pattern of the line at a pair of places has bytes, besides a slash at each end.
    fn has_text(&self, pair: (usize, usize)) -> bool {
        match self.get(pair) {
            Some(line) => !line.pattern.text.is_empty(),
            None => false,
        }
    }

    /// What is said of the line at a pair of places, all of which the line at `by` matches.
    fn verdict_of_covered(&self, pair: (usize, usize), by: (usize, usize)) -> Verdict {
        let by_place = Some(by);
        if self.is_negative(pair) != self.is_negative(by) && comes_before(pair, by) {
            return Verdict {
                level: Level::Error,
                lint: Lint::Overruled,
                text: "never decides: a later line matches all that it does",
                by: by_place,
            };
        }
        if self.are_covered_both_ways(pair, by) {
            return Verdict {
                level: Level::Warning,
                lint: Lint::Repeated,
                text: "another line matches the same",
                by: by_place,
            };
        }
        Verdict {
            level: Level::Warning,
            lint: Lint::Covered,
            text: "another line matches all that it does",
            by: by_place,
        }
    }

    /// Whether the line at the one pair of places matches all that the one at the other does.
    fn are_covered_both_ways(&self, pair: (usize, usize), by: (usize, usize)) -> bool {
        match (self.get(pair), self.get(by)) {
            (Some(line), Some(other)) => covers(&other, &line, self.rules),
            _ => false,
        }
    }

    /// What is said of the line at a pair of places, all of which lies below a folder that the line at `by` ignores.
    fn verdict_of_below(&self, pair: (usize, usize), by: (usize, usize)) -> Verdict {
        let by = Some(by);
        if self.is_negative(pair) {
            return Verdict {
                level: Level::Error,
                lint: Lint::BelowIgnored,
                text: "takes nothing back: the folder above is ignored",
                by,
            };
        }
        Verdict {
            level: Level::Warning,
            lint: Lint::BelowIgnored,
            text: "never decides: the folder above is ignored",
            by,
        }
    }

    /// A line of this text, without the parts `.` in front of its pattern; `None` where it has none, or matches nothing then, too.
    ///
    /// # Errors
    /// Only where memory was refused.
    pub(crate) fn without_dots(
        &self,
        alloc: Global,
        text: &[u8],
    ) -> Result<Option<Vec<u8>>, AllocError> {
        let (sign, body) = match text {
            [b'!', body @ ..] => (b"!".as_slice(), body),
            body => (b"".as_slice(), body),
        };
        let Some(rest) = body.strip_prefix(b".") else {
            return Ok(None);
        };
        let mut line = Vec::from_slice(alloc, sign)?;
        line.extend_from_slice(rest)?;
        let pattern = PatternView::from_git_line(&line);
        let is_path = rest.starts_with(b"/");
        if !is_path
            || matches_nothing(
                &Line {
                    base: None,
                    pattern,
                },
                self.rules,
            )
        {
            return Ok(None);
        }
        Ok(Some(line))
    }

    /// Whether the line at a pair of places ignores folders, too, while a later line of its list takes names back and none takes folders
    /// back.
    pub(crate) fn ignores_folders_too(&self, pair: (usize, usize)) -> bool {
        let Some(list) = self.lists.get(pair.0) else {
            return false;
        };
        let Some([mapping, later @ ..]) = list.patterns.get(pair.1..) else {
            return false;
        };
        ignores_all(mapping.pattern.view())
            && later
                .iter()
                .any(|mapping| takes_names_back(mapping.pattern.view()))
            && !later
                .iter()
                .any(|mapping| takes_folders_back(mapping.pattern.view()))
    }
}

/// Whether a pattern ignores all names.
fn ignores_all(pattern: PatternView<'_>) -> bool {
    pattern.text == b"*".as_slice()
        && !pattern.mode.contains(Mode::NEGATIVE)
        && !pattern.mode.contains(Mode::MUST_BE_DIR)
}

/// Whether a pattern takes back names that lie anywhere, but not all of them.
fn takes_names_back(pattern: PatternView<'_>) -> bool {
    pattern.mode.contains(Mode::NEGATIVE)
        && pattern.mode.looks_at_name()
        && !pattern.mode.contains(Mode::MUST_BE_DIR)
        && pattern.first_wildcard_pos.is_some()
}

/// Whether a pattern takes back folders.
fn takes_folders_back(pattern: PatternView<'_>) -> bool {
    pattern.mode.contains(Mode::NEGATIVE)
        && (pattern.mode.contains(Mode::MUST_BE_DIR) || pattern.text == b"*".as_slice())
}
