//! A line of an ignore file: the base of its list, and its pattern.

use bitflags::Flags;
use gix_glob::pattern::{Mode, PatternView};
use gix_glob::search::pattern::List;
use glob_lines::GitIgnoreLines;
use std::marker::Model;

/// A line of a list. Contracts see the base, the text and the mode.
#[derive(Debug, Drop)]
pub struct Line<'a> {
    pub(crate) base: Option<&'a [u8]>,
    pub(crate) pattern: PatternView<'a>,
}

impl<'a> Model for Line<'a> {
    ghost use Rattle.std.specs.Prelude.{option_map};
    ghost use Rattle.gix_glob.specs.Patterns.{IsPattern};
    ghost use Rattle.glob_lint.specs.Lines.{LineParts};

    ghost Value = { LineParts };

    ghost view = { λ line. record { base = option_map (λ base. base.now) line.base; text = line.pattern.text.now; mode = line.pattern.mode } };

    ghost invariant = { λ line. IsPattern line.pattern.text.now line.pattern.mode line.pattern.first_wildcard_pos };
}

impl<'a> Line<'a> {
    ghost use Rattle.std.specs.Prelude.{◌≡◌, ◌<◌, Some, length, slice_get};
    ghost use Rattle.gix_glob.specs.Entries.{Entry};
    ghost use Rattle.gix_glob.specs.EntryLists.{entry_list_of};
    ghost use Rattle.gix_glob.specs.Patterns.{is_for_directories};
    ghost use Rattle.glob_lint.specs.Lines.{line_of};

    /// The line at a place of a list, from 0.
    pub fn at(list: &'a List<GitIgnoreLines>, place: usize) -> Line<'a>
        requires { place < length list.now.patterns.items }
        ensures { (entry : Entry (Unit {0})) → slice_get (entry_list_of {V = Unit {0}} (λ _. tt) list.now).entries place ≡ Some entry
            → result ≡ line_of (entry_list_of {V = Unit {0}} (λ _. tt) list.now) entry }
    {
        Line {
            base: match &list.base {
                Some(base) => Some(base),
                None => None,
            },
            pattern: list.patterns[place].pattern.view(),
        }
    }

    /// Whether it matches folders alone.
    pub fn is_for_folders(&self) -> bool
        ensures { result ≡ is_for_directories self.now.mode }
    {
        self.pattern.mode.contains(Mode::MUST_BE_DIR)
    }
}
