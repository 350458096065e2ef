//! What is asked of the lines at pairs of places: a list and a line in it, both from 0.
ghost use Rattle.std.specs.Prelude.{◌↔◌, ◌≡◌, IsTrue};
ghost use Rattle.glob_lists.specs.Deciding.{HasEntryAt};
ghost use Rattle.glob_lint.specs.declared.why.Why.TheVariants.{MatchesNothing};
ghost use Rattle.glob_lint.specs.Effects.{Before, CoversAt, IsWhy};
ghost use Rattle.glob_lint.specs.Seen.{seen};
ghost use Rattle.glob_lint.specs.Private.Pairs.{IsLineAt};
ghost use Rattle.glob_lint.specs.Private.Reasons.{AreApartAt};
ghost use Rattle.glob_lint.specs.Without.{is_among};

use crate::apart::are_apart;
use crate::covering::covers;
use crate::line::Line;
use crate::nothing::matches_nothing;
use crate::samples::{Sample, samples_of};
use gix_glob::search::pattern::List;
use glob_lines::GitIgnoreLines;
use glob_lists::Rules;
use std::alloc::{AllocError, Global};

/// The line at a pair of places.
pub(crate) fn line_at<'a>(lists: &'a [List<GitIgnoreLines>], pair: (usize, usize)) -> Line<'a>
    requires { HasEntryAt (seen lists.now) pair }
    ensures { IsLineAt (seen lists.entry.now) pair result }
{
    Line::at(&lists[pair.0], pair.1)
}

/// Whether the line at `by` matches each path of a work tree that the one at `pair` does.
pub(crate) fn covers_at(
    lists: &[List<GitIgnoreLines>],
    pair: (usize, usize),
    by: (usize, usize),
    rules: Rules,
) -> bool
    requires here { HasEntryAt (seen lists.now) pair }
    requires there { HasEntryAt (seen lists.now) by }
    ensures { IsTrue result → CoversAt rules (seen lists.now) pair by }
{
    covers(&line_at(lists, pair), &line_at(lists, by), rules)
}

/// Whether the line at a pair of places matches no path of a work tree.
pub(crate) fn matches_nothing_at(
    lists: &[List<GitIgnoreLines>],
    pair: (usize, usize),
    rules: Rules,
) -> bool
    requires { HasEntryAt (seen lists.now) pair }
    ensures { IsTrue result → IsWhy rules (seen lists.now) pair MatchesNothing }
{
    matches_nothing(&line_at(lists, pair), rules)
}

/// Whether the lines at two pairs of places match no path of a work tree together.
pub(crate) fn are_apart_at(
    lists: &[List<GitIgnoreLines>],
    pair: (usize, usize),
    other: (usize, usize),
    rules: Rules,
) -> bool
    requires here { HasEntryAt (seen lists.now) pair }
    requires there { HasEntryAt (seen lists.now) other }
    ensures { IsTrue result → AreApartAt rules (seen lists.now) pair other }
{
    are_apart(&line_at(lists, pair), &line_at(lists, other), rules)
}

/// Some paths that the line at a pair of places may match.
pub(crate) fn samples_at(
    alloc: Global,
    lists: &[List<GitIgnoreLines>],
    pair: (usize, usize),
    rules: Rules,
) -> Result<Vec<Sample>, AllocError>
    requires { HasEntryAt (seen lists.now) pair }
{
    samples_of(alloc, &line_at(lists, pair), rules)
}

/// Whether the one pair of places comes before the other: lists first.
pub(crate) fn comes_before(pair: (usize, usize), other: (usize, usize)) -> bool
    ensures { IsTrue result ↔ Before pair other }
{
    pair.0 < other.0 || (pair.0 == other.0 && pair.1 < other.1)
}

/// Whether a pair of places is one of these.
pub(crate) fn is_among(pairs: &[(usize, usize)], pair: (usize, usize)) -> bool
    ensures { result ≡ is_among pairs.now pair.0 pair.1 }
{
    pairs
        .iter()
        .any(|held| held.0 == pair.0 && held.1 == pair.1)
}
