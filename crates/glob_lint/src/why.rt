//! Why a line makes no difference.
ghost use Rattle.std.specs.Prelude.{◌≡◌, ◌↔◌, ◌<◌, ℕ, Bool, IfOk, IfSome, IsTrue, List, length, slice_get, Some};
ghost use Rattle.gix_glob.specs.EntryLists.{EntryList};
ghost use Rattle.glob_lists.specs.Deciding.{BasesAreFolders, HasEntryAt};
ghost use Rattle.glob_lint.specs.declared.why.Why.TheVariants.{Covered, TakesNothingBack};
ghost use Rattle.glob_lint.specs.Effects.{Before, IsWhy};
ghost use Rattle.glob_lint.specs.Seen.{seen};
ghost use Rattle.glob_lint.specs.Private.Reasons.{AlikeAt, AlikeFrom, IsReason};

use crate::asked::AskedLists;
use crate::below::ignored_folder_of;
use crate::means::Means;
use crate::pairs::{are_apart_at, comes_before, covers_at, matches_nothing_at, samples_at};
use gix_glob::search::pattern::List;
use glob_lines::GitIgnoreLines;
use glob_lists::{ListStack, RepositoryPath, Rules};
use std::alloc::AllocError;

/// Why a line makes no difference. A pair has the places of a list and of a line in it, both from 0.
#[derive(Clone, Copy, Debug, PartialEq, Eq)]
pub enum Why {
    /// No path of a work tree matches it.
    MatchesNothing,
    /// This line matches all that it does.
    Covered((usize, usize)),
    /// A folder above all that it matches is ignored by this line.
    BelowIgnored((usize, usize)),
    /// It has `!` in front, and no line before it ignores anything that it matches.
    TakesNothingBack,
}

/// Why the line at a pair of places makes no difference; `None` where no reason is found.
///
/// A folder above that is ignored needs no other line to stay, so it is asked for before the lines that cover this one.
///
/// # Errors
/// Only where memory was refused.
pub(crate) fn reason_of(
    means: &mut Means,
    asked: &AskedLists<'_>,
    pair: (usize, usize),
) -> Result<Option<Why>, AllocError>
    requires folders { BasesAreFolders (seen asked.now.lists.now) }
    requires there { HasEntryAt (seen asked.now.lists.now) pair }
    ensures { IfOk result (λ why. IfSome why (IsReason asked.now.rules (seen asked.now.lists.now) pair)) }
{
    if matches_nothing_at(asked.lists, pair, asked.rules) {
        return Ok(Some(Why::MatchesNothing));
    }
    if let Some(by) = ignored_folder_of(means.alloc, asked, pair)? {
        return Ok(Some(Why::BelowIgnored(by)));
    }
    if let Some(by) = cover_of(means, asked, pair)? {
        return Ok(Some(Why::Covered(by)));
    }
    if takes_nothing_back(asked.lists, pair, asked.rules) {
        return Ok(Some(Why::TakesNothingBack));
    }
    Ok(None)
}

/// A line that matches all that the line at a pair of places does, so that this one makes no difference. Only lines that match a sample of
/// it are asked.
fn cover_of(
    means: &mut Means,
    asked: &AskedLists<'_>,
    pair: (usize, usize),
) -> Result<Option<(usize, usize)>, AllocError>
    requires { HasEntryAt (seen asked.now.lists.now) pair }
    ensures { IfOk result (λ by. IfSome by (λ by. IsReason asked.now.rules (seen asked.now.lists.now) pair (Covered by))) }
{
    let samples = samples_at(means.alloc, asked.lists, pair, asked.rules)?;
    let Some(sample) = samples.first() else {
        return Ok(None);
    };
    let Some(path) = RepositoryPath::new(&sample.path, sample.is_dir) else {
        return Ok(None);
    };
    asked.matches_into(&path, &mut means.found)?;
    Ok(best_cover(asked.lists, pair, &means.found, asked.rules))
}

/// Of some lines, in order, the one that serves best as such a reason; of several the first.
fn best_cover(
    lists: &[List<GitIgnoreLines>],
    pair: (usize, usize),
    candidates: &[(usize, usize)],
    rules: Rules,
) -> Option<(usize, usize)>
    requires here { HasEntryAt (seen lists.now) pair }
    requires there { (x : ℕ) (by : ℕ × ℕ) → slice_get candidates.now x ≡ Some by → HasEntryAt (seen lists.now) by }
    ensures { IfSome result (λ by. IsReason rules (seen lists.now) pair (Covered by)) }
{
    let mut best: Option<((usize, usize), usize)> = None;
    'candidates: for x in 0..candidates.len() {
        let by = candidates[x];
        let rank = rank_of(lists, pair, by);
        if is_below(rank, best) && is_covered(lists, pair, by, rules) {
            best = Some((by, rank));
        }
    }
    match best {
        Some((by, _rank)) => Some(by),
        None => None,
    }
}

/// How well a line serves as a reason, 0 the best: one of the other sign needs no line to stay, and one of the same list is told first.
fn rank_of(lists: &[List<GitIgnoreLines>], pair: (usize, usize), by: (usize, usize)) -> usize
    requires here { HasEntryAt (seen lists.now) pair }
    requires there { HasEntryAt (seen lists.now) by }
{
    if lists.is_negative(pair) != lists.is_negative(by) {
        0
    } else if pair.0 == by.0 {
        1
    } else {
        2
    }
}

/// Whether a rank is lower than the best one so far.
fn is_below(rank: usize, best: Option<((usize, usize), usize)>) -> bool {
    match best {
        Some((_by, lowest)) => rank < lowest,
        None => true,
    }
}

/// Whether a line makes no difference because the one at `by` matches all that it does: a later one, or an earlier one of its sign, where
/// each line of the other sign between is apart from it.
fn is_covered(
    lists: &[List<GitIgnoreLines>],
    pair: (usize, usize),
    by: (usize, usize),
    rules: Rules,
) -> bool
    requires here { HasEntryAt (seen lists.now) pair }
    requires there { HasEntryAt (seen lists.now) by }
    ensures { IsTrue result → IsReason rules (seen lists.now) pair (Covered by) }
{
    if pair.0 == by.0 && pair.1 == by.1 {
        return false;
    }
    if !covers_at(lists, pair, by, rules) {
        return false;
    }
    comes_before(pair, by) || comes_before(by, pair) && are_alike_from(lists, by, pair, rules)
}

/// Whether a line takes nothing back: it has `!` in front, and each line before it that has none is apart from it.
fn takes_nothing_back(lists: &[List<GitIgnoreLines>], pair: (usize, usize), rules: Rules) -> bool
    requires { HasEntryAt (seen lists.now) pair }
    ensures { IsTrue result → IsWhy rules (seen lists.now) pair TakesNothingBack }
{
    lists.is_negative(pair) && are_alike_from(lists, (0, 0), pair, rules)
}

/// Whether each line from the place `first` on up to the line at a pair of places has its sign or is apart from it.
fn are_alike_from(
    lists: &[List<GitIgnoreLines>],
    first: (usize, usize),
    pair: (usize, usize),
    rules: Rules,
) -> bool
    requires { HasEntryAt (seen lists.now) pair }
    ensures { IsTrue result → AlikeFrom rules (seen lists.now) first pair }
{
    'lists: for at in 0..lists.len() {
        if !are_alike_in(lists, at, first, pair, rules) {
            return false;
        }
    }
    true
}

/// Whether each such line of the list at a place is.
fn are_alike_in(
    lists: &[List<GitIgnoreLines>],
    at: usize,
    first: (usize, usize),
    pair: (usize, usize),
    rules: Rules,
) -> bool
    requires there { HasEntryAt (seen lists.now) pair }
    requires inside { at < length lists.now }
    ensures { IsTrue result → (m : ℕ) → HasEntryAt (seen lists.now) (at, m) → AlikeAt rules (seen lists.now) first pair (at, m) }
{
    let patterns = lists[at].patterns.as_slice();
    'lines: for place in 0..patterns.len() {
        if !is_alike(lists, (at, place), first, pair, rules) {
            return false;
        }
    }
    true
}

/// Whether a line comes before the place `first`, or doesn't come before the line at a pair of places, or has its sign or is apart from it.
fn is_alike(
    lists: &[List<GitIgnoreLines>],
    other: (usize, usize),
    first: (usize, usize),
    pair: (usize, usize),
    rules: Rules,
) -> bool
    requires here { HasEntryAt (seen lists.now) other }
    requires there { HasEntryAt (seen lists.now) pair }
    ensures { IsTrue result → AlikeAt rules (seen lists.now) first pair other }
{
    if comes_before(other, first) {
        return true;
    }
    if !comes_before(other, pair) {
        return true;
    }
    if lists.is_negative(other) == lists.is_negative(pair) {
        return true;
    }
    are_apart_at(lists, pair, other, rules)
}
