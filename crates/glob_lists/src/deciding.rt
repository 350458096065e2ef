//! Which pattern of a stack of lists decides about a path: the last one that matches it.
ghost use Rattle.std.specs.Prelude.{◌≡◌, ◌↔◌, ◌+◌, ◌<◌, ◌≤◌, ℕ, IsTrue, MatchOption, Some, length, map, slice_get};
ghost use Rattle.gix_glob.specs.Entries.{Entry};
ghost use Rattle.gix_glob.specs.EntryLists.{entry_list_of};
ghost use Rattle.gix_glob.specs.Paths.{IsFolder};
ghost use Rattle.gix_glob.specs.Patterns.{is_negative};
ghost use Rattle.gix_glob.specs.Steps.{IsBlankOf, NeverFall};
ghost use Rattle.glob_lists.specs.Deciding.{AnswersAt, BasesAreFolders, Decides, HasFolder};
ghost use Rattle.glob_lists.specs.Rules.{by_crate};
ghost use Rattle.glob_lists.specs.DecisionLimits.{decision_look_limit, decision_step_limit, list_look_limit, list_step_limit};

pub(crate) mod among;
pub(crate) mod list_stack;
pub(crate) mod matching;

use crate::deciding::among::{AskedLists, decide_among};
use crate::deciding::list_stack::ListStack;
use crate::path::RepositoryPath;
use crate::rules::Rules;
use gix_glob::pattern::Case;
use gix_glob::search;
use gix_glob::search::pattern::List;
use gix_glob::wildmatch::Steps;
use std::marker::Brand;
use std::sync::ledger::{Blank, Ledger};

/// Which pattern decides about a path, in a stack of lists where a later one decides over an earlier one: the last mapping, of
/// the last list that has one, that matches what the base of its list leaves of the path. The answer is the place of the list
/// and the place of the mapping in it, both from 0, or `None` where no pattern matches.
///
/// Whether the path is then kept or left out, [`Pattern::is_negative`](gix_glob::Pattern::is_negative) of that pattern tells. The
/// lists have to meet [`bases_are_folders`]. No memory is taken. The rule is in `docs/PATTERNS.md`, "Which line decides".
pub fn decide<T: search::Pattern>(
    lists: &[List<T>],
    path: &RepositoryPath<'_>,
    case: Case,
) -> Option<(usize, usize)>
    requires folders { BasesAreFolders (map (entry_list_of T.seen) lists.now) }
    ensures { Decides (map (entry_list_of T.seen) lists.now) path.now.bytes path.now.is_dir (by_crate case) result }
{
    decide_by(lists, path, Rules::by_crate(case))
}

/// Which pattern decides about a path, as [`decide`] answers it, by these rules.
pub fn decide_by<T: search::Pattern>(
    lists: &[List<T>],
    path: &RepositoryPath<'_>,
    rules: Rules,
) -> Option<(usize, usize)>
    requires folders { BasesAreFolders (map (entry_list_of T.seen) lists.now) }
    ensures { Decides (map (entry_list_of T.seen) lists.now) path.now.bytes path.now.is_dir rules result }
{
    decide_with_new_counts::<T, Brand>(lists, path, rules, Blank::new(2))
}

/// Which pattern decides about a path, with new counts that no one asks for.
#[inline(always)]
fn decide_with_new_counts<T: search::Pattern, L: Ledger>(
    lists: &[List<T>],
    path: &RepositoryPath<'_>,
    rules: Rules,
    blank: Blank,
) -> Option<(usize, usize)>
    requires folders { BasesAreFolders (map (entry_list_of T.seen) lists.now) }
    requires blank { IsBlankOf L.name L.parts blank }
    ensures { Decides (map (entry_list_of T.seen) lists.now) path.now.bytes path.now.is_dir rules result }
{
    decide_with_counts(lists, path, rules, &mut Steps::<L>::new(blank))
}

/// Which pattern decides about a path, as [`decide`] answers it and under its condition, with its steps and looks counted.
///
/// With `v` the length of the path in bytes, and `p` that of a pattern's text, the count of steps rises by at most the sum of
/// `2 * (p + 1) * (v + 1) + 2 * v` over all patterns of all lists. That of looks rises by at most the sum of
/// `10 * (p + 1) * (v + 1)`, and for each list twice the length of its base, or of the path where that is shorter.
pub fn decide_with_counts<T: search::Pattern, L: Ledger>(
    lists: &[List<T>],
    path: &RepositoryPath<'_>,
    rules: Rules,
    counts: &mut Steps<L>,
) -> Option<(usize, usize)>
    requires folders { BasesAreFolders (map (entry_list_of T.seen) lists.now) }
    ensures exact { Decides (map (entry_list_of T.seen) lists.now) path.now.bytes path.now.is_dir rules result }
    ensures steps { counts.new.steps
        ≤ counts.old.steps + decision_step_limit (map (entry_list_of T.seen) lists.now) (length path.now.bytes) }
    ensures looks { counts.new.looks
        ≤ counts.old.looks + decision_look_limit (map (entry_list_of T.seen) lists.now) (length path.now.bytes) }
    ensures grows { NeverFall counts.old counts.new }
{
    decide_among(&Asked { lists, path, rules }, counts)
}

/// Lists, each pattern of which is tested, and what they are asked: which of their patterns match this path.
#[derive(Drop)]
pub(crate) struct Asked<'a, 'p, T: search::Pattern> {
    pub(crate) lists: &'a [List<T>],
    pub(crate) path: &'a RepositoryPath<'p>,
    pub(crate) rules: Rules,
}

impl<'a, 'p, T: search::Pattern> AskedLists for Asked<'a, 'p, T> {
    ghost Seen = { T.Seen };

    ghost lists = { λ asked. map (entry_list_of T.seen) asked.lists.now };

    ghost path = { λ asked. asked.path.now };

    ghost rules = { λ asked. asked.rules };

    ghost can_ask = { λ asked. BasesAreFolders (map (entry_list_of T.seen) asked.lists.now) };

    ghost more_looks = { λ _. 0 };

    #[inline(always)]
    fn count(&self) -> usize {
        self.lists.len()
    }

    #[inline(always)]
    fn last_match<L: Ledger>(&self, i: usize, counts: &mut Steps<L>) -> Option<usize> {
        last_match(&self.lists[i], self.path, self.rules, counts)
    }
}

impl<'a, T: search::Pattern> ListStack for &'a [List<T>] {
    ghost Seen = { T.Seen };

    ghost lists = { λ lists. map (entry_list_of T.seen) lists.now };

    ghost can_decide = { λ lists. BasesAreFolders (map (entry_list_of T.seen) lists.now) };

    ghost is_lawful = { λ _. Unit {0} };

    #[inline(always)]
    fn decide(&self, path: &RepositoryPath<'_>, rules: Rules) -> Option<(usize, usize)> {
        decide_by(*self, path, rules)
    }

    #[inline(always)]
    fn is_negative(&self, pair: (usize, usize)) -> bool {
        is_negative_in(&self[pair.0], pair.1)
    }
}

/// Whether the pattern of the mapping at a place of a list is negative.
#[inline(always)]
pub(crate) fn is_negative_in<T: search::Pattern>(list: &List<T>, place: usize) -> bool
    requires { place < length list.now.patterns.items }
    ensures { (entry : Entry T.Seen) → slice_get (entry_list_of T.seen list.now).entries place ≡ Some entry → result ≡ is_negative entry.mode }
{
    list.patterns[place].pattern.is_negative()
}

/// The place of the last mapping of a list that matches what the base of the list leaves of a path.
pub(crate) fn last_match<T: search::Pattern, L: Ledger>(
    list: &List<T>,
    path: &RepositoryPath<'_>,
    rules: Rules,
    counts: &mut Steps<L>,
) -> Option<usize>
    requires folder { HasFolder (entry_list_of T.seen list.now) }
    ensures last { MatchOption result
        ((m : ℕ) → ¬ AnswersAt (entry_list_of T.seen list.now) path.now.bytes path.now.is_dir rules m)
        (λ last. AnswersAt (entry_list_of T.seen list.now) path.now.bytes path.now.is_dir rules last
        × ((m : ℕ) → AnswersAt (entry_list_of T.seen list.now) path.now.bytes path.now.is_dir rules m → m ≤ last)) }
    ensures steps { counts.new.steps ≤ counts.old.steps + list_step_limit (entry_list_of T.seen list.now) (length path.now.bytes) }
    ensures looks { counts.new.looks ≤ counts.old.looks + list_look_limit (entry_list_of T.seen list.now) (length path.now.bytes) }
    ensures grows { NeverFall counts.old counts.new }
{
    let rest = path.under_with_counts(list, rules.case, counts)?;
    let mappings = list.patterns.as_slice();
    for m in (0..mappings.len()).rev() {
        if rest.is_matched_with_counts(mappings[m].pattern.view(), rules, counts) {
            return Some(m);
        }
    }
    None
}

/// Whether the base of each list is that of a folder: the list has none, or it is empty, or it ends in a slash.
///
/// It is so for each list that is loaded, as [`List::from_bytes`] and the calls above it do.
pub fn bases_are_folders<T: search::Pattern>(lists: &[List<T>]) -> bool
    ensures { IsTrue result ↔ BasesAreFolders (map (entry_list_of T.seen) lists.now) }
{
    for list in lists {
        if !has_folder(list) {
            return false;
        }
    }
    true
}

/// Whether the base of a list is that of a folder.
pub(crate) fn has_folder<T: search::Pattern>(list: &List<T>) -> bool
    ensures { IsTrue result ↔ HasFolder (entry_list_of T.seen list.now) }
{
    match &list.base {
        Some(base) => is_folder(base),
        None => true,
    }
}

/// Whether a base is empty or ends in a slash.
fn is_folder(base: &[u8]) -> bool
    ensures { IsTrue result ↔ IsFolder base.now }
{
    matches!(base, [] | [.., b'/'])
}
