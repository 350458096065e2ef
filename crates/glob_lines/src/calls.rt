//! The calls of lists for a path that is given as its bytes.
ghost use Rattle.std.specs.Prelude.{◌+◌, ◌≤◌, length, map};
ghost use Rattle.gix_glob.specs.EntryLists.{entry_list_of};
ghost use Rattle.gix_glob.specs.Steps.{NeverFall};
ghost use Rattle.glob_lists.specs.Deciding.{BasesAreFolders, Decides};
ghost use Rattle.glob_lists.specs.DecisionLimits.{decision_look_limit, decision_step_limit};
ghost use Rattle.glob_lists.specs.Paths.{IsPlainPath};
ghost use Rattle.glob_lists.specs.Rules.{by_crate};

use gix_glob::pattern::Case;
use gix_glob::search;
use gix_glob::search::pattern::List;
use gix_glob::wildmatch::Steps;
use glob_lists::{RepositoryPath, Rules};
use std::sync::ledger::Ledger;

/// Which pattern decides about a path, in a stack of lists, as [`glob_lists::decide`] answers it.
///
/// The path has to be a [`plain_path`](crate::plain_path). A trailing slash, where there is one, is part of it: whether it is a
/// directory's, `is_dir` tells. The lists have to meet [`bases_are_folders`](crate::bases_are_folders). No memory is taken.
pub fn decide<T: search::Pattern>(
    lists: &[List<T>],
    path: &[u8],
    is_dir: bool,
    case: Case,
) -> Option<(usize, usize)>
    requires plain { IsPlainPath path.now }
    requires folders { BasesAreFolders (map (entry_list_of T.seen) lists.now) }
    ensures { Decides (map (entry_list_of T.seen) lists.now) path.now is_dir (by_crate case) result }
{
    glob_lists::decide(lists, &RepositoryPath::from_plain(path, is_dir), case)
}

/// Which pattern decides about a path, as [`decide`] answers it and under its conditions, with its steps and looks counted.
///
/// With `v` the length of the path in bytes, and `p` that of a pattern's text, the count of steps rises by at most the sum of
/// `2 * (p + 1) * (v + 1) + 2 * v` over all patterns of all lists. That of looks rises by at most the sum of
/// `10 * (p + 1) * (v + 1)`, and for each list twice the length of its base, or of the path where that is shorter, and `v` once, for
/// where the path's last part begins.
pub fn decide_with_counts<T: search::Pattern, L: Ledger>(
    lists: &[List<T>],
    path: &[u8],
    is_dir: bool,
    case: Case,
    counts: &mut Steps<L>,
) -> Option<(usize, usize)>
    requires plain { IsPlainPath path.now }
    requires folders { BasesAreFolders (map (entry_list_of T.seen) lists.now) }
    ensures exact { Decides (map (entry_list_of T.seen) lists.now) path.now is_dir (by_crate case) result }
    ensures steps { counts.new.steps
        ≤ counts.old.steps + decision_step_limit (map (entry_list_of T.seen) lists.now) (length path.now) }
    ensures looks { counts.new.looks
        ≤ counts.old.looks + (length path.now + decision_look_limit (map (entry_list_of T.seen) lists.now) (length path.now)) }
    ensures grows { NeverFall counts.old counts.new }
{
    counts.looks(path.len());
    glob_lists::decide_with_counts(
        lists,
        &RepositoryPath::from_plain(path, is_dir),
        Rules::by_crate(case),
        counts,
    )
}
