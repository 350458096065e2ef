//! Which pattern decides about the top of a work tree.
ghost use Rattle.std.specs.Prelude.{◌≡◌, ◌↔◌, ◌≤◌, [], ℕ, IsTrue, MatchOption, false, map};
ghost use Rattle.gix_glob.specs.EntryLists.{entry_list_of};
ghost use Rattle.gix_glob.specs.PatternParts.{mode_of, text_of};
ghost use Rattle.gix_glob.specs.Patterns.{looks_at_name};
ghost use Rattle.glob_lists.specs.Deciding.{AnswersFor};
ghost use Rattle.tree_commands.specs.Tops.{AnswersForTop, DecidesForTop};
ghost use Rattle.tree_commands.specs.Private.Tops.{IsOfAll};

use gix_glob::search::pattern::List;
use gix_glob::{Pattern, search};
use glob_lists::{PreparedList, RepositoryPath, Rules};

/// The places of the list and of the pattern in it, both from 0, of the last pattern that matches the top: one for names that matches no
/// bytes. One for folders alone doesn't, nor does one of a list with a base.
pub(crate) fn deciding_for_top<T: search::Pattern>(
    lists: &[PreparedList<T>],
    rules: Rules,
) -> Option<(usize, usize)>
    ensures { DecidesForTop (map (entry_list_of T.seen) lists.now) rules result }
{
    for place in (0..lists.len()).rev() {
        let list = lists[place].list();
        if let Some(last) = last_for_top(list, rules) {
            return Some((place, last));
        }
    }
    None
}

/// The place of the last pattern of a list that matches the top.
fn last_for_top<T: search::Pattern>(list: &List<T>, rules: Rules) -> Option<usize>
    ensures { MatchOption result
        ((m : ℕ) → ¬ AnswersForTop (entry_list_of T.seen list.now) rules m)
        (λ last. AnswersForTop (entry_list_of T.seen list.now) rules last
        × ((m : ℕ) → AnswersForTop (entry_list_of T.seen list.now) rules m → m ≤ last)) }
{
    if !is_of_all(list) {
        return None;
    }
    let mappings = list.patterns.as_slice();
    for m in (0..mappings.len()).rev() {
        if matches_top(&mappings[m].pattern, rules) {
            return Some(m);
        }
    }
    None
}

/// Whether the base of a list leaves all of each path.
fn is_of_all<T: search::Pattern>(list: &List<T>) -> bool
    ensures { IsTrue result ↔ IsOfAll (entry_list_of T.seen list.now).base }
{
    match &list.base {
        Some(base) => base.is_empty(),
        None => true,
    }
}

/// Whether a pattern matches the top.
fn matches_top(pattern: &Pattern, rules: Rules) -> bool
    ensures { IsTrue result ↔ IsTrue (looks_at_name (mode_of pattern.now)) × AnswersFor (text_of pattern.now) (mode_of pattern.now) [] false rules }
{
    if !pattern.mode().looks_at_name() {
        return false;
    }
    RepositoryPath::top().is_matched_by(pattern.view(), rules)
}
