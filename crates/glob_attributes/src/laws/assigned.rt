//! Something is assigned to each path.
ghost use Rattle.std.specs.Prelude.{◌≡◌, ◌+◌, ◌<◌, [], ℕ, List, length, map};
ghost use Rattle.std.specs.Option.{option_map_or};
ghost use Rattle.std.specs.Vec.{vec_items};
ghost use Rattle.gix_glob.specs.EntryLists.{entry_list_of};
ghost use Rattle.glob_lists.specs.Deciding.{BasesAreFolders};
ghost use Rattle.glob_lists.specs.Private.Matching.{AreMatchesUpTo};
ghost use Rattle.glob_attributes.specs.Macros.{Definition};
ghost use Rattle.glob_attributes.specs.States.{Assigned, IsAssigned};
ghost use Rattle.glob_attributes.specs.Views.{seen_assignments};

use crate::parser::AttributeLines;
use gix_glob::search::pattern;
use glob_lists::{RepositoryPath, Rules};

/// Something is assigned to each path, whatever the macros are: with
/// [`attributes_have_one_state`](super::attributes_have_one_state) each attribute has one state for it. The lists have to meet
/// [`bases_are_folders`](glob_lists::bases_are_folders). The call goes over all patterns, and needs no memory.
pub fn paths_are_assigned_something(
    lists: &[pattern::List<AttributeLines>],
    path: &RepositoryPath<'_>,
    rules: Rules,
)
    requires folders { BasesAreFolders (map (entry_list_of seen_assignments) lists.now) }
    ensures { (macros : List Definition) →
        (filled : List Assigned) × IsAssigned (map (entry_list_of seen_assignments) lists.now) macros path.now rules filled }
{
    'lists: for place in 0..lists.len() {
        lists_have_matches(lists, place, path, rules);
    }
}

/// Where the pairs are there that match a path in the first lists, so many, they are there with those of one list more.
fn lists_have_matches(
    lists: &[pattern::List<AttributeLines>],
    place: usize,
    path: &RepositoryPath<'_>,
    rules: Rules,
)
    requires folders { BasesAreFolders (map (entry_list_of seen_assignments) lists.now) }
    requires inside { place < length lists.now }
    ensures { (found : List (ℕ × ℕ)) →
        AreMatchesUpTo (map (entry_list_of seen_assignments) lists.now) path.now.bytes path.now.is_dir rules place 0 found →
        (all : List (ℕ × ℕ)) × AreMatchesUpTo (map (entry_list_of seen_assignments) lists.now) path.now.bytes path.now.is_dir rules (place + 1) 0 all }
{
    let list = &lists[place];
    let Some(rest) = path.below(base_of(list), rules.case) else {
        return;
    };
    let mappings = list.patterns.as_slice();
    'mappings: for m in 0..mappings.len() {
        let _ = rest.is_matched_by(mappings[m].pattern.view(), rules);
    }
}

/// The base of a list, or no bytes where it has none.
fn base_of(list: &pattern::List<AttributeLines>) -> &[u8]
    ensures { result.now ≡ option_map_or vec_items list.now.base [] }
{
    match &list.base {
        Some(base) => base,
        None => &[],
    }
}
