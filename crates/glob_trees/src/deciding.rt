//! Which pattern decides about a path in a work tree: the one that ignores a folder above it, or its own.
ghost use Rattle.std.specs.Prelude.{◌≡◌, ℕ, IfSome, MatchOption, map, take, true};
ghost use Rattle.gix_glob.specs.Bytes.{HasByte, slash};
ghost use Rattle.gix_glob.specs.EntryLists.{entry_list_of};
ghost use Rattle.glob_lists.specs.Deciding.{BasesAreFolders, HasEntryAt};
ghost use Rattle.glob_lists.specs.Rules.{by_crate};
ghost use Rattle.glob_trees.specs.Trees.{DecidesInTree, HasNoneIgnored, Ignores, IsBelowIgnored};

use gix_glob::pattern::Case;
use gix_glob::search;
use gix_glob::search::pattern::List;
use glob_lists::{ListStack, RepositoryPath, Rules};

/// Which pattern decides about a path in a work tree, as Git says it. A folder above a path is what stands before one of its
/// slashes. The topmost folder above the path that is ignored decides about the path: by the pattern that decides about the
/// folder, as a directory, and isn't negative. Where no folder above is ignored, the path is decided about by itself, as
/// [`decide`](glob_lists::decide) does.
///
/// The answer is the place of the list and the place of the mapping in it, both from 0, or `None` where no pattern matches. The
/// lists have to meet [`bases_are_folders`](glob_lists::bases_are_folders). No memory is taken.
pub fn decide_in_tree<T: search::Pattern>(
    lists: &[List<T>],
    path: &RepositoryPath<'_>,
    case: Case,
) -> Option<(usize, usize)>
    requires folders { BasesAreFolders (map (entry_list_of T.seen) lists.now) }
    ensures { DecidesInTree (map (entry_list_of T.seen) lists.now) path.now.bytes path.now.is_dir (by_crate case) result }
{
    decide_in_tree_by(&lists, path, Rules::by_crate(case))
}

/// Which pattern decides about a path in a work tree, as [`decide_in_tree`] answers it, by whatever answers for lists, and by these rules.
pub fn decide_in_tree_by<L: ListStack>(
    lists: &L,
    path: &RepositoryPath<'_>,
    rules: Rules,
) -> Option<(usize, usize)>
    requires { L.can_decide lists.now }
    ensures inside { IfSome result (HasEntryAt (L.lists lists.now)) }
    ensures exact { L.is_lawful lists.now → DecidesInTree (L.lists lists.now) path.now.bytes path.now.is_dir rules result }
{
    match ignored_folder_by(lists, path, rules) {
        Some(folder) => Some(folder.pair),
        None => lists.decide(path, rules),
    }
}

/// The topmost ignored folder above a path.
#[derive(Clone, Copy, Debug, PartialEq, Eq)]
pub struct IgnoredFolder {
    /// How many bytes of the path name the folder; the slash behind it stands there.
    pub length: usize,
    /// The places of the list and of the mapping in it, both from 0, of the pattern that ignores it.
    pub pair: (usize, usize),
}

/// The topmost ignored folder above a path, by whatever answers for lists, and by these rules; `None` where no folder above it is ignored.
pub fn ignored_folder_by<L: ListStack>(
    lists: &L,
    path: &RepositoryPath<'_>,
    rules: Rules,
) -> Option<IgnoredFolder>
    requires { L.can_decide lists.now }
    ensures inside { IfSome result (λ folder. HasEntryAt (L.lists lists.now) folder.pair) }
    ensures exact { L.is_lawful lists.now → MatchOption result
        (HasNoneIgnored (L.lists lists.now) rules path.now.bytes)
        (λ folder. (ignored : IsBelowIgnored (L.lists lists.now) rules path.now.bytes folder.pair) × (ignored.folder ≡ take folder.length path.now.bytes) × HasByte path.now.bytes folder.length slash) }
{
    let bytes = path.bytes();
    for place in 0..bytes.len() {
        if bytes[place] != b'/' {
            continue;
        }
        if let Some(pair) = ignoring(lists, &path.folder_before(place), rules) {
            return Some(IgnoredFolder {
                length: place,
                pair,
            });
        }
    }
    None
}

/// The pattern that ignores a folder; `None` where no pattern decides about it, or a negative one.
pub(crate) fn ignoring<L: ListStack>(
    lists: &L,
    folder: &RepositoryPath<'_>,
    rules: Rules,
) -> Option<(usize, usize)>
    requires can { L.can_decide lists.now }
    requires dir { folder.now.is_dir ≡ true }
    ensures inside { IfSome result (HasEntryAt (L.lists lists.now)) }
    ensures exact { L.is_lawful lists.now → MatchOption result
        ((pair : ℕ × ℕ) → ¬ Ignores (L.lists lists.now) rules folder.now.bytes pair)
        (Ignores (L.lists lists.now) rules folder.now.bytes) }
{
    let Some(pair) = lists.decide(folder, rules) else {
        return None;
    };
    if lists.is_negative(pair) {
        return None;
    }
    Some(pair)
}
