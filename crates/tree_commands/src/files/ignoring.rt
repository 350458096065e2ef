//! Whether a path in a folder is ignored, by the lists of the folders on the way to it.
ghost use Rattle.std.specs.Prelude.{◌≡◌, ◌↔◌, IsTrue, MatchOption, None, map};
ghost use Rattle.gix_glob.specs.Entries.{Entry};
ghost use Rattle.gix_glob.specs.EntryLists.{entry_list_of};
ghost use Rattle.gix_glob.specs.PatternParts.{mode_of};
ghost use Rattle.gix_glob.specs.Patterns.{is_for_directories};
ghost use Rattle.glob_lists.specs.Deciding.{BasesAreFolders, Decides, HasEntryAt, IsEntryAt};
ghost use Rattle.glob_lists.specs.Paths.{IsPlainPath};
ghost use Rattle.glob_lists.specs.Rules.{by_git};
ghost use Rattle.tree_commands.specs.Ignoring.{IsIgnored};
ghost use Rattle.tree_commands.specs.Private.Ignoring.{HasDecidingPattern, IsSaid};

use bitflags::Flags as _;
use gix_glob::pattern::{Case, Mode};
use gix_glob::{Pattern, search};
use glob_lists::{PreparedList, RepositoryPath, Rules, decide_prepared};

/// Whether a path is ignored, as far as that can be said whatever stands there.
#[derive(Clone, Copy)]
pub(crate) enum Ignoring {
    /// It is ignored, whatever it is.
    Always,
    /// It isn't ignored, whatever it is.
    Never,
    /// That depends on whether it is a folder.
    ByKind,
}

/// Whether the base of each list is that of a folder.
pub(crate) fn are_of_folders<T: search::Pattern>(lists: &[PreparedList<T>]) -> bool
    ensures { IsTrue result ↔ BasesAreFolders (map (entry_list_of T.seen) lists.now) }
{
    for list in lists {
        if !list.has_folder() {
            return false;
        }
    }
    true
}

/// Whether lists ignore a path.
pub(crate) fn is_ignored_by<T: search::Pattern>(
    lists: &[PreparedList<T>],
    case: Case,
    path: &[u8],
    is_dir: bool,
) -> bool
    requires folders { BasesAreFolders (map (entry_list_of T.seen) lists.now) }
    requires plain { IsPlainPath path.now }
    ensures { IsTrue result ↔ IsIgnored (map (entry_list_of T.seen) lists.now) case path.now is_dir }
{
    let path = RepositoryPath::from_plain(path, is_dir);
    match deciding(lists, case, &path) {
        Some(pattern) => !pattern.is_negative(),
        None => false,
    }
}

/// Whether lists ignore a path, whatever stands there. A pattern that decides about a folder, and isn't for folders alone, decides about a
/// file, too.
pub(crate) fn ignoring_by<T: search::Pattern>(
    lists: &[PreparedList<T>],
    case: Case,
    path: &[u8],
) -> Ignoring
    requires folders { BasesAreFolders (map (entry_list_of T.seen) lists.now) }
    requires plain { IsPlainPath path.now }
    ensures { IsSaid (map (entry_list_of T.seen) lists.now) case path.now result }
{
    let folder = RepositoryPath::from_plain(path, true);
    let Some(pattern) = deciding(lists, case, &folder) else {
        return Ignoring::Never;
    };
    if is_for_folders(pattern) {
        return Ignoring::ByKind;
    }
    if pattern.is_negative() {
        return Ignoring::Never;
    }
    Ignoring::Always
}

/// Whether a pattern is for folders alone.
fn is_for_folders(pattern: &Pattern) -> bool
    ensures { result ≡ is_for_directories (mode_of pattern.now) }
{
    pattern.mode().contains(Mode::MUST_BE_DIR)
}

/// The pattern that decides about a path, as Git reads patterns.
fn deciding<'a, T: search::Pattern>(
    lists: &'a [PreparedList<T>],
    case: Case,
    path: &RepositoryPath<'_>,
) -> Option<&'a Pattern>
    requires { BasesAreFolders (map (entry_list_of T.seen) lists.now) }
    ensures { MatchOption result
        (Decides (map (entry_list_of T.seen) lists.entry.now) path.now.bytes path.now.is_dir (by_git case) None)
        (λ pattern. HasDecidingPattern (map (entry_list_of T.seen) lists.entry.now) case path.now.bytes path.now.is_dir pattern.now) }
{
    match decide_prepared(lists, path, Rules::by_git(case)) {
        Some(pair) => Some(pattern_at(lists, pair)),
        None => None,
    }
}

/// The pattern at a pair of places.
fn pattern_at<T: search::Pattern>(lists: &[PreparedList<T>], pair: (usize, usize)) -> &Pattern
    requires { HasEntryAt (map (entry_list_of T.seen) lists.now) pair }
    ensures { (entry : Entry T.Seen) → IsEntryAt (map (entry_list_of T.seen) lists.entry.now) pair entry → entry.mode ≡ mode_of result.now }
{
    &lists[pair.0].list().patterns[pair.1].pattern
}
