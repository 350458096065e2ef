//! What a source is asked, with its fault as one of a tree.
ghost use Rattle.std.specs.Prelude.{◌≡◌, IfOk, option_map};
ghost use Rattle.std.specs.Vec.{vec_items};
ghost use Rattle.glob_trees.specs.Ways.{GivesOnly, base_of_folder};
ghost use Rattle.tree_commands.specs.FileTrees.{AreFoundIn, FileTree, StaysKnown};
ghost use Rattle.tree_commands.specs.Private.Listing.{seen_list};

use crate::files::source::{EntryKind, FileSource, FolderNames};
use gix_glob::search::pattern::List;
use glob_lines::GitIgnoreLines;
use glob_trees::TreeFault;

/// What is found in a folder.
pub(crate) fn names_in<S: FileSource>(
    source: &mut S,
    folder: &[u8],
) -> Result<FolderNames, TreeFault<S::Fault>>
    ensures found { IfOk result (λ found. (tree : FileTree) → S.shows source.old tree → AreFoundIn tree folder.now found) }
    ensures stays { StaysKnown S.shows source.old source.new }
    ensures asks { GivesOnly (λ given. given ≡ folder.now) (S.asked source.old) (S.asked source.new) }
{
    let found = source.names(folder).map_err(TreeFault::Source)?;
    Ok(found)
}

/// Whether `.git` lies in a folder.
pub(crate) fn has_git_in<S: FileSource>(
    source: &mut S,
    folder: &[u8],
) -> Result<bool, TreeFault<S::Fault>>
    ensures found { IfOk result (λ found. (tree : FileTree) → S.shows source.old tree → found ≡ tree.has_git folder.now) }
    ensures stays { StaysKnown S.shows source.old source.new }
    ensures asks { GivesOnly (λ _. ⊥) (S.asked source.old) (S.asked source.new) }
{
    let found = source.has_git(folder).map_err(TreeFault::Source)?;
    Ok(found)
}

/// What stands at a path.
pub(crate) fn kind_at<S: FileSource>(
    source: &mut S,
    path: &[u8],
) -> Result<Option<EntryKind>, TreeFault<S::Fault>>
    ensures found { IfOk result (λ found. (tree : FileTree) → S.shows source.old tree → found ≡ tree.kind path.now) }
    ensures stays { StaysKnown S.shows source.old source.new }
    ensures asks { GivesOnly (λ _. ⊥) (S.asked source.old) (S.asked source.new) }
{
    let found = source.kind(path).map_err(TreeFault::Source)?;
    Ok(found)
}

/// The list of a folder's own patterns.
pub(crate) fn list_of<S: FileSource>(
    source: &mut S,
    folder: &[u8],
) -> Result<List<GitIgnoreLines>, TreeFault<S::Fault>>
    ensures found { IfOk result (λ list. (tree : FileTree) → S.shows source.old tree → seen_list list ≡ tree.list folder.now) }
    ensures based { IfOk result (λ list. option_map vec_items list.base ≡ base_of_folder folder.now) }
    ensures stays { StaysKnown S.shows source.old source.new }
    ensures asks { GivesOnly (λ _. ⊥) (S.asked source.old) (S.asked source.new) }
{
    let list = source.list_of(folder).map_err(TreeFault::Source)?;
    Ok(list)
}
