//! How paths are looked up in the index: with case, or without.
ghost use Rattle.std.specs.Prelude.{◌≡◌, ◌↔◌, IfOk, IsTrue};
ghost use Rattle.std.specs.Option.{unwrap_or};
ghost use Rattle.git_index.specs.Entries.{IsTracked, starting_with};
ghost use Rattle.gix_glob.specs.declared.pattern.Case.{Case};
ghost use Rattle.tree_commands.specs.Listings.{told_in};
ghost use Rattle.tree_commands.specs.Lookups.{HasEntry, HasEntryBelow, IsOfSubmodule};
ghost use Rattle.tree_commands.specs.Private.FoldedPaths.{AreFoldedBy};
ghost use Rattle.tree_commands.specs.Private.Listing.{looked};

use crate::files::lookup::Lookup;
use git_index::{FoldedPaths, Index};
use git_paths::folder_of;
use gix_glob::pattern::Case;
use std::alloc::{AllocError, Global};

/// The entries that count where a path is told; `None` where all of the index do.
pub(crate) fn counted_at(
    alloc: Global,
    index: &Index,
    path: &[u8],
    is_told_folder: bool,
) -> Result<Option<Index>, AllocError>
    ensures { IfOk result (λ part. unwrap_or part index.now ≡ starting_with (told_in path.now is_told_folder) index.now) }
{
    let folder = told_in(path, is_told_folder);
    if folder.is_empty() {
        return Ok(None);
    }
    Ok(Some(index.starting_with(alloc, folder)?))
}

/// The folder in which a path is told: itself, where it is told as a folder's.
fn told_in(path: &[u8], is_told_folder: bool) -> &[u8]
    ensures { result.now ≡ told_in path.entry.now is_told_folder }
{
    if is_told_folder {
        path
    } else {
        folder_of(path)
    }
}

/// A part of an index, or all of it where there is none.
pub(crate) fn part_or<'a>(part: &'a Option<Index>, index: &'a Index) -> &'a Index
    ensures { result.now ≡ unwrap_or part.entry.now index.entry.now }
{
    part.as_ref().unwrap_or(index)
}

/// The paths of an index without case, where case doesn't count.
pub(crate) fn folded_by(
    alloc: Global,
    case: Case,
    index: &Index,
) -> Result<Option<FoldedPaths>, AllocError>
    ensures { IfOk result (λ folded. AreFoldedBy case folded index.now) }
{
    match case {
        Case::Sensitive => Ok(None),
        Case::Fold => Ok(Some(FoldedPaths::new(alloc, index)?)),
    }
}

impl<'a> Lookup<'a> {
    /// An index, with its paths without case where case doesn't count.
    pub(crate) fn new(index: &'a Index, folded: &'a Option<FoldedPaths>) -> Lookup<'a>
        requires { (case : Case) × AreFoldedBy case folded.now index.now }
        ensures { (case : Case) → AreFoldedBy case folded.now index.now → looked result ≡ record { case = case; entries = index.now } }
    {
        Lookup {
            index,
            folded: folded.as_ref(),
        }
    }

    /// Whether an entry has this path.
    pub(crate) fn has_entry(&self, path: &[u8]) -> bool
        ensures { IsTrue result ↔ HasEntry (looked self.now) path.now }
    {
        match self.folded {
            Some(folded) => folded.is_tracked(path),
            None => self.index.is_tracked(path),
        }
    }

    /// Whether an entry lies below this folder.
    pub(crate) fn has_below(&self, folder: &[u8]) -> bool
        ensures { IsTrue result ↔ HasEntryBelow (looked self.now) folder.now }
    {
        match self.folded {
            Some(folded) => folded.has_below(folder),
            None => self.index.has_below(folder),
        }
    }

    /// Whether this folder is a submodule's.
    pub(crate) fn is_submodule(&self, folder: &[u8]) -> bool
        ensures { IsTrue result ↔ IsOfSubmodule (looked self.now) folder.now }
    {
        match self.folded {
            Some(folded) => folded.is_submodule(folder) && !folded.has_below(folder),
            None => self.index.is_submodule(folder),
        }
    }

    /// Whether an entry has the very path, with case.
    pub(crate) fn has_very_entry(&self, path: &[u8]) -> bool
        ensures { IsTrue result ↔ IsTracked (looked self.now).entries path.now }
    {
        self.index.is_tracked(path)
    }
}
