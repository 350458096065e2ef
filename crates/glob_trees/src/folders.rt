//! Where the lists of a tree's folders come from.
ghost use Rattle.std.specs.Prelude.{◌≡◌, IfOk, option_map};
ghost use Rattle.std.specs.Vec.{vec_items};
ghost use Rattle.glob_trees.specs.Ways.{base_of_folder};

use gix_glob::search;
use gix_glob::search::pattern::List;
use std::alloc::{AllocError, Global};

/// A source of the list of each folder of a work tree: the patterns of the folder's own ignore file, where there is one.
///
/// A folder is named by its path from the top, without a slash at its end; the top itself is named by no bytes. The base of the
/// list is the folder's path and a slash, and none for the top, as [`list_in_folder`] gives it. A folder without an ignore file
/// has a list of no patterns.
pub trait FolderLists<T: search::Pattern> {
    ghost use Rattle.std.specs.Prelude.{◌≡◌, IfOk, OnErr, OnOk, option_map};
    ghost use Rattle.std.specs.Vec.{vec_items};
    ghost use Rattle.gix_glob.specs.EntryLists.{EntryList, entry_list_of};
    ghost use Rattle.glob_trees.specs.Ways.{Folder, GivesOnly, GoesOn, base_of_folder};

    /// Why a list could not be had.
    type Fault: Drop;

    // Which lists the source may answer for a folder, whatever is seen of their values. Of files nothing is known, so a source of
    // files allows each list.
    ghost shows: { (V : Type 0) → Self → Folder → EntryList V → Type 0 };

    // Whether the source gave the list of a folder since it was told to forget last. One that keeps no account of it may say so of
    // none: `λ _ _. ⊥`.
    ghost gave: { Self → Folder → Type 0 };

    /// The list of a folder. It is asked for once, and again only where that failed, or after [`FolderLists::forget`].
    ///
    /// # Errors
    /// Where the list could not be had. A later call may have it.
    fn list_of(&mut self, folder: &[u8]) -> Result<List<T>, Self::Fault>
        requires once { ¬ gave self.old folder.now }
        ensures shown { IfOk result (λ list. shows T.Seen self.new folder.now (entry_list_of T.seen list)) }
        ensures based { IfOk result (λ list. option_map vec_items list.base ≡ base_of_folder folder.now) }
        ensures goes_on { GoesOn (shows T.Seen) self.old self.new }
        ensures gives { OnOk result (GivesOnly (λ given. given ≡ folder.now) (gave self.old) (gave self.new)) }
        ensures fails { OnErr result (GivesOnly (λ _. ⊥) (gave self.old) (gave self.new)) };

    /// Hears that nothing is kept any more of what the source gave: from now on each folder may be asked for again. A source that
    /// keeps no account does nothing.
    fn forget(&mut self)
        ensures goes_on { GoesOn (shows T.Seen) self.old self.new }
        ensures none { (folder : Folder) → ¬ gave self.new folder };
}

/// The list with the base of a folder: the folder's path and a slash, and none for the top, which is named by no bytes.
///
/// # Errors
/// Only where memory was refused.
pub fn list_in_folder<T: search::Pattern>(
    alloc: Global,
    mut list: List<T>,
    folder: &[u8],
) -> Result<List<T>, AllocError>
    ensures patterns { IfOk result (λ placed. placed.patterns.items ≡ list.patterns.items) }
    ensures source { IfOk result (λ placed. placed.source ≡ list.source) }
    ensures based { IfOk result (λ placed. option_map vec_items placed.base ≡ base_of_folder folder.now) }
{
    if folder.is_empty() {
        list.base = None;
        return Ok(list);
    }
    let mut base = Vec::with_capacity(alloc, folder.len() + 1)?;
    base.extend_from_slice(folder)?;
    base.push(b'/')?;
    list.base = Some(base);
    Ok(list)
}
