//! The lists of folders: those on the way, and those that are kept.
ghost use Rattle.std.specs.Prelude.{◌≡◌, ◌<◌, ◌++◌, ◌∷◌, [], None, OnErr, OnOk, Some, length, option_to_list, slice_get, slice_set};
ghost use Rattle.glob_trees.specs.Private.Keeping.{IsIfAny, KeepsLast, PutsKept, TakesOut};

use crate::known::KnownFolders;
use crate::on_way::FolderOnWay;
use gix_glob::search;
use gix_glob::search::pattern::List;
use glob_lists::PreparedList;
use std::alloc::{AllocError, Global};

/// About how many bytes a pattern takes besides its text.
const PATTERN_BYTES: usize = 128;

/// A list, prepared; `None` where it has no patterns, and need not be kept.
pub(crate) fn prepared_if_any<T: search::Pattern>(
    alloc: Global,
    list: List<T>,
) -> Option<PreparedList<T>>
    ensures { IsIfAny list result }
{
    if list.patterns.is_empty() {
        return None;
    }
    Some(PreparedList::new(alloc, list))
}

/// About how many bytes are kept of a folder whose name has so many, and which has this list.
pub(crate) fn bytes_of<T: search::Pattern>(name: usize, list: &List<T>) -> usize {
    let mut bytes = name.saturating_add(KnownFolders::FOLDER_BYTES);
    for mapping in &list.patterns {
        let text = mapping.pattern.text().len();
        bytes = bytes.saturating_add(text.saturating_add(PATTERN_BYTES));
    }
    bytes
}

/// Puts a folder behind the others on the way, and its list where it has patterns.
///
/// # Errors
/// Only where memory was refused. The list is let go then.
pub(crate) fn put_on_way<T: search::Pattern>(
    way: &mut Vec<FolderOnWay>,
    lists: &mut Vec<PreparedList<T>>,
    there: FolderOnWay,
    list: Option<PreparedList<T>>,
) -> Result<(), AllocError>
    ensures way { OnOk result (way.new.items ≡ way.old.items ++ there ∷ []) }
    ensures lists { OnOk result (lists.new.items ≡ lists.old.items ++ option_to_list list) }
    ensures fails { OnErr result (lists.new.items ≡ lists.old.items) }
{
    way.push(there)?;
    if let Some(list) = list {
        lists.push(list)?;
    }
    Ok(())
}

/// Puts a known folder behind the others on the way, and the list that is kept of it, if any, behind the other lists. So many bytes of a
/// path name the folder.
///
/// # Errors
/// Only where memory was refused. The list is let go then.
pub(crate) fn put_known_on_way<T: search::Pattern>(
    way: &mut Vec<FolderOnWay>,
    lists: &mut Vec<PreparedList<T>>,
    kept: &mut Vec<Option<PreparedList<T>>>,
    place: usize,
    bytes: usize,
) -> Result<(), AllocError>
    requires { place < length kept.old.items }
    ensures puts { OnOk result (PutsKept place bytes way.old.items way.new.items lists.old.items lists.new.items kept.old.items kept.new.items) }
    ensures fails { OnErr result (lists.new.items ≡ lists.old.items) }
{
    // most folders have no list: then none is moved
    let has_list = kept[place].is_some();
    way.push(FolderOnWay {
        place,
        length: bytes,
        has_list,
    })?;
    if has_list {
        put_kept(lists, kept, place)?;
    }
    Ok(())
}

/// Puts the list that is kept by a place, if any, behind the others.
///
/// # Errors
/// Only where memory was refused. The list is let go then.
#[inline(never)]
fn put_kept<T: search::Pattern>(
    lists: &mut Vec<PreparedList<T>>,
    kept: &mut Vec<Option<PreparedList<T>>>,
    place: usize,
) -> Result<(), AllocError>
    requires { place < length kept.old.items }
    ensures puts { OnOk result (TakesOut place lists.old.items lists.new.items kept.old.items kept.new.items) }
    ensures fails { OnErr result (lists.new.items ≡ lists.old.items) }
{
    if let Some(taken) = take_out(kept, place) {
        lists.push(taken)?;
    }
    Ok(())
}

/// Takes out what is kept by a place.
fn take_out<T: search::Pattern>(
    kept: &mut Vec<Option<PreparedList<T>>>,
    place: usize,
) -> Option<PreparedList<T>>
    requires { place < length kept.old.items }
    ensures there { slice_get kept.old.items place ≡ Some result }
    ensures kept { kept.new.items ≡ slice_set kept.old.items place None }
{
    match kept.get_mut(place) {
        Some(kept) => kept.take(),
        None => None,
    }
}

/// Keeps the last list on the way by a place.
pub(crate) fn keep_last<T: search::Pattern>(
    lists: &mut Vec<PreparedList<T>>,
    kept: &mut Vec<Option<PreparedList<T>>>,
    place: usize,
)
    requires place { place < length kept.old.items }
    requires some { 0 < length lists.old.items }
    ensures { KeepsLast place lists.old.items lists.new.items kept.old.items kept.new.items }
{
    if let Some(list) = lists.pop()
        && let Some(kept) = kept.get_mut(place)
    {
        *kept = Some(list);
    }
}
