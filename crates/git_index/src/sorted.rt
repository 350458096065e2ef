//! Entries in the order of their paths without case, and the search for a path among them.
ghost use Rattle.std.specs.Prelude.{◌≡◌, ◌↔◌, ◌++◌, IfOk, IsTrue, List, Option, ℕ, None, map, option_map};
ghost use Rattle.std.specs.List.{last_or};
ghost use Rattle.git_index.specs.Entries.{InOrder, tracked};
ghost use Rattle.git_index.specs.Private.Search.{IsFirstFrom};
ghost use Rattle.git_index.specs.Folding.{AreAlike, HasBelowFolded, alike, folded};
ghost use Rattle.git_index.specs.Private.Folds.{LiesBelowFolded, bare};

use crate::entry::{Entry, Kind};
use crate::folding::{compare, compare_parts};
use std::alloc::{AllocError, Global};

/// Copies of entries, in the order of their paths without case. Those of one path stay in the order that they have.
pub fn sorted(alloc: Global, entries: &[Entry]) -> Result<Vec<Entry>, AllocError>
    ensures ordered { IfOk result (λ sorted. InOrder (map bare (map tracked sorted.items))) }
    ensures same { IfOk result (λ sorted. AreAlike (map tracked sorted.items) (map tracked entries.now)) }
{
    let mut sorted = Vec::with_capacity(alloc, entries.len())?;
    for entry in entries {
        sorted.push(entry.clone()?)?;
    }
    sorted.sort_by(|left, right| compare(&left.path, &right.path))?;
    Ok(sorted)
}

/// The place of the first entry whose path isn't before the one that is told in two parts.
fn first_from(sorted: &[Entry], front: &[u8], end: &[u8]) -> usize
    requires { InOrder (map bare (map tracked sorted.now)) }
    ensures { IsFirstFrom (map bare (map tracked sorted.now)) (folded (front.now ++ end.now)) result }
{
    let mut low = 0;
    let mut high = sorted.len();
    while low < high {
        let middle = low + (high - low) / 2;
        if compare_parts(&sorted[middle].path, front, end).is_lt() {
            low = middle + 1;
        } else {
            high = middle;
        }
    }
    low
}

/// What the last entry is that has this path.
pub fn last_kind(sorted: &[Entry], path: &[u8]) -> Option<Kind>
    requires { InOrder (map bare (map tracked sorted.now)) }
    ensures { result ≡ option_map (λ e. e.kind) (last_or None (alike (map tracked sorted.now) path.now)) }
{
    // no path stands between this one and the one that has a byte more, which is 0
    let behind = first_from(sorted, path, b"\0");
    if behind == 0 {
        return None;
    }
    let last = &sorted[behind - 1];
    if compare(&last.path, path).is_ne() {
        return None;
    }
    Some(last.kind)
}

/// Whether a path goes on below a folder.
fn is_below(path: &[u8], folder: &[u8]) -> bool
    ensures { IsTrue result ↔ LiesBelowFolded path.now folder.now }
{
    if path.len() <= folder.len() {
        return false;
    }
    path[folder.len()] == b'/' && compare(&path[..folder.len()], folder).is_eq()
}

/// Whether an entry's path goes on below this folder.
pub fn has_below(sorted: &[Entry], folder: &[u8]) -> bool
    requires { InOrder (map bare (map tracked sorted.now)) }
    ensures { IsTrue result ↔ HasBelowFolded (map tracked sorted.now) folder.now }
{
    let first = first_from(sorted, folder, b"/");
    if first >= sorted.len() {
        return false;
    }
    is_below(&sorted[first].path, folder)
}
