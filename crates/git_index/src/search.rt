//! The search for a path among entries in order.
ghost use Rattle.std.specs.Prelude.{◌≡◌, ◌↔◌, ◌++◌, ◌∷◌, ℕ, IfOk, IsTrue, map};
ghost use Rattle.std.specs.Cmp.Lexicographic.{slice_cmp};
ghost use Rattle.std.specs.Ordering.{nat_cmp};
ghost use Rattle.git_index.specs.Entries.{HasBelow, InOrder, IsSubmodule, IsTracked, starting_with, tracked};
ghost use Rattle.git_index.specs.Private.Search.{Continues, IsFirstFrom};

use crate::entry::{Entry, Kind};
use std::alloc::{AllocError, Global};
use std::cmp::Ordering;

/// How a path compares, by its bytes, with one that is told in two parts.
fn compare(path: &[u8], front: &[u8], end: &[u8]) -> Ordering
    ensures { result ≡ slice_cmp nat_cmp path.now (front.now ++ end.now) }
{
    if path.len() < front.len() {
        return path.cmp(&front);
    }
    let (head, tail) = path.split_at(front.len());
    head.cmp(&front).then(tail.cmp(&end))
}

/// The place of the first entry whose path isn't before the one that is told in two parts.
fn first_from(entries: &[Entry], front: &[u8], end: &[u8]) -> usize
    requires { InOrder (map tracked entries.now) }
    ensures { IsFirstFrom (map tracked entries.now) (front.now ++ end.now) result }
{
    let mut low = 0;
    let mut high = entries.len();
    while low < high {
        let middle = low + (high - low) / 2;
        if compare(&entries[middle].path, front, end).is_lt() {
            low = middle + 1;
        } else {
            high = middle;
        }
    }
    low
}

/// Whether a path goes on below a folder.
fn is_below(path: &[u8], folder: &[u8]) -> bool
    ensures { IsTrue result ↔ Continues path.now folder.now }
{
    let Some(rest) = path.strip_prefix(folder) else {
        return false;
    };
    rest.starts_with(b"/")
}

/// Whether an entry has this path.
pub fn is_tracked(entries: &[Entry], path: &[u8]) -> bool
    requires { InOrder (map tracked entries.now) }
    ensures { IsTrue result ↔ IsTracked (map tracked entries.now) path.now }
{
    let first = first_from(entries, path, b"");
    if first >= entries.len() {
        return false;
    }
    entries[first].path.as_slice() == path
}

/// Whether an entry's path goes on below this folder.
pub fn has_below(entries: &[Entry], folder: &[u8]) -> bool
    requires { InOrder (map tracked entries.now) }
    ensures { IsTrue result ↔ HasBelow (map tracked entries.now) folder.now }
{
    let first = first_from(entries, folder, b"/");
    if first >= entries.len() {
        return false;
    }
    is_below(&entries[first].path, folder)
}

/// Whether an entry with this path is a submodule. Those of one path, each at a stage of its own, stand beside each other.
pub fn is_submodule(entries: &[Entry], path: &[u8]) -> bool
    requires { InOrder (map tracked entries.now) }
    ensures { IsTrue result ↔ IsSubmodule (map tracked entries.now) path.now }
{
    let mut place = first_from(entries, path, b"");
    while place < entries.len() && entries[place].path.as_slice() == path {
        if matches!(entries[place].kind, Kind::Submodule) {
            return true;
        }
        place += 1;
    }
    false
}

/// Copies of the entries whose paths begin with these bytes, in their order.
pub fn starting_with(
    alloc: Global,
    entries: &[Entry],
    front: &[u8],
) -> Result<Vec<Entry>, AllocError>
    ensures { IfOk result (λ found. map tracked found.items ≡ starting_with front.now (map tracked entries.now)) }
{
    let mut found = Vec::new(alloc);
    'entries: for entry in entries {
        if entry.path.starts_with(front) {
            found.push(entry.clone()?)?;
        }
    }
    Ok(found)
}
