//! A split index: what an index file says together with the shared file that it names.
ghost use Rattle.std.specs.Prelude.{◌≡◌, ◌==◌, ◌≤◌, IsTrue, count_by, length, map, not};
ghost use Rattle.std.specs.List.{list_all};
ghost use Rattle.git_index.specs.Entries.{tracked};
ghost use Rattle.git_index.specs.Private.Reading.{Gives, are_replacements, joined_at};

use crate::bitmaps::marks_of;
use crate::entry::Entry;
use crate::fault::IndexFault;
use crate::kept::kept;
use crate::merge::merged;
use std::alloc::Global;

/// How many marks are set.
fn marked(marks: &[bool]) -> usize
    ensures { result ≡ count_by (λ mark. mark) marks.now }
{
    marks.iter().filter(|mark| **mark).count()
}

/// Whether no entry has a path.
fn is_unnamed(entries: &[Entry]) -> bool
    ensures { result ≡ list_all (λ e. length e.path == 0) entries.now }
{
    entries.iter().all(|entry| entry.path.is_empty())
}

/// Whether each entry has a path.
fn is_named(entries: &[Entry]) -> bool
    ensures { result ≡ list_all (λ e. not (length e.path == 0)) entries.now }
{
    entries.iter().all(|entry| !entry.path.is_empty())
}

/// Whether the first entries, so many, have no path, and each of the others has one.
fn are_replacements(own: &[Entry], count: usize) -> bool
    ensures are { result ≡ are_replacements (map tracked own.now) count }
    ensures fit { IsTrue result → count ≤ length own.now }
{
    if own.len() < count {
        return false;
    }
    let (new, added) = own.split_at(count);
    is_unnamed(new) && is_named(added)
}

/// The entries of a shared file and an index's own ones, joined by the two bitmaps.
pub fn joined(
    alloc: Global,
    shared: Vec<Entry>,
    own: Vec<Entry>,
    bitmaps: &[u8],
) -> Result<Vec<Entry>, IndexFault>
    ensures { Gives (λ entries. map tracked entries.items) result (joined_at (map tracked shared.items) (map tracked own.items) bitmaps.now) }
{
    let places = shared.len();
    let (deleted, rest) = marks_of(alloc, places, bitmaps)?;
    let (replaced, behind) = marks_of(alloc, places, rest)?;
    if !behind.is_empty() {
        return Err(IndexFault::Link);
    }
    let count = marked(&replaced);
    if !are_replacements(&own, count) {
        return Err(IndexFault::Replacements);
    }
    let kept = kept(alloc, shared, &own[..count], &replaced, &deleted)?;
    let entries = merged(alloc, kept, own)?;
    Ok(entries)
}
