//! The base of a source: its folders below a root.
ghost use Rattle.std.specs.Prelude.{◌≡◌, ◌≢◌, List, ℕ, ◌++◌, OnOk, IfOk, MatchOption, option_map};
ghost use Rattle.std.specs.Vec.{vec_items};
ghost use Rattle.std.specs.Option.{option_copied};
ghost use Rattle.gix_glob.specs.Paths.{has_file_part, Base, parts, folder};
ghost use Rattle.gix_glob.specs.Private.Bases.{base_below};
ghost use Rattle.gix_glob.specs.Private.PartsLeft.{parts_left};

use super::parts::Parts;
use std::alloc::{AllocError, Global};

/// Whether the path text `source` can name a file: some part of it is not the leading slash.
///
/// The parts of a path are those of `docs/PATTERNS.md`, "Parts of a path".
pub fn has_file_part(source: &str) -> bool
    ensures { result ≡ has_file_part source.now }
{
    let mut parts = Parts::new(source.as_bytes());
    'parts: while let Some(part) = parts.next() {
        if part != b"/".as_slice() {
            return true;
        }
    }
    false
}

/// The base of `source` under `root`: the folders from the root to the file, each with a slash after it.
pub(crate) fn base_of(
    alloc: Global,
    source: &str,
    root: Option<&str>,
) -> Result<Option<Vec<u8>>, AllocError>
    ensures { IfOk result (λ base. Base source.now (option_copied root.entry) (option_map vec_items base)) }
{
    let Some(root) = root else {
        return Ok(None);
    };
    match parts_below(source.as_bytes(), root.as_bytes()) {
        Some(parts) => folders_of(alloc, parts),
        None => Ok(None),
    }
}

/// The parts of the source that follow those of the root; `None` where those are no front.
fn parts_below<'s>(source: &'s [u8], root: &[u8]) -> Option<Parts<'s>>
    ensures { MatchOption result
        ((below : List (List ℕ)) → parts source.entry.now ≢ parts root.now ++ below)
        (λ below. parts source.entry.now ≡ parts root.now ++ parts_left below) }
{
    let mut below = Parts::new(source);
    let mut roots = Parts::new(root);
    'roots: while let Some(root_part) = roots.next() {
        if below.next() != Some(root_part) {
            return None;
        }
    }
    Some(below)
}

/// The base by the parts below the root: the folders of all but the last, which is the file; `None` where there are none.
fn folders_of(alloc: Global, mut parts: Parts<'_>) -> Result<Option<Vec<u8>>, AllocError>
    ensures { IfOk result (λ base. option_map vec_items base ≡ base_below (parts_left parts.entry)) }
{
    let Some(first) = parts.next() else {
        return Ok(None);
    };
    let Some(mut part) = parts.next() else {
        return Ok(None);
    };
    let mut base = Vec::new(alloc);
    push_folder(&mut base, first)?;
    'folders: while let Some(next) = parts.next() {
        push_folder(&mut base, part)?;
        part = next;
    }
    Ok(Some(base))
}

/// Appends a part with a slash after it; the leading slash needs no other.
fn push_folder(base: &mut Vec<u8>, part: &[u8]) -> Result<(), AllocError>
    ensures { OnOk result (base.new.items ≡ base.old.items ++ folder part.now) }
{
    base.extend_from_slice(part)?;
    if part != b"/".as_slice() {
        base.push(b'/')?;
    }
    Ok(())
}
