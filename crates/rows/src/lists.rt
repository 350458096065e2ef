//! Rows of lists: their bases, what these leave of paths, and what the engines write for the lines of paths.

use crate::answer::{Answer, room};
use crate::row::{Field, Row};
use anyhow::{Result, bail};
use gix_glob::search::pattern::{List, strip_base_handle_recompute_basename_pos as strip};
use gix_glob::search::{Pattern as _, Watched, has_file_part};
use glob_lines::{IgnoreLines, PlainLines, bases_are_folders, run_ignore, run_list};
use std::alloc::{AllocError, Global};

/// Whether a path text has a file part.
pub(crate) fn file_parts(row: &Row, answer: &mut Answer) -> Result<()> {
    Ok(answer.tell(has_file_part(row.text(0).unwrap_or("")))?)
}

/// The base of the list of a source under a root.
pub(crate) fn bases(row: &Row, answer: &mut Answer) -> Result<()> {
    let source = row.text(0).unwrap_or("");
    if !has_file_part(source) {
        bail!("a source without a file part");
    }
    let named = String::from_str(answer.alloc, source)?;
    let list = List::from_bytes(answer.alloc, b"*.rs", named, row.text(1), PlainLines)?;
    Ok(answer.copy_some(list.base.as_deref())?)
}

/// What a base leaves of a path. Only what meets the condition can be called: where the path begins with the base, the place is not
/// before its end.
pub(crate) fn stripping(row: &Row, answer: &mut Answer) -> Result<()> {
    let (base, path, place) = (row.bytes(1), row.bytes(2), row.number(3));
    let left = match place {
        Some(at) if at < base.len() => None,
        _ => strip(base, path, place, row.case()),
    };
    let (rest, place) = left.unzip();
    answer.copy_some(rest)?;
    Ok(answer.number(place.flatten())?)
}

/// The list of an ignore file's bytes, under a base or none.
fn list_of(alloc: Global, base: &Field, bytes: &[u8]) -> Result<List<IgnoreLines>, AllocError> {
    let mut list = List::empty(alloc);
    list.patterns = IgnoreLines.bytes_to_patterns(alloc, bytes, "")?;
    if let Some(base) = base {
        list.base = Some(Vec::from_slice(alloc, base)?);
    }
    Ok(list)
}

/// Whether bases are those of folders.
pub(crate) fn folders(row: &Row, answer: &mut Answer) -> Result<()> {
    let are_folders = bases_are_folders(&lists_below(answer.alloc, row)?);
    Ok(answer.tell(are_folders)?)
}

/// A list without patterns for each base.
fn lists_below(alloc: Global, row: &Row) -> Result<Vec<List<IgnoreLines>>, AllocError> {
    let mut lists = Vec::new(alloc);
    // (behind the bases stands the answer)
    for base in row.rest(0).iter().take(row.len().saturating_sub(1)) {
        lists.push(list_of(alloc, base, b"")?)?;
    }
    Ok(lists)
}

/// The lists of the fields from a place on, two for each: a base or none, and the bytes of the file.
fn lists_of(alloc: Global, files: &[Field]) -> Result<Vec<List<IgnoreLines>>, AllocError> {
    let mut lists = Vec::new(alloc);
    for file in files.chunks_exact(2) {
        if let [base, Some(bytes)] = file {
            lists.push(list_of(alloc, base, bytes)?)?;
        }
    }
    Ok(lists)
}

/// Which line of which ignore file decides about each path.
pub(crate) fn decided(row: &Row, answer: &mut Answer) -> Result<()> {
    let alloc = answer.alloc;
    let lists = lists_of(alloc, row.rest(2))?;
    if !bases_are_folders(&lists) {
        bail!("bases that aren't folders");
    }
    let (mut paths, mut writer) = (Watched::new(row.bytes(1)), Watched::new(room(alloc)?));
    run_ignore(alloc, &lists, row.case(), &mut paths, &mut writer)?;
    Ok(answer.push(writer.into_inner())?)
}

/// Which lines of patterns match each path.
pub(crate) fn listed(row: &Row, answer: &mut Answer) -> Result<()> {
    let source = row.text(1).unwrap_or("");
    if !has_file_part(source) {
        bail!("a source without a file part");
    }
    let (mut patterns, mut paths) = (Watched::new(row.bytes(3)), Watched::new(row.bytes(4)));
    let mut writer = Watched::new(room(answer.alloc)?);
    run_list(
        answer.alloc,
        &mut patterns,
        source,
        row.text(2),
        row.case(),
        &mut paths,
        &mut writer,
    )?;
    Ok(answer.push(writer.into_inner())?)
}
