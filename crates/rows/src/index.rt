//! Rows of Git's index: what a file says, and which paths it has.

use crate::answer::Answer;
use crate::row::Row;
use anyhow::Result;
use git_index::{Entry, FoldedPaths, Index, IndexFault, Kind, ObjectFormat};
use std::alloc::{AllocError, Global};

/// How objects are named, by the first field.
fn format_of(row: &Row) -> ObjectFormat {
    if row.is(0, b"sha256") {
        ObjectFormat::Sha256
    } else {
        ObjectFormat::Sha1
    }
}

/// The index of the first two fields.
fn index_of(alloc: Global, row: &Row) -> Result<Index, IndexFault> {
    Index::from_bytes(alloc, row.bytes(1), format_of(row))
}

/// What an index file says, or a split one and the file that it shares entries with: a line for each entry, or the fault.
pub(crate) fn index_files(row: &Row, answer: &mut Answer) -> Result<()> {
    match lines_in(answer.alloc, row) {
        Ok(lines) => Ok(answer.push(lines)?),
        Err(IndexFault::Memory) => Err(IndexFault::Memory.into()),
        Err(fault) => Ok(answer.show(&fault)?),
    }
}

/// The lines for the entries of an index file, or of a split one and the file that it shares entries with.
fn lines_in(alloc: Global, row: &Row) -> Result<Vec<u8>, IndexFault> {
    let index = match row.rest(2) {
        [Some(shared), _answer] => Index::from_split(alloc, row.bytes(1), shared, format_of(row))?,
        _ => index_of(alloc, row)?,
    };
    Ok(lines_of(alloc, index.entries())?)
}

/// A line for each entry: its mode, its stage, a sign for each of its bits, and its path.
fn lines_of(alloc: Global, entries: &[Entry]) -> Result<Vec<u8>, AllocError> {
    let mut text = Vec::new(alloc);
    for entry in entries {
        text.extend_from_slice(mode_of(entry.kind))?;
        text.extend_from_slice(&signs_of(entry))?;
        text.extend_from_slice(&entry.path)?;
        text.push(b'\n')?;
    }
    Ok(text)
}

/// The mode of a kind, and a space.
fn mode_of(kind: Kind) -> &'static [u8] {
    match kind {
        Kind::File => b"100644 ",
        Kind::Executable => b"100755 ",
        Kind::Link => b"120000 ",
        Kind::Submodule => b"160000 ",
    }
}

/// The stage of an entry and its bits, with a space behind each.
fn signs_of(entry: &Entry) -> [u8; 6] {
    [
        b'0'.wrapping_add(entry.stage),
        b' ',
        if entry.assume_valid { b'v' } else { b'.' },
        if entry.skip_worktree { b'S' } else { b'.' },
        if entry.intent_to_add { b'i' } else { b'.' },
        b' ',
    ]
}

/// Whether a path is tracked in an index file, and whether something below it is.
pub(crate) fn index_paths(row: &Row, answer: &mut Answer) -> Result<()> {
    let (is_tracked, has_below) = found_in(&index_of(answer.alloc, row)?, row.bytes(2));
    answer.tell(is_tracked)?;
    Ok(answer.tell(has_below)?)
}

/// Whether a path is tracked, and whether something below it is.
fn found_in(index: &Index, path: &[u8]) -> (bool, bool) {
    (index.is_tracked(path), index.has_below(path))
}

/// Whether an index file has a path, something below it, and a submodule as the last that has it, where case doesn't count. Of its
/// entries count those whose paths begin with a front.
pub(crate) fn folded_paths(row: &Row, answer: &mut Answer) -> Result<()> {
    let paths = paths_of(answer.alloc, row)?;
    let (is_tracked, has_below, is_submodule) = folded_in(&paths, row.bytes(3));
    answer.tell(is_tracked)?;
    answer.tell(has_below)?;
    Ok(answer.tell(is_submodule)?)
}

/// The paths of an index file without case, of those that begin with a front.
fn paths_of(alloc: Global, row: &Row) -> Result<FoldedPaths, IndexFault> {
    let index = index_of(alloc, row)?.starting_with(alloc, row.bytes(2))?;
    Ok(FoldedPaths::new(alloc, &index)?)
}

/// Whether a path is tracked, whether something below it is, and whether a submodule is the last that has it.
fn folded_in(paths: &FoldedPaths, path: &[u8]) -> (bool, bool, bool) {
    (
        paths.is_tracked(path),
        paths.has_below(path),
        paths.is_submodule(path),
    )
}
