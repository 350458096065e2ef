//! Lists that are read from files.
mod one_file;
mod opening;
pub(crate) mod real;

use gix_glob::search::pattern::List;
use gix_glob::search::{LoadFault, add_patterns_file};
use glob_lines::LabelLines;
use one_file::OneFile;
use std::alloc::{AllocError, Global};
use std::rt::Files;

/// The list of the file of this name, which has no root, and what is left in the buffer.
pub(crate) fn list_of<F: Files>(
    files: &OneFile<'_, F>,
    alloc: Global,
    name: &str,
) -> Result<(Result<Option<List<LabelLines>>, LoadFault>, Vec<u8>), AllocError> {
    let mut buf = Vec::from_slice(alloc, b"old")?;
    let source = String::from_str(alloc, name)?;
    let answer = List::from_file(files, alloc, source, None, &mut buf, LabelLines);
    Ok((answer, buf))
}

/// Adds the list of the file of this name behind others: the answer, and what is left in the buffer.
pub(crate) fn add_list<F: Files>(
    files: &OneFile<'_, F>,
    alloc: Global,
    lists: &mut Vec<List<LabelLines>>,
    name: &str,
) -> Result<(Result<bool, LoadFault>, Vec<u8>), AllocError> {
    let mut buf = Vec::from_slice(alloc, b"old")?;
    let source = String::from_str(alloc, name)?;
    let answer = add_patterns_file(files, alloc, lists, source, None, &mut buf, LabelLines);
    Ok((answer, buf))
}
