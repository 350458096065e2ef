//! Lists of bytes in memory.
use gix_glob::search::Pattern as _;
use gix_glob::search::pattern::List;
use glob_lines::LabelLines;
use std::alloc::{AllocError, Global};

/// The list of bytes, without a base.
pub(crate) fn list_of(alloc: Global, bytes: &[u8]) -> Result<List<LabelLines>, AllocError> {
    let mut list = List::empty(alloc);
    list.patterns = LabelLines.bytes_to_patterns(alloc, bytes, "")?;
    Ok(list)
}
