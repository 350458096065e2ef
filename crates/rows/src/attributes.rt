//! Rows of attributes: their names, and the lines that count where some are asked for.

use crate::answer::Answer;
use crate::row::Row;
use anyhow::{Result, bail};
use gix_glob::pattern::Case;
use gix_glob::search::Pattern as _;
use gix_glob::search::pattern::List;
use glob_attributes::{
    Assignment, AttributeLines, AttributeNames, MacroTable, is_name, keep_named,
};
use glob_lists::{RepositoryPath, Rules};
use std::alloc::{AllocError, Global};

/// Whether an attribute can have a name.
pub(crate) fn attribute_names(row: &Row, answer: &mut Answer) -> Result<()> {
    Ok(answer.tell(is_name(row.bytes(0)))?)
}

/// The names that a file adds to those that are built in, each behind a space.
pub(crate) fn names_read(row: &Row, answer: &mut Answer) -> Result<()> {
    let mut names = AttributeNames::new(answer.alloc)?;
    let known = names.as_slice().len();
    names.add_file(answer.alloc, row.bytes(1), row.is(0, b"top"))?;
    let mut text = Vec::new(answer.alloc);
    for name in names.as_slice().iter().skip(known) {
        text.push(b' ')?;
        text.extend_from_slice(name)?;
    }
    Ok(answer.push(text)?)
}

/// The lines of a file that are left where only some attributes are asked for: their numbers with a space between each two.
pub(crate) fn attributes_kept(row: &Row, answer: &mut Answer) -> Result<()> {
    let list = list_kept(answer.alloc, row.bytes(0), row.bytes(1))?;
    let mut text = String::new(answer.alloc);
    for mapping in &list.patterns {
        push_number(answer.alloc, &mut text, mapping.sequence_number)?;
    }
    Ok(answer.push(text.into_bytes())?)
}

/// Adds a number, behind a space where one stands before it.
pub(crate) fn push_number(
    alloc: Global,
    text: &mut String,
    number: usize,
) -> Result<(), AllocError> {
    if !text.is_empty() {
        text.push(' ')?;
    }
    text.push_str(format!(in alloc; "{number}")?.as_str())
}

/// The names of a field, with a space between each two.
fn names_in(alloc: Global, words: &[u8]) -> Result<Vec<&[u8]>, AllocError> {
    let mut names = Vec::new(alloc);
    for name in words.split(|byte| *byte == b' ') {
        if !name.is_empty() {
            names.push(name)?;
        }
    }
    Ok(names)
}

/// What is left of the list of a file where the attributes of these names are asked for, with a space between each two.
fn list_kept(alloc: Global, file: &[u8], names: &[u8]) -> Result<List<AttributeLines>, AllocError> {
    let macros = macros_of(alloc, file)?;
    let mut list = List::empty(alloc);
    list.patterns = AttributeLines::default().bytes_to_patterns(alloc, file, "")?;
    keep_named(&mut list, &names_in(alloc, names)?, &macros);
    Ok(list)
}

/// The macros of a file.
fn macros_of(alloc: Global, file: &[u8]) -> Result<MacroTable, AllocError> {
    let mut macros = MacroTable::new(alloc)?;
    macros.add_file(alloc, file)?;
    Ok(macros)
}

/// The names that the lines of a file assign which match a folder's path, which keeps its slash: each behind a space.
pub(crate) fn attribute_folders(row: &Row, answer: &mut Answer) -> Result<()> {
    let Some(path) = RepositoryPath::new(row.bytes(1), true) else {
        bail!("no path");
    };
    let text = names_for(answer.alloc, row.bytes(0), &path)?;
    Ok(answer.push(text)?)
}

/// The names that the lines of a file assign which match a path, each behind a space.
fn names_for(alloc: Global, file: &[u8], path: &RepositoryPath<'_>) -> Result<Vec<u8>, AllocError> {
    let mut text = Vec::new(alloc);
    for mapping in &AttributeLines::default().bytes_to_patterns(alloc, file, "")? {
        if path.is_matched_by(mapping.pattern.view(), Rules::by_crate(Case::Sensitive)) {
            push_names(&mut text, &mapping.value)?;
        }
    }
    Ok(text)
}

/// Adds the names that are assigned a state.
fn push_names(text: &mut Vec<u8>, assignments: &[Assignment<Vec<u8>>]) -> Result<(), AllocError> {
    for assignment in assignments {
        text.push(b' ')?;
        text.extend_from_slice(&assignment.name)?;
    }
    Ok(())
}
