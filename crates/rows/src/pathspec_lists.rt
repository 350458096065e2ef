//! Rows of lists of pathspecs.

use crate::answer::Answer;
use crate::row::Row;
use anyhow::Result;
use git_paths::Standpoint;
use pathspecs::{PathspecList, ReadFault, Settings};
use std::alloc::{AllocError, Global};

/// Which of some paths words are about, from a folder and with settings; nothing where a word is a fault.
pub(crate) fn pathspec_lists(row: &Row, answer: &mut Answer) -> Result<()> {
    let alloc = answer.alloc;
    let standpoint = Standpoint {
        top: Vec::from_slice(alloc, b"top")?,
        here: Vec::from_slice(alloc, row.bytes(0))?,
        is_inside: true,
    };
    let words = parts_of(alloc, row.option(2))?;
    match PathspecList::read(alloc, &standpoint, settings_of(row.bytes(1)), &words) {
        Ok(list) => Ok(answer.push(listed(alloc, &list, row.option(3))?)?),
        Err(ReadFault::Word { .. }) => Ok(answer.skip()?),
        Err(ReadFault::Memory) => Err(AllocError)?,
    }
}

/// The parts of a text between bars, where there is one.
fn parts_of(alloc: Global, text: Option<&[u8]>) -> Result<Vec<&[u8]>, AllocError> {
    let mut parts = Vec::new(alloc);
    if let Some(text) = text {
        for part in text.split(|byte| *byte == b'|') {
            parts.push(part)?;
        }
    }
    Ok(parts)
}

/// The settings of names with a sign of plus between them.
fn settings_of(names: &[u8]) -> Settings {
    Settings {
        literal: has(names, b"literal"),
        glob: has(names, b"glob"),
        noglob: has(names, b"noglob"),
        icase: has(names, b"icase"),
    }
}

/// Whether a name is among names.
fn has(names: &[u8], name: &[u8]) -> bool {
    names.split(|byte| *byte == b'+').any(|one| one == name)
}

/// Those of the paths that a list is about, with bars between them: it may match a path in each folder above one, and matches it.
fn listed(alloc: Global, list: &PathspecList, paths: Option<&[u8]>) -> Result<Vec<u8>, AllocError> {
    let mut text = Vec::new(alloc);
    for path in parts_of(alloc, paths)? {
        if is_led_to(list, path) && list.matches(path) {
            if !text.is_empty() {
                text.push(b'|')?;
            }
            text.extend_from_slice(path)?;
        }
    }
    Ok(text)
}

/// Whether a list may match a path in each folder above a path.
fn is_led_to(list: &PathspecList, path: &[u8]) -> bool {
    // a slash at the end has nothing below it
    for place in 0..path.len().saturating_sub(1) {
        if path[place] == b'/' && !list.may_match_in(&path[..place + 1]) {
            return false;
        }
    }
    true
}
