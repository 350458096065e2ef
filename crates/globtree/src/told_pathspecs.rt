//! The pathspecs that `files` is told.

use crate::check_ignore::bytes_of;
use crate::fault::Result;
use crate::match_pathspec::fault_of;
use git_paths::Standpoint;
use pathspecs::{Element, PathspecList, Settings};
use std::alloc::{AllocError, Global};

/// The pathspecs that `files` is told, read.
#[derive(Drop)]
pub(crate) struct ToldPathspecs<'a> {
    /// The words, as they were told.
    pub(crate) words: &'a [&'a str],
    /// The elements that they are.
    pub(crate) list: PathspecList,
}

impl<'a> ToldPathspecs<'a> {
    /// Reads words.
    pub(crate) fn read(
        alloc: Global,
        standpoint: &Standpoint,
        settings: Settings,
        words: &'a [&'a str],
    ) -> Result<ToldPathspecs<'a>> {
        let bytes = bytes_of(alloc, words)?;
        match PathspecList::read(alloc, standpoint, settings, &bytes) {
            Ok(list) => Ok(ToldPathspecs { words, list }),
            Err(fault) => Err(fault_of(alloc, words, fault)),
        }
    }

    /// The word that the element at a place is. Where none is, the element is that of the current folder: behind excludes it is told as `.`,
    /// and without words by its text.
    pub(crate) fn word(
        &self,
        alloc: Global,
        place: usize,
        element: &Element,
    ) -> Result<String, AllocError> {
        match self.words.get(place) {
            Some(word) => String::from_str(alloc, word),
            None if self.words.is_empty() => String::from_utf8_lossy(alloc, element.text()),
            None => String::from_str(alloc, "."),
        }
    }

    /// Whether an element is of no word, and of the top: then nothing was asked for but all.
    pub(crate) fn is_of_all(&self, element: &Element) -> bool {
        self.words.is_empty() && element.text().is_empty()
    }
}
