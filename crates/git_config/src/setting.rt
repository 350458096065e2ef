//! An entry of a configuration of several files, and what is wrong in one.

use crate::fault::Wrong;
use crate::item::Entry;
use thiserror::Error;

/// An entry, with the file that it stands in. `B` holds bytes.
#[derive(Debug, Clone, Copy, PartialEq, Eq, Drop)]
pub struct Setting<B> {
    /// The path of the file, as it was told or included; `None` where the entry is a word.
    pub file: Option<B>,
    /// What the keys of the section begin with, as [`Item::Section`](crate::Item::Section) has it; nothing before the first section, and of a
    /// word.
    pub section: B,
    /// The entry. The name of a word is its whole key, and its line the place of the word among the sources, from 1.
    pub entry: Entry<B>,
}

/// An entry of a [`Config`](crate::Config).
pub type ReadSetting<'a> = Setting<&'a [u8]>;

/// What is wrong with a line or a word.
#[derive(Debug, Clone, Copy, PartialEq, Eq, Error)]
pub enum WrongSetting {
    /// The line can't be read.
    #[error("{0}")]
    Text(Wrong),
    /// A word names no key.
    #[error("no key")]
    Key,
    /// An include has no value.
    #[error("an include without a path")]
    NoPath,
    /// An included path begins with a folder that isn't known.
    #[error("an included path in an unknown folder")]
    NoFolder,
    /// A word includes a path that isn't absolute.
    #[error("a word includes a relative path")]
    Relative,
    /// A file would be included more than ten files deep.
    #[error("files are included too deep")]
    TooDeep,
}

/// The first fault of a configuration. `S` and `B` hold bytes.
#[derive(Debug, PartialEq, Eq, Drop)]
pub struct SettingFault<S, B> {
    /// The path of the file; `None` where a word is wrong.
    pub file: Option<S>,
    /// The line that Git tells, from 1, or the place of the word among the sources, from 1.
    pub line: usize,
    /// What is wrong.
    pub what: WrongSetting,
    /// The path of the file that is included too deep; else `None`.
    pub path: Option<B>,
}
