//! Which files and words Git's configuration is read from, in order.
ghost use Rattle.std.specs.Prelude.{◌^◌, ◌<◌, IfOk};

use crate::bytes::copied;
use crate::faults::VariableFault;
use crate::normal_path::normal_path;
use crate::parameters::add_handed;
use crate::user_files::{below_home, settings_file};
use crate::variables::Variables;
use git_config::{Source, boolean, split_word};
use std::alloc::{AllocError, Global};

/// A source of configuration, as [`Source`] is one.
#[derive(Debug, Drop)]
pub enum ConfigSource {
    /// The file at a path. One that isn't there has no entries.
    File {
        /// The path.
        path: Vec<u8>,
        /// Whether it is a user's: Git passes over one that may not be read.
        is_users: bool,
    },
    /// A key of the command line or of the environment, as it is told, and its value.
    Word {
        /// The key.
        key: Vec<u8>,
        /// The value.
        value: Option<Vec<u8>>,
    },
}

/// The sources of a configuration, in order.
#[derive(Debug, Drop)]
pub struct ConfigSources {
    /// The sources, up to the fault if there is one.
    pub list: Vec<ConfigSource>,
    /// What is wrong behind them. Git tells it where nothing is wrong in the sources before.
    pub fault: Option<VariableFault>,
}

/// The sources that Git reads, in order: the system's file, the user's two, the repository's two, the pairs of the environment, the words
/// that another Git hands on, and those of the command line, each `KEY=VALUE` or `KEY`. `repository` is `config` of the common folder, and
/// `work_tree` is `config.worktree` of the git folder.
///
/// # Errors
/// Only where memory was refused.
pub fn config_sources(
    alloc: Global,
    variables: &Variables,
    repository: Option<&[u8]>,
    work_tree: Option<&[u8]>,
    words: &[&[u8]],
) -> Result<ConfigSources, AllocError> {
    let mut sources = ConfigSources::of_files(alloc, variables, repository, work_tree)?;
    sources.add_words(alloc, variables, words)?;
    Ok(sources)
}

/// The sources of a list as [`Config::read`](git_config::Config::read) takes them.
pub(crate) fn as_sources(
    alloc: Global,
    list: &[ConfigSource],
) -> Result<Vec<Source<'_>>, AllocError> {
    list.iter().map(|source| as_source(source)).collect(alloc)
}

/// A source as [`Config::read`](git_config::Config::read) takes it.
pub(crate) fn as_source(source: &ConfigSource) -> Source<'_> {
    match source {
        ConfigSource::File { path, .. } => Source::File(path),
        ConfigSource::Word { key, value } => Source::Word {
            key,
            value: value.as_deref(),
        },
    }
}

impl ConfigSources {
    /// The files alone, as [`config_sources`] tells them.
    pub(crate) fn of_files(
        alloc: Global,
        variables: &Variables,
        repository: Option<&[u8]>,
        work_tree: Option<&[u8]>,
    ) -> Result<ConfigSources, AllocError> {
        let mut list = Vec::new(alloc);
        let fault = add_system(alloc, variables, &mut list)?;
        if fault.is_some() {
            return Ok(ConfigSources { list, fault });
        }
        add_user_files(alloc, variables, &mut list)?;
        add_file(copied(alloc, repository)?, false, &mut list)?;
        add_file(copied(alloc, work_tree)?, false, &mut list)?;
        Ok(ConfigSources { list, fault: None })
    }

    /// Adds the words of the environment and of the command line, up to what is wrong.
    pub(crate) fn add_words(
        &mut self,
        alloc: Global,
        variables: &Variables,
        words: &[&[u8]],
    ) -> Result<(), AllocError> {
        if self.fault.is_some() {
            return Ok(());
        }
        self.fault = add_told(alloc, variables, &mut self.list)?;
        if self.fault.is_some() {
            return Ok(());
        }
        for word in words {
            let (key, value) = split_word(word);
            add_word(alloc, key, value, &mut self.list)?;
        }
        Ok(())
    }
}

/// Adds the system's file where it counts, and tells what is wrong with the variables that say so.
fn add_system(
    alloc: Global,
    variables: &Variables,
    list: &mut Vec<ConfigSource>,
) -> Result<Option<VariableFault>, AllocError> {
    if let Some(told) = &variables.no_system {
        match boolean(Some(told)) {
            Some(false) => {}
            Some(true) => return Ok(None),
            None => {
                let told = Vec::from_slice(alloc, told)?;
                return Ok(Some(VariableFault::NoBoolean("GIT_CONFIG_NOSYSTEM", told)));
            }
        }
    }
    let Some(told) = &variables.system else {
        return Ok(None);
    };
    let Some(path) = normal_path(alloc, told)? else {
        return Ok(Some(VariableFault::SystemPath(Vec::from_slice(alloc, told)?)));
    };
    add_file(Some(path), false, list)?;
    Ok(None)
}

/// Adds the user's files.
fn add_user_files(
    alloc: Global,
    variables: &Variables,
    list: &mut Vec<ConfigSource>,
) -> Result<(), AllocError> {
    if let Some(path) = &variables.global {
        return add_file(Some(Vec::from_slice(alloc, path)?), true, list);
    }
    let home = variables.home.as_deref();
    add_file(
        settings_file(alloc, variables.config_home.as_deref(), home, b"config")?,
        true,
        list,
    )?;
    add_file(below_home(alloc, home, b"/.gitconfig")?, true, list)
}

/// Adds the file at a path, if there is one.
fn add_file(
    path: Option<Vec<u8>>,
    is_users: bool,
    list: &mut Vec<ConfigSource>,
) -> Result<(), AllocError> {
    if let Some(path) = path {
        list.push(ConfigSource::File { path, is_users })?;
    }
    Ok(())
}

/// Adds the words of the environment, up to what is wrong, and tells this.
fn add_told(
    alloc: Global,
    variables: &Variables,
    list: &mut Vec<ConfigSource>,
) -> Result<Option<VariableFault>, AllocError> {
    let count = match pair_count(variables.count.as_deref()) {
        Ok(count) => count as usize,
        Err(wrong) => return Ok(Some(wrong)),
    };
    for number in 0..count {
        let Some(pair) = variables.pairs.get(number) else {
            return Ok(Some(VariableFault::NoKey(number)));
        };
        let Some(value) = &pair.value else {
            return Ok(Some(VariableFault::NoValue(number)));
        };
        add_word(alloc, &pair.key, Some(value), list)?;
    }
    match &variables.parameters {
        Some(text) => add_handed(alloc, text, list),
        None => Ok(None),
    }
}

/// Adds a word.
pub(crate) fn add_word(
    alloc: Global,
    key: &[u8],
    value: Option<&[u8]>,
    list: &mut Vec<ConfigSource>,
) -> Result<(), AllocError> {
    let key = Vec::from_slice(alloc, key)?;
    let value = copied(alloc, value)?;
    list.push(ConfigSource::Word { key, value })?;
    Ok(())
}

/// The number of pairs that `GIT_CONFIG_COUNT` tells: none where it isn't set.
///
/// # Errors
/// [`VariableFault::Count`] where it is no number, and [`VariableFault::TooMany`] where it is too large.
pub fn pair_count(count: Option<&[u8]>) -> Result<u64, VariableFault>
    ensures few { IfOk result (λ n. n < 2 ^ 31) }
{
    match number_of(count.unwrap_or(b"")) {
        None => Err(VariableFault::Count),
        Some(number) if number < 1 << 31 => Ok(number),
        Some(_) => Err(VariableFault::TooMany),
    }
}

/// The number that a text says, as C's `strtoul` reads it: none of bytes says 0.
fn number_of(text: &[u8]) -> Option<u64> {
    if text.is_empty() {
        return Some(0);
    }
    let start = text
        .iter()
        .position(|b| !(*b == b' ' || (9..=13).contains(b)))?;
    let (negative, digits) = match &text[start..] {
        [b'-', digits @ ..] => (true, digits),
        [b'+', digits @ ..] => (false, digits),
        digits => (false, digits),
    };
    if digits.is_empty() || !digits.iter().all(|b| b.is_ascii_digit()) {
        return None;
    }
    match str::from_utf8(digits).ok()?.parse::<u64>() {
        Ok(number) if negative => Some(number.wrapping_neg()),
        Ok(number) => Some(number),
        Err(_too_large) => Some(u64::MAX),
    }
}
