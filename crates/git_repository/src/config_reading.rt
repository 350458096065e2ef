//! The reading of a configuration's files and words, whose conditions may ask for the repository, its branch and the URLs of remotes.

use crate::core_values::{key_of, short_key};
use crate::faults::OpenFault;
use crate::file_system::FileSystem;
use crate::setup::Setup;
use crate::sources::{ConfigSource, ConfigSources, as_source, as_sources};
use crate::value_faults::bytes_of;
use git_config::{
    Config, ConfigFiles, ConfigPath, ReadFault, ReadSetting, Surroundings, config_path,
};
use std::alloc::{AllocError, Global};
use std::mem;

impl<'a, S: FileSystem + ConfigFiles> Setup<'a, S> {
    /// The entries of what is listed. A reference is `uncertain` where `HEAD` names it and Git may refuse it or follow it to another: then no
    /// condition may ask for the branch. The URLs of remotes may stand in any file, so they are looked for where a condition asks for them.
    pub(crate) fn read(
        &self,
        around: &mut Surroundings,
        uncertain: Option<&[u8]>,
        listed: ConfigSources,
    ) -> Result<Config, OpenFault<S::Fault>> {
        let alloc = self.finder.alloc;
        let ConfigSources { list, fault } = listed;
        around.urls = Some(Vec::new(alloc));
        let first = self.read_list(around, &list)?;
        if let Some(fault) = fault {
            return Err(OpenFault::Variable(fault));
        }
        if let Some(reference) = uncertain {
            if asks(alloc, &first, b"includeif.onbranch:")? {
                return Err(OpenFault::Branch(Vec::from_slice(alloc, reference)?));
            }
        }
        if !asks(alloc, &first, b"includeif.hasconfig:remote.*.url:")? {
            return Ok(first);
        }
        around.urls = None;
        let looked = self.read_list(around, &list)?;
        let free = self.read_free(around, &list)?;
        let urls = urls_of(alloc, &free)?;
        if urls_of(alloc, &looked)?.len() != urls.len() {
            return Err(OpenFault::RemoteUrl);
        }
        around.urls = Some(urls);
        Ok(self.read_list(around, &list)?)
    }

    /// The entries of sources, where no condition holds.
    fn read_free(
        &self,
        around: &mut Surroundings,
        list: &[ConfigSource],
    ) -> Result<Config, OpenFault<S::Fault>> {
        let alloc = self.finder.alloc;
        let folders = mem::replace(&mut around.git_folders, Vec::new(alloc));
        let branch = around.branch.take();
        around.urls = Some(Vec::new(alloc));
        let read = self.read_list(around, list);
        around.git_folders = folders;
        around.branch = branch;
        Ok(read?)
    }

    /// The entries of sources. The users are looked up where the folder of one may count: where one is named, or the reading ended before
    /// all was read.
    fn read_list(
        &self,
        around: &mut Surroundings,
        list: &[ConfigSource],
    ) -> Result<Config, ReadFault<S::Fault>> {
        let read = self.read_open(around, list);
        if !around.users.is_empty() || !may_name_user(&read) {
            return read;
        }
        around.users = self.finder.source.users()?;
        if around.users.is_empty() {
            return read;
        }
        self.read_open(around, list)
    }

    /// The entries of sources, without a user's file that may not be read: Git passes over it.
    fn read_open(
        &self,
        around: &Surroundings,
        list: &[ConfigSource],
    ) -> Result<Config, ReadFault<S::Fault>> {
        let (alloc, source) = (self.finder.alloc, self.finder.source);
        let read = Config::read(alloc, source, around, &as_sources(alloc, list)?);
        if !matches!(read, Err(ReadFault::File(_))) {
            return read;
        }
        let mut open = Vec::new(alloc);
        for told in list {
            if !self.is_shut(told)? {
                open.push(as_source(told))?;
            }
        }
        if open.len() == list.len() {
            return read;
        }
        Config::read(alloc, source, around, &open)
    }

    /// Whether a source is a user's file that may not be read.
    fn is_shut(&self, told: &ConfigSource) -> Result<bool, AllocError> {
        match told {
            ConfigSource::File { path, is_users } if *is_users => self.finder.source.is_shut(path),
            _ => Ok(false),
        }
    }
}

/// Whether the home folder of a user may count for what was read.
fn may_name_user<F>(read: &Result<Config, ReadFault<F>>) -> bool {
    match read {
        Ok(config) => has_user(config),
        Err(ReadFault::Memory) => false,
        Err(_fault) => true,
    }
}

/// Whether an entry may name a user.
fn has_user(config: &Config) -> bool {
    for place in 0..config.len() {
        if names_user(&config.at(place)) {
            return true;
        }
    }
    false
}

/// Whether the value of an entry, or a condition that its key may have, begins with the folder of a user. The key of a word has no section.
fn names_user(setting: &ReadSetting<'_>) -> bool {
    is_users(told_in(setting.section))
        || is_users(told_in(setting.entry.name))
        || is_users(bytes_of(setting.entry.value))
}

/// What a condition says behind its colon, where a key has one.
fn told_in(key: &[u8]) -> &[u8] {
    if !key.starts_with(b"includeif.") {
        return b"";
    }
    match key.iter().position(|b| *b == b':') {
        Some(place) => &key[place + 1..],
        None => b"",
    }
}

/// Whether a path begins with the folder of a user.
fn is_users(path: &[u8]) -> bool {
    matches!(config_path(path), ConfigPath::User { .. })
}

/// Whether a key begins with these words.
fn asks(alloc: Global, config: &Config, words: &[u8]) -> Result<bool, AllocError> {
    for place in 0..config.len() {
        let setting = config.at(place);
        if short_key(alloc, &setting)?.starts_with(words) {
            return Ok(true);
        }
    }
    Ok(false)
}

/// The URLs of the remotes; an empty one where an entry has no value.
fn urls_of(alloc: Global, config: &Config) -> Result<Vec<Vec<u8>>, AllocError> {
    let mut urls = Vec::new(alloc);
    for place in 0..config.len() {
        let setting = config.at(place);
        if !short_key(alloc, &setting)?.starts_with(b"remote.") {
            continue;
        }
        let key = key_of(alloc, &setting)?;
        if key.ends_with(b".url") && key.len() >= b"remote..url".len() {
            urls.push(Vec::from_slice(alloc, bytes_of(setting.entry.value))?)?;
        }
    }
    Ok(urls)
}
