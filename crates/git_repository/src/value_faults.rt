//! What is wrong with the values of entries.

use crate::bytes::copied;
use crate::core_values::short_key;
use crate::faults::OpenFault;
use git_config::{Config, ReadSetting, boolean, integer};
use std::alloc::{AllocError, Global};

/// Looks at each entry of the repository's own file: of `config`, which all work trees share, or of `config.worktree`.
pub(crate) fn check_values<F>(
    alloc: Global,
    shared: bool,
    config: &Config,
) -> Result<(), OpenFault<F>> {
    for place in 0..config.len() {
        let setting = config.at(place);
        check_value(alloc, shared, &setting)?;
    }
    Ok(())
}

/// Looks at an entry: of either file at what it says of the work tree, and of `config` at the version and the extensions.
fn check_value<F>(
    alloc: Global,
    shared: bool,
    setting: &ReadSetting<'_>,
) -> Result<(), OpenFault<F>> {
    let key = short_key(alloc, setting)?;
    let value = setting.entry.value;
    match key.as_slice() {
        b"core.bare" => check_boolean(alloc, key, value),
        b"core.worktree" => check_line(alloc, value.is_some(), setting),
        b"core.repositoryformatversion" if shared => check_number(alloc, setting),
        b"extensions.worktreeconfig" | b"extensions.preciousobjects" if shared => {
            check_boolean(alloc, key, value)
        }
        b"extensions.objectformat" if shared => {
            let is_hash = matches!(bytes_of(value), b"sha1" | b"sha256");
            check_line(alloc, is_hash, setting)
        }
        _ => Ok(()),
    }
}

/// Looks at the value of a boolean.
pub(crate) fn check_boolean<F>(
    alloc: Global,
    key: Vec<u8>,
    value: Option<&[u8]>,
) -> Result<(), OpenFault<F>> {
    match value {
        Some(value) if boolean(Some(value)).is_none() => {
            let value = Vec::from_slice(alloc, value)?;
            Err(OpenFault::Boolean { key, value })
        }
        _ => Ok(()),
    }
}

/// Looks at the value of a number.
fn check_number<F>(alloc: Global, setting: &ReadSetting<'_>) -> Result<(), OpenFault<F>> {
    let value = bytes_of(setting.entry.value);
    if integer(value).is_some() {
        return Ok(());
    }
    let value = Vec::from_slice(alloc, value)?;
    let file = copied(alloc, setting.file)?;
    Err(OpenFault::Number { value, file })
}

/// Refuses a line that isn't right.
fn check_line<F>(
    alloc: Global,
    right: bool,
    setting: &ReadSetting<'_>,
) -> Result<(), OpenFault<F>> {
    if right {
        return Ok(());
    }
    let file = copied(alloc, setting.file)?;
    let line = setting.entry.line;
    Err(OpenFault::Line { file, line })
}

/// The fault of an entry with this key.
pub(crate) fn entry_fault<F>(
    alloc: Global,
    key: Vec<u8>,
    setting: &ReadSetting<'_>,
) -> Result<OpenFault<F>, AllocError> {
    let file = copied(alloc, setting.file)?;
    let line = setting.entry.line;
    Ok(OpenFault::Entry { key, file, line })
}

/// The bytes of a value; none where it isn't there.
pub(crate) fn bytes_of(value: Option<&[u8]>) -> &[u8] {
    value.unwrap_or(b"")
}
