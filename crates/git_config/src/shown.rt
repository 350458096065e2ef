//! An entry of a configuration, as it is shown in a list, and its value alone.
ghost use Rattle.std.specs.Prelude.{◌≡◌, ◌++◌, OnOk};
ghost use Rattle.std.specs.Option.{option_copied};
ghost use Rattle.git_config.specs.Configuration.{key_of, seen_setting};
ghost use Rattle.git_config.specs.Shown.{behind_key, entry_shown, value_of, value_shown};

use crate::keys::until_zero;
use crate::origin::{Manner, append_front, end_of};
use crate::setting::ReadSetting;
use std::alloc::{AllocError, Global};

/// Appends an entry: its key and its value.
pub(crate) fn append_entry(
    alloc: Global,
    text: &mut Vec<u8>,
    setting: &ReadSetting<'_>,
    manner: Manner,
) -> Result<(), AllocError>
    ensures { OnOk result (text.new.items ≡ text.old.items ++ entry_shown manner (seen_setting setting.now)) }
{
    append_front(text, setting, manner)?;
    append_key(alloc, text, setting)?;
    append_behind_key(text, setting.entry.value, manner.nul)?;
    text.push(end_of(manner.nul))?;
    Ok(())
}

/// Appends the value of an entry.
pub(crate) fn append_value(
    text: &mut Vec<u8>,
    setting: &ReadSetting<'_>,
    manner: Manner,
) -> Result<(), AllocError>
    ensures { OnOk result (text.new.items ≡ text.old.items ++ value_shown manner (seen_setting setting.now)) }
{
    append_front(text, setting, manner)?;
    append_if_any(text, setting.entry.value)?;
    text.push(end_of(manner.nul))?;
    Ok(())
}

/// Appends the key of an entry, which a byte 0 ends.
fn append_key(
    alloc: Global,
    text: &mut Vec<u8>,
    setting: &ReadSetting<'_>,
) -> Result<(), AllocError>
    ensures { OnOk result (text.new.items ≡ text.old.items ++ key_of (seen_setting setting.now)) }
{
    let mut key = Vec::from_slice(alloc, setting.section)?;
    key.extend_from_slice(setting.entry.name)?;
    text.extend_from_slice(until_zero(&key))
}

/// Appends what follows the key of an entry with this value.
pub(crate) fn append_behind_key(
    text: &mut Vec<u8>,
    value: Option<&[u8]>,
    nul: bool,
) -> Result<(), AllocError>
    ensures { OnOk result (text.new.items ≡ text.old.items ++ behind_key nul (option_copied value.entry)) }
{
    match value {
        Some(value) => {
            text.push(if nul { b'\n' } else { b'=' })?;
            text.extend_from_slice(value)
        }
        None => Ok(()),
    }
}

/// Appends a value, if there is one.
fn append_if_any(text: &mut Vec<u8>, value: Option<&[u8]>) -> Result<(), AllocError>
    ensures { OnOk result (text.new.items ≡ text.old.items ++ value_of (option_copied value.entry)) }
{
    match value {
        Some(value) => text.extend_from_slice(value),
        None => Ok(()),
    }
}
