//! Where an entry of a configuration was read, as it is shown in front of the entry.
ghost use Rattle.std.specs.Prelude.{◌≡◌, ◌++◌, OnOk, if◌then◌else◌};
ghost use Rattle.git_config.specs.Configuration.{seen_setting};
ghost use Rattle.std.specs.Option.{option_copied};
ghost use Rattle.git_paths.specs.declared.quoting.Quoting.TheVariants.{Full};
ghost use Rattle.git_paths.specs.Quoting.{quoted};
ghost use Rattle.git_config.specs.Shown.{end_of, front_of, origin_of};

use crate::setting::ReadSetting;
use git_paths::{Quoting, append_quoted};
use std::alloc::AllocError;

/// How entries are shown.
#[derive(Debug, Clone, Copy, Drop)]
pub struct Manner {
    /// A NUL ends what is shown of each, and no name is quoted.
    pub nul: bool,
    /// Where each was read stands in front of it.
    pub origin: bool,
}

/// Appends where an entry was read, where this is shown.
pub(crate) fn append_front(
    text: &mut Vec<u8>,
    setting: &ReadSetting<'_>,
    manner: Manner,
) -> Result<(), AllocError>
    ensures { OnOk result (text.new.items ≡ text.old.items ++ front_of manner (seen_setting setting.now)) }
{
    if !manner.origin {
        return Ok(());
    }
    append_origin(text, setting.file, manner.nul)?;
    text.push(if manner.nul { 0 } else { b'\t' })?;
    Ok(())
}

/// Appends where what was read of a file stood, or of a word.
fn append_origin(text: &mut Vec<u8>, file: Option<&[u8]>, nul: bool) -> Result<(), AllocError>
    ensures { OnOk result (text.new.items ≡ text.old.items ++ origin_of nul (option_copied file.entry)) }
{
    match file {
        Some(name) => {
            text.extend_from_slice(b"file:")?;
            append_name(text, name, nul)
        }
        None => text.extend_from_slice(b"command line:"),
    }
}

/// Appends the name of a file.
fn append_name(text: &mut Vec<u8>, name: &[u8], nul: bool) -> Result<(), AllocError>
    ensures { OnOk result (text.new.items ≡ text.old.items ++ (if nul then name.now else quoted Full name.now)) }
{
    if nul {
        text.extend_from_slice(name)
    } else {
        append_quoted(text, name, Quoting::Full)
    }
}

/// The byte that ends what is shown of an entry.
pub(crate) fn end_of(nul: bool) -> u8
    ensures { result ≡ end_of nul }
{
    if nul { 0 } else { b'\n' }
}
