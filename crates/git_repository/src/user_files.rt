//! Where the files of a user's settings lie.
ghost use Rattle.std.specs.Prelude.{◌≡◌, option_map, IfOk};
ghost use Rattle.std.specs.Option.{option_copied};
ghost use Rattle.std.specs.Vec.{vec_items};
ghost use Rattle.git_repository.specs.UserFiles.{below_home, settings_file, settings_folder};

use crate::paths::{joined, without_dot};
use std::alloc::{AllocError, Global};

/// A file of this name in the folder `git` of the user's settings: that is in `config_home`, which is `XDG_CONFIG_HOME`, or else in `.config` of
/// `home`; `None` where neither is known.
///
/// # Errors
/// Only where memory was refused.
pub fn settings_file(
    alloc: Global,
    config_home: Option<&[u8]>,
    home: Option<&[u8]>,
    name: &[u8],
) -> Result<Option<Vec<u8>>, AllocError>
    ensures { IfOk result (λ file. option_map vec_items file ≡ settings_file (option_copied config_home.entry) (option_copied home.entry) name.now) }
{
    let Some(folder) = settings_folder(alloc, config_home, home)? else {
        return Ok(None);
    };
    let front = joined(alloc, &folder, b"/git/")?;
    let path = joined(alloc, &front, name)?;
    Ok(Some(Vec::from_slice(alloc, without_dot(&path))?))
}

/// The folder of the user's settings.
fn settings_folder(
    alloc: Global,
    config_home: Option<&[u8]>,
    home: Option<&[u8]>,
) -> Result<Option<Vec<u8>>, AllocError>
    ensures { IfOk result (λ folder. option_map vec_items folder ≡ settings_folder (option_copied config_home.entry) (option_copied home.entry)) }
{
    match config_home {
        Some(folder) if !folder.is_empty() => Ok(Some(Vec::from_slice(alloc, folder)?)),
        _ => below_home(alloc, home, b"/.config"),
    }
}

/// What follows the home folder, behind it.
pub(crate) fn below_home(
    alloc: Global,
    home: Option<&[u8]>,
    rest: &[u8],
) -> Result<Option<Vec<u8>>, AllocError>
    ensures { IfOk result (λ path. option_map vec_items path ≡ below_home (option_copied home.entry) rest.now) }
{
    match home {
        Some(folder) => Ok(Some(joined(alloc, folder, rest)?)),
        None => Ok(None),
    }
}
