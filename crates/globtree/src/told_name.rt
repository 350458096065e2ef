//! The path that `files --directory` is told: a name here, and a pattern of paths to Git. One that Git reads as more than a name is refused.
ghost use Rattle.std.specs.Prelude.{◌≡◌};
ghost use Rattle.std.specs.List.{list_any};
ghost use Rattle.glob_matcher.specs.Bytes.{is_special};

use crate::fault::{Fault, Result};
use crate::pathspec_settings::refuse_settings;
use git_paths::Standpoint;
use pathspecs::Settings;
use std::alloc::Global;
use std::rt::{Env, Files};
use tree_commands::check_ignore::PathKinds;
use tree_files::{CheckFault, FileKinds, path_text};

/// What stands where no path is told. To Git, too, it is the current folder.
const HERE: &str = ".";

/// Refuses a path that Git reads as more than a name, and the settings by which it reads paths otherwise, where one is told.
pub(crate) fn refuse_pattern<R: Env>(
    rt: &R,
    alloc: Global,
    options: Settings,
    standpoint: &Standpoint,
    told: &str,
) -> Result<()> {
    if told == HERE {
        return Ok(());
    }
    refuse_settings(rt, alloc, options, "files --directory")?;
    if told.as_bytes().starts_with(b":") {
        return Err(Fault::told(format!(in alloc;
            "'{told}' has a colon in front, which isn't of a path to Git: --directory takes a name"
        )));
    }
    let path = led_path(alloc, standpoint, told)?;
    if has_special(&path) {
        let path = path_text(alloc, &path)?;
        return Err(Fault::told(format!(in alloc;
            "'{path}' may be a pattern of paths to Git: --directory takes a name"
        )));
    }
    Ok(())
}

/// Whether some byte of a path may mean more than itself.
fn has_special(path: &[u8]) -> bool
    ensures { result ≡ list_any is_special path.now }
{
    path.iter().any(|byte| is_special(*byte))
}

/// Whether a byte may mean more than itself.
fn is_special(byte: u8) -> bool
    ensures { result ≡ is_special byte }
{
    matches!(byte, b'*' | b'?' | b'[' | b'\\')
}

/// Refuses a path below a link: Git lists nothing there.
pub(crate) fn refuse_beyond_link<R: Files>(
    rt: &R,
    alloc: Global,
    standpoint: &Standpoint,
    told: &str,
) -> Result<()> {
    let path = led_path(alloc, standpoint, told)?;
    let mut kinds = FileKinds::new(rt, alloc);
    'places: for place in 0..path.len() {
        if path[place] == b'/' {
            kinds.check_folder(&path[..place])?;
        }
    }
    Ok(())
}

/// Where a path leads, from the top.
fn led_path(alloc: Global, standpoint: &Standpoint, told: &str) -> Result<Vec<u8>> {
    let mut path = Vec::new(alloc);
    let told = told.as_bytes();
    match standpoint.lead(alloc, &mut path, told) {
        Ok(_is_folder) => Ok(path),
        Err(fault) => Err(CheckFault::of_lead(alloc, told, fault).into()),
    }
}
