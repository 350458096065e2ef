//! What stands in the place of an ignore file, which Git doesn't read then.

use std::fs;
use std::rt::Files;

/// What stands in the place of an ignore file, where that is a link or a folder.
pub(crate) fn what_is_unread<R: Files>(rt: &R, file: &str) -> Option<&'static str> {
    match fs::symlink_metadata(rt, file) {
        Ok(found) if found.is_symlink() => Some("a link"),
        Ok(found) if found.is_dir() => Some("a folder"),
        _ => None,
    }
}
