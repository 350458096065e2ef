//! Texts of paths.
ghost use Rattle.std.specs.Prelude.{◌≡◌, ◌≤◌, IfOk, drop, length, not, position};
ghost use Rattle.std.specs.List.{position_or_len};
ghost use Rattle.git_config.specs.Paths.{is_slash};
ghost use Rattle.git_repository.specs.GitFolders.{is_absolute, is_relative, told_from};
ghost use Rattle.git_repository.specs.UserFiles.{without_dot};

use git_config::is_blank;
pub(crate) use git_paths::joined;
use std::alloc::{AllocError, Global};

/// Whether a path is told from the root.
pub(crate) fn is_absolute(path: &[u8]) -> bool
    ensures { result ≡ is_absolute path.now }
{
    path.starts_with(b"/")
}

/// Whether a path isn't empty and isn't absolute.
pub(crate) fn is_relative(path: &[u8]) -> bool
    ensures { result ≡ is_relative path.now }
{
    !path.is_empty() && !is_absolute(path)
}

/// A path that is told from a folder: one that isn't absolute goes on behind it.
///
/// # Errors
/// Only where memory was refused.
pub fn told_from(alloc: Global, folder: &[u8], path: &[u8]) -> Result<Vec<u8>, AllocError>
    ensures { IfOk result (λ found. found.items ≡ told_from folder.now path.now) }
{
    if is_absolute(path) {
        return Vec::from_slice(alloc, path);
    }
    let mut whole = joined(alloc, folder, b"/")?;
    whole.extend_from_slice(path)?;
    Ok(whole)
}

/// The path that a file tells: from its folder, unless it is absolute.
pub(crate) fn told_by(alloc: Global, file: &[u8], path: &[u8]) -> Result<Vec<u8>, AllocError> {
    if is_absolute(path) {
        return Vec::from_slice(alloc, path);
    }
    joined(alloc, &file[..name_start(file)], path)
}

/// A folder without the slash at its end, so the root has no bytes.
pub(crate) fn folder_of(path: &[u8]) -> &[u8] {
    path.strip_suffix(b"/").unwrap_or(path)
}

/// What of a path lies below a folder, where it does.
pub(crate) fn below<'p>(folder: &[u8], path: &'p [u8]) -> Option<&'p [u8]> {
    path.strip_prefix(folder_of(folder))?.strip_prefix(b"/")
}

/// Where the last part of a path begins: behind its last slash.
pub(crate) fn name_start(path: &[u8]) -> usize
    ensures within { result ≤ length path.now }
{
    match path.iter().rposition(|b| *b == b'/') {
        Some(slash) => slash + 1,
        None => 0,
    }
}

/// A path without the current folder in front: `./`, and the slashes behind it.
pub(crate) fn without_dot(path: &[u8]) -> &[u8]
    ensures { result.now ≡ without_dot path.now }
{
    match path.strip_prefix(b"./") {
        Some(rest) => without_slashes(rest),
        None => path,
    }
}

/// A path without the slashes in front.
fn without_slashes(path: &[u8]) -> &[u8]
    ensures { result.now ≡ drop (position_or_len (λ b. not (is_slash b)) path.now) path.now }
{
    match first_other(path) {
        Some(place) => &path[place..],
        None => &[],
    }
}

/// The place of the first byte that is no slash.
fn first_other(path: &[u8]) -> Option<usize>
    ensures { result ≡ position (λ b. not (is_slash b)) path.now }
{
    path.iter().position(|b| *b != b'/')
}

/// A text without the line feeds and carriage returns at its end.
pub(crate) fn without_line_ends(text: &[u8]) -> &[u8] {
    match text.iter().rposition(|b| *b != b'\n' && *b != b'\r') {
        Some(last) => &text[..last + 1],
        None => b"",
    }
}

/// A text without the blanks in front and at its end: spaces, tabs, carriage returns and line feeds.
pub(crate) fn without_blanks(text: &[u8]) -> &[u8] {
    let Some(start) = text.iter().position(|b| !is_blank(*b)) else {
        return b"";
    };
    let rest = &text[start..];
    match rest.iter().rposition(|b| !is_blank(*b)) {
        Some(last) => &rest[..last + 1],
        None => b"",
    }
}
