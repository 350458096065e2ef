//! The branch that `HEAD` names, and whether this is certain.

use crate::file_system::{FileSystem, Held};
use crate::finder::digit_count;
use crate::found::{GitFolder, Head};
use crate::paths::joined;
use git_config::is_blank;
use std::alloc::{AllocError, Global};

/// So many bytes of the file of a reference are looked at: the digits of a commit, and one behind.
const COMMIT_LIMIT: usize = 65;

impl GitFolder {
    /// The branch that `HEAD` names: what follows `refs/heads/`.
    pub(crate) fn branch(&self, alloc: Global) -> Result<Option<Vec<u8>>, AllocError> {
        let Head::Reference(reference) = &self.head else {
            return Ok(None);
        };
        match reference.strip_prefix(b"refs/heads/") {
            Some(name) => Ok(Some(Vec::from_slice(alloc, name)?)),
            None => Ok(None),
        }
    }

    /// The reference that `HEAD` names, where Git may refuse this, or may follow it to another one.
    pub(crate) fn uncertain<S: FileSystem>(
        &self,
        alloc: Global,
        source: &S,
    ) -> Result<Option<Vec<u8>>, AllocError> {
        let Head::Reference(reference) = &self.head else {
            return Ok(None);
        };
        if may_be_refused(reference)
            || leads_on(alloc, source, &self.path, reference)?
            || self.common.is_some() && leads_on(alloc, source, self.common(), reference)?
        {
            return Ok(Some(Vec::from_slice(alloc, reference)?));
        }
        Ok(None)
    }
}

/// Whether the file of a reference in this folder is a link, or holds something else than a commit.
fn leads_on<S: FileSystem>(
    alloc: Global,
    source: &S,
    folder: &[u8],
    reference: &[u8],
) -> Result<bool, AllocError> {
    let path = joined(alloc, &joined(alloc, folder, b"/")?, reference)?;
    match source.held(&path, COMMIT_LIMIT)? {
        Some(Held::Link(_target)) => Ok(true),
        Some(Held::Bytes(text)) => Ok(!is_commit(&text)),
        None => Ok(false),
    }
}

/// Whether Git may refuse the name of a reference. Each that it refuses is among these.
fn may_be_refused(name: &[u8]) -> bool {
    name.iter().any(|b| is_refused_byte(*b))
        || has(b"..", name)
        || has(b"@{", name)
        || has(b"//", name)
        || has(b"/.", name)
        || has(b".lock", name)
        || name.ends_with(b"/")
        || name.ends_with(b".")
}

/// Whether no name has this byte.
fn is_refused_byte(b: u8) -> bool {
    b <= b' ' || b == 127 || b"~^:?*[\\".contains(&b)
}

/// Whether a part stands in a text.
fn has(part: &[u8], text: &[u8]) -> bool {
    let mut rest = text;
    'bytes: while let Some((_, more)) = rest.split_first() {
        if rest.starts_with(part) {
            return true;
        }
        rest = more;
    }
    false
}

/// Whether a text names a commit by 40 or 64 hexadecimal digits, with nothing or a blank behind.
fn is_commit(text: &[u8]) -> bool {
    let digits = digit_count(text);
    if digits != 40 && digits != 64 {
        return false;
    }
    match text.get(digits) {
        Some(b) => is_blank(*b),
        None => true,
    }
}
