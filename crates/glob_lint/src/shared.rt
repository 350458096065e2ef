//! Paths that a line may share with a line of the other sign.
ghost use Rattle.glob_lists.specs.Deciding.{HasEntryAt};
ghost use Rattle.glob_lint.specs.Seen.{seen};

use crate::beginnings::beginning_of;
use crate::line::Line;
use crate::pairs::line_at;
use crate::samples::{Sample, samples_of};
use gix_glob::search::pattern::List;
use glob_lines::GitIgnoreLines;
use glob_lists::{RepositoryPath, Rules};
use memchr::memrchr;
use std::alloc::{AllocError, Global};

/// Paths that the lines at two pairs of places both match: the last part of a sample of the one, in the folder in which what the other
/// matches begins.
///
/// # Errors
/// Only where memory was refused.
pub(crate) fn shared_samples(
    alloc: Global,
    lists: &[List<GitIgnoreLines>],
    pair: (usize, usize),
    other: (usize, usize),
    rules: Rules,
) -> Result<Vec<Sample>, AllocError>
    requires here { HasEntryAt (seen lists.now) pair }
    requires there { HasEntryAt (seen lists.now) other }
{
    let mut shared = Vec::new(alloc);
    let (line, other) = (line_at(lists, pair), line_at(lists, other));
    add_shared(alloc, &line, &other, rules, &mut shared)?;
    add_shared(alloc, &other, &line, rules, &mut shared)?;
    Ok(shared)
}

/// Adds those that lie in the folder of the one line, and are named as samples of the other.
fn add_shared(
    alloc: Global,
    folder: &Line<'_>,
    named: &Line<'_>,
    rules: Rules,
    shared: &mut Vec<Sample>,
) -> Result<(), AllocError> {
    let beginning = beginning_of(alloc, folder)?;
    let folder_bytes = up_to_slash(&beginning);
    'samples: for sample in samples_of(alloc, named, rules)? {
        let mut path = Vec::from_slice(alloc, folder_bytes)?;
        path.extend_from_slice(behind_slash(&sample.path))?;
        let joined = Sample {
            path,
            is_dir: sample.is_dir,
        };
        if is_matched(folder, &joined, rules) && is_matched(named, &joined, rules) {
            shared.push(joined)?;
        }
    }
    Ok(())
}

/// What stands up to the last slash of a text, with it; no bytes where there is none.
fn up_to_slash(text: &[u8]) -> &[u8] {
    match memrchr(b'/', text) {
        Some(place) => &text[..place + 1],
        None => b"",
    }
}

/// What stands behind the last slash of a text; all of it where there is none.
fn behind_slash(text: &[u8]) -> &[u8] {
    match memrchr(b'/', text) {
        Some(place) => &text[place + 1..],
        None => text,
    }
}

/// Whether a line matches a sample, the case of letters in its base counting.
fn is_matched(line: &Line<'_>, sample: &Sample, rules: Rules) -> bool {
    let rest = match line.base {
        Some(base) => sample.path.strip_prefix(base),
        None => Some(sample.path.as_slice()),
    };
    let Some(rest) = rest else {
        return false;
    };
    match RepositoryPath::new(rest, sample.is_dir) {
        Some(path) => path.is_matched_by(line.pattern, rules),
        None => false,
    }
}
