//! What the lists would say with a line more, or with another line in the place of one. They are changed, asked, and put back.
ghost use Rattle.std.specs.Prelude.{◌≡◌, ◌∷◌, [], IfOk, IfSome, OnOk, map};
ghost use Rattle.gix_glob.specs.Entries.{entry_of};
ghost use Rattle.glob_lines.specs.Equations.GitLines.{git_entries_of};
ghost use Rattle.glob_lists.specs.Deciding.{BasesAreFolders};
ghost use Rattle.glob_explain.specs.Causes.{seen};
ghost use Rattle.glob_explain.specs.Private.Trying.{AsksExchanged, AsksGrown};

use crate::cause::{Cause, cause_of};
use gix_glob::search::Pattern as _;
use gix_glob::search::pattern::{List, Mapping};
use glob_lines::GitIgnoreLines;
use glob_lists::{RepositoryPath, Rules};
use std::alloc::{AllocError, Global};
use std::mem;

/// What a line is read as, if it is one pattern.
pub(crate) fn mapping_of(alloc: Global, line: &[u8]) -> Result<Option<Mapping<()>>, AllocError>
    ensures { IfOk result (λ read. IfSome read (λ mapping. git_entries_of line.now ≡ entry_of (λ _. tt) mapping ∷ [])) }
{
    let mut mappings = GitIgnoreLines.bytes_to_patterns(alloc, line, "")?;
    if mappings.len() != 1 {
        return Ok(None);
    }
    Ok(mappings.pop())
}

/// Why a path would be ignored, or not, with this mapping in the place of the one at a pair of places; `None` where none stands there.
pub(crate) fn cause_with(
    lists: &mut [List<GitIgnoreLines>],
    pair: (usize, usize),
    mut mapping: Mapping<()>,
    path: &RepositoryPath<'_>,
    rules: Rules,
) -> Option<Cause>
    requires { BasesAreFolders (seen lists.old) }
    ensures asked { IfSome result (AsksExchanged (seen lists.old) rules path.now pair (entry_of (λ _. tt) mapping)) }
    ensures same { seen lists.new ≡ seen lists.old }
{
    if pair.0 >= lists.len() || pair.1 >= lists[pair.0].patterns.len() {
        return None;
    }
    mem::swap(&mut lists[pair.0].patterns[pair.1], &mut mapping);
    let cause = cause_of(lists, path, rules);
    mem::swap(&mut lists[pair.0].patterns[pair.1], &mut mapping);
    Some(cause)
}

/// Why a path would be ignored, or not, with these lines behind the last one of a list; `None` where there is no such list.
pub(crate) fn cause_behind(
    lists: &mut [List<GitIgnoreLines>],
    at: usize,
    mut more: Vec<Mapping<()>>,
    path: &RepositoryPath<'_>,
    rules: Rules,
) -> Result<Option<Cause>, AllocError>
    requires { BasesAreFolders (seen lists.old) }
    ensures asked { IfOk result (λ cause. IfSome cause (AsksGrown (seen lists.old) rules path.now at (map (entry_of (λ _. tt)) more.items))) }
    ensures same { OnOk result (seen lists.new ≡ seen lists.old) }
{
    if at >= lists.len() {
        return Ok(None);
    }
    let grown = &mut lists[at].patterns;
    let count = grown.len();
    grown.append(&mut more)?;
    let cause = cause_of(lists, path, rules);
    lists[at].patterns.truncate(count);
    Ok(Some(cause))
}
