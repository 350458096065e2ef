//! Whether all that a line matches lies below an ignored folder.
ghost use Rattle.std.specs.Prelude.{IfOk, IfSome};
ghost use Rattle.glob_lists.specs.Deciding.{BasesAreFolders, HasEntryAt};
ghost use Rattle.glob_lint.specs.declared.why.Why.TheVariants.{BelowIgnored};
ghost use Rattle.glob_lint.specs.Effects.{IsWhy};
ghost use Rattle.glob_lint.specs.Seen.{seen};

use crate::asked::AskedLists;
use crate::beginnings::beginning_of;
use crate::pairs::line_at;
use glob_lists::{Reading, RepositoryPath};
use glob_trees::ignored_folder_by;
use std::alloc::{AllocError, Global};

/// The line that ignores a folder above all that the line at a pair of places matches, by Git's rules; `None` where there is none.
///
/// # Errors
/// Only where memory was refused.
pub(crate) fn ignored_folder_of(
    alloc: Global,
    asked: &AskedLists<'_>,
    pair: (usize, usize),
) -> Result<Option<(usize, usize)>, AllocError>
    requires folders { BasesAreFolders (seen asked.now.lists.now) }
    requires there { HasEntryAt (seen asked.now.lists.now) pair }
    ensures { IfOk result (λ by. IfSome by (λ by. IsWhy asked.now.rules (seen asked.now.lists.now) pair (BelowIgnored by))) }
{
    let Reading::Git = asked.rules.reading else {
        return Ok(None);
    };
    let beginning = beginning_of(alloc, &line_at(asked.lists, pair))?;
    let Some(path) = RepositoryPath::new(&beginning, false) else {
        return Ok(None);
    };
    match ignored_folder_by(asked, &path, asked.rules) {
        Some(folder) => Ok(Some(folder.pair)),
        None => Ok(None),
    }
}
