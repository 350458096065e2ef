//! Files of excludes, which count before those of all folders.
ghost use Rattle.std.specs.Prelude.{IfOk};
ghost use Rattle.gix_glob.specs.EntryLists.{entry_list_of};
ghost use Rattle.globtree.specs.Answers.{IsOfSomeFile};

use crate::fault::{Fault, Result};
use gix_glob::search::pattern::List;
use glob_lines::GitIgnoreLines;
use std::alloc::Global;
use std::rt::Files;
use tree_files::{file_list, named_list};

/// The list of a file of excludes that is named, and has to be there.
pub(crate) fn named_excludes<R: Files>(
    rt: &R,
    alloc: Global,
    name: &str,
) -> Result<List<GitIgnoreLines>>
    ensures { IfOk result (λ list. IsOfSomeFile (entry_list_of (λ _. tt) list)) }
{
    let mut bytes = Vec::new(alloc);
    let source = String::from_str(alloc, name)?;
    match named_list(rt, alloc, source, &mut bytes, GitIgnoreLines) {
        Ok(Some(list)) => Ok(list),
        Ok(None) => Err(Fault::told(format!(in alloc; "'{name}' is no file"))),
        Err(fault) => Err(Fault::told(format!(in alloc; "'{name}': {fault}"))),
    }
}

/// The list of a file of excludes, which may be missing. A folder there is a fault, as it is to Git.
pub(crate) fn excludes<R: Files + Eprint>(
    rt: &R,
    alloc: Global,
    file: String,
) -> Result<List<GitIgnoreLines>>
    ensures { IfOk result (λ list. IsOfSomeFile (entry_list_of (λ _. tt) list)) }
{
    let mut bytes = Vec::new(alloc);
    Ok(file_list(rt, alloc, file, &mut bytes, GitIgnoreLines)?)
}
