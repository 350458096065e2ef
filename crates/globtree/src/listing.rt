//! A listing of the files that are found, as it is run for a command.
ghost use Rattle.std.specs.Prelude.{◌≡◌, IfOk, length};
ghost use Rattle.std.specs.List.{AllZip};
ghost use Rattle.globtree.specs.Running.{IsAnswered};

use crate::fault::{Fault, Result};
use crate::fronts::Fronts;
use crate::outcomes::ANSWERED;
use byte_streams::Watched;
use git_paths::LeadFault;
use git_repository::Variables;
use glob_lines::GitIgnoreLines;
use glob_lists::PreparedList;
use std::alloc::{AllocError, Global};
use std::io::Write;
use std::rt::{Clock, Env, Files};
use system_files::{DiskFiles, User, read_variables};
use tree_commands::files::fault::FilesFault;
use tree_commands::files::{Listing, run_files};
use tree_files::{CheckFault, NestedRepositories, TreeFiles};

/// What a command ends with where something couldn't be read.
pub(crate) const NOT_ALL_LISTED: u8 = 1;

/// Lists files at or below the path that is told, and answers what the command ends with.
pub(crate) fn run_listing<R: Files + Env + Clock + Eprint + AllocGlobal + Clone + Drop, O: Write>(
    rt: &R,
    alloc: Global,
    listing: Listing,
    fronts: &Fronts,
    told: &[u8],
    shows_progress: bool,
    output: &mut Watched<O>,
) -> Result<u8>
    ensures status { IfOk result IsAnswered }
{
    let mut source = source_of(rt, alloc, fronts, shows_progress)?;
    let outcome = run_files(alloc, listing, &fronts.tracked, &mut source, told, output);
    ended(alloc, told, outcome, source.end())
}

/// The files that are listed.
pub(crate) fn source_of<'a, R: Files + Env + Clock + Eprint>(
    rt: &'a R,
    alloc: Global,
    fronts: &'a Fronts,
    shows_progress: bool,
) -> Result<TreeFiles<'a, R>> {
    let nested = nested_repositories(rt, alloc, fronts)?;
    let source = TreeFiles::new(rt, alloc, &fronts.indexed, nested, shows_progress)?;
    Ok(source)
}

/// What a command ends with after a listing from the path that is told, where something couldn't be read or all could.
pub(crate) fn ended(
    alloc: Global,
    told: &[u8],
    outcome: Result<(), FilesFault<CheckFault>>,
    is_short: bool,
) -> Result<u8>
    ensures status { IfOk result IsAnswered }
{
    match outcome {
        Ok(()) if is_short => Ok(NOT_ALL_LISTED),
        Ok(()) => Ok(ANSWERED),
        Err(FilesFault::Write(error)) => Err(Fault::Write(error)),
        Err(FilesFault::Endless) => Err(Fault::EndlessTree),
        Err(FilesFault::Source(fault)) => Err(fault.into()),
        Err(FilesFault::Outside) => Err(CheckFault::of_lead(
            alloc,
            told,
            LeadFault::Outside,
        ).into()),
        Err(FilesFault::Empty) => Err(CheckFault::Empty.into()),
        Err(FilesFault::Base) => Err(CheckFault::Base.into()),
        Err(FilesFault::Memory) => Err(CheckFault::Memory.into()),
    }
}

/// What tells of a folder whether it is a repository of its own. Without a repository the variables of the environment don't count.
pub(crate) fn nested_repositories<'a, R: Files + Env>(
    rt: &'a R,
    alloc: Global,
    fronts: &Fronts,
) -> Result<NestedRepositories<'a, R>> {
    let files = DiskFiles::new(rt, alloc, User::of_process(rt, alloc)?);
    let variables = match &fronts.git_folder {
        Some(_folder) => read_variables(rt, alloc)?,
        None => Variables::none(alloc),
    };
    let own = fronts.git_folder.as_deref();
    Ok(NestedRepositories::new(alloc, files, variables, own)?)
}

/// The same lists once more, each with as many patterns.
pub(crate) fn copies_of(
    alloc: Global,
    lists: &[PreparedList<GitIgnoreLines>],
) -> Result<Vec<PreparedList<GitIgnoreLines>>, AllocError>
    ensures { IfOk result (λ copies. AllZip (λ list copy. length copy.patterns.items ≡ length list.patterns.items) lists.now copies.items) }
{
    let mut copies = Vec::with_capacity(alloc, lists.len())?;
    'lists: for list in lists {
        copies.push(PreparedList::new(alloc, list.list().clone()?))?;
    }
    Ok(copies)
}
