//! Opening the repository of the current folder, as Git does.

use crate::check_ignore::bytes_of;
use crate::fault::{Fault, Result};
use crate::moving::current_path;
use crate::words::Options;
use git_config::{Config, Surroundings, boolean};
use git_repository::{ConfigPlace, Finder, Purpose, Repository, Setup, Variables};
use std::alloc::Global;
use std::env;
use std::rt::{Env, Files};
use system_files::{DiskFiles, User, read_variables, surroundings};
use tree_files::{path_text, tell_line};

/// What the process was told before it looks for a repository, and the files that it sees.
#[derive(Drop)]
struct Told<'a, R> {
    alloc: Global,
    files: DiskFiles<'a, R>,
    variables: Variables,
    /// The words behind `-c`.
    words: Vec<&'a [u8]>,
}

impl<'a, R: Files + Env> Told<'a, R> {
    /// Asks the environment and the words.
    fn read(rt: &'a R, alloc: Global, options: &Options<'a>) -> Result<Told<'a, R>> {
        Ok(Told {
            alloc,
            files: DiskFiles::new(rt, alloc, User::of_process(rt, alloc)?),
            variables: with_options(alloc, read_variables(rt, alloc)?, options)?,
            words: bytes_of(alloc, &options.settings)?,
        })
    }

    /// What is known of the user and the installation.
    fn around(&self) -> Result<Surroundings> {
        let home = self.variables.home.as_deref();
        Ok(surroundings(self.alloc, home)?)
    }

    /// All this, for a process whose current folder this is.
    fn setup<'t>(&'t self, current: &'t [u8]) -> Setup<'t, DiskFiles<'a, R>> {
        Setup {
            finder: Finder {
                alloc: self.alloc,
                source: &self.files,
                variables: &self.variables,
            },
            current,
            words: &self.words,
        }
    }
}

/// Opens the repository of the current folder, whose path this is, by the variables of the environment and the words.
pub(crate) fn open_here<R: Files + Env>(
    rt: &R,
    alloc: Global,
    options: &Options<'_>,
    current: &[u8],
    purpose: Purpose,
) -> Result<Repository> {
    let told = Told::read(rt, alloc, options)?;
    let mut around = told.around()?;
    Ok(told.setup(current).open(&mut around, purpose)?)
}

/// Reads the configuration that counts in the current folder. Where this lies below the top of the work tree, it goes there first, as
/// Git does, so that a file has the name that Git has for it. Where a repository may be that can't be looked at, this is told.
pub(crate) fn config_here<R: Files + Env + Eprint + AllocGlobal>(
    rt: &R,
    alloc: Global,
    options: &Options<'_>,
) -> Result<Config> {
    let current = current_path(rt, alloc)?;
    let told = Told::read(rt, alloc, options)?;
    let mut around = told.around()?;
    let setup = told.setup(current.as_str().as_bytes());
    let place = setup.config_place(&mut around)?;
    if let Some(hidden) = &place.hidden {
        tell_line(rt, alloc, format_args!("warning: {hidden}"))?;
    }
    go_to_place(rt, alloc, &place)?;
    Ok(setup.read_config(&mut around, &place)?)
}

/// Goes to the folder that the files of a configuration are told from.
fn go_to_place<R: Files + Env>(rt: &R, alloc: Global, place: &ConfigPlace) -> Result<()> {
    if let Some(top) = &place.top {
        let top = path_text(alloc, top)?;
        env::set_current_dir(rt, top.as_str()).map_err(|error| {
            Fault::told(format!(in alloc; "the top of the work tree: {error}"))
        })?;
    }
    Ok(())
}

/// The variables, where an option stands for its variable. Nothing else may say that there is no work tree.
fn with_options(
    alloc: Global,
    mut variables: Variables,
    options: &Options<'_>,
) -> Result<Variables> {
    if let Some(told) = options.git_dir {
        variables.git_dir = Some(Vec::from_slice(alloc, told.as_bytes())?);
    }
    if let Some(told) = options.work_tree {
        variables.work_tree = Some(Vec::from_slice(alloc, told.as_bytes())?);
    }
    if variables.git_dir.is_some()
        && variables.work_tree.is_none()
        && denies(variables.implicit_work_tree.as_deref())
    {
        return Err(Fault::ImplicitWorkTree);
    }
    Ok(variables)
}

/// Whether a value is set and isn't true.
fn denies(value: Option<&[u8]>) -> bool {
    match value {
        Some(text) => !boolean(Some(text)).unwrap_or(false),
        None => false,
    }
}
