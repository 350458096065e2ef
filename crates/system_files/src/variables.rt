//! The variables of the environment: by their bytes, as booleans, and all those that count for a repository.

use git_config::boolean;
use git_repository::{Pair, VariableFault, Variables, pair_count};
use std::alloc::{AllocError, Global};
use std::env::FillError;
use std::rt::Env;

/// So many bytes have room at first.
const FIRST_ROOM: usize = 64;

/// The variable that says whether the search goes on beyond the border of a file system.
const ACROSS: &str = "GIT_DISCOVERY_ACROSS_FILESYSTEM";

/// The system's file of configuration.
const SYSTEM: &[u8] = b"/etc/gitconfig";

/// The bytes of a variable; `None` where it isn't set.
///
/// # Errors
/// Only where memory was refused.
pub fn variable<R: Env>(rt: &R, alloc: Global, name: &str) -> Result<Option<Vec<u8>>, AllocError> {
    let mut room = FIRST_ROOM;
    'rooms: for _ in 0..usize::BITS {
        let mut bytes = Vec::new(alloc);
        bytes.resize(room, 0)?;
        match rt.var(name, &mut bytes) {
            Ok(len) => {
                bytes.truncate(len);
                return Ok(Some(bytes));
            }
            Err(FillError::NotPresent) => return Ok(None),
            Err(FillError::TooLong) => room = room.saturating_mul(2),
        }
    }
    Err(AllocError)
}

/// Whether a variable is true; one that isn't set is false.
///
/// # Errors
/// [`VariableFault::NoBoolean`] where it is no boolean, and [`VariableFault::Memory`].
pub fn is_true<R: Env>(rt: &R, alloc: Global, name: &'static str) -> Result<bool, VariableFault> {
    let Some(value) = variable(rt, alloc, name)? else {
        return Ok(false);
    };
    match boolean(Some(&value)) {
        Some(said) => Ok(said),
        None => Err(VariableFault::NoBoolean(name, value)),
    }
}

/// Reads the variables that count for a repository. Git doesn't look at `GIT_DISCOVERY_ACROSS_FILESYSTEM` where `GIT_DIR` is set.
///
/// # Errors
/// [`VariableFault::NoBoolean`] where that variable counts and is no boolean, and [`VariableFault::Memory`].
pub fn read_variables<R: Env>(rt: &R, alloc: Global) -> Result<Variables, VariableFault> {
    let git_dir = variable(rt, alloc, "GIT_DIR")?;
    let across_file_systems = git_dir.is_none() && is_true(rt, alloc, ACROSS)?;
    let count = variable(rt, alloc, "GIT_CONFIG_COUNT")?;
    let system = match variable(rt, alloc, "GIT_CONFIG_SYSTEM")? {
        Some(told) => told,
        None => Vec::from_slice(alloc, SYSTEM)?,
    };
    Ok(Variables {
        git_dir,
        work_tree: variable(rt, alloc, "GIT_WORK_TREE")?,
        common_dir: variable(rt, alloc, "GIT_COMMON_DIR")?,
        index_file: variable(rt, alloc, "GIT_INDEX_FILE")?,
        object_directory: variable(rt, alloc, "GIT_OBJECT_DIRECTORY")?,
        ceiling_directories: variable(rt, alloc, "GIT_CEILING_DIRECTORIES")?,
        across_file_systems,
        implicit_work_tree: variable(rt, alloc, "GIT_IMPLICIT_WORK_TREE")?,
        pwd: variable(rt, alloc, "PWD")?,
        home: variable(rt, alloc, "HOME")?,
        config_home: variable(rt, alloc, "XDG_CONFIG_HOME")?,
        no_system: variable(rt, alloc, "GIT_CONFIG_NOSYSTEM")?,
        system: Some(system),
        global: variable(rt, alloc, "GIT_CONFIG_GLOBAL")?,
        pairs: read_pairs(rt, alloc, pair_count(count.as_deref()).unwrap_or(0))?,
        count,
        parameters: variable(rt, alloc, "GIT_CONFIG_PARAMETERS")?,
    })
}

/// Reads the pairs, up to the first without a key, and so many at most.
fn read_pairs<R: Env>(rt: &R, alloc: Global, most: u64) -> Result<Vec<Pair>, AllocError> {
    let mut pairs = Vec::new(alloc);
    for number in 0..most {
        let name = format!(in alloc; "GIT_CONFIG_KEY_{number}")?;
        let Some(key) = variable(rt, alloc, name.as_str())? else {
            return Ok(pairs);
        };
        let name = format!(in alloc; "GIT_CONFIG_VALUE_{number}")?;
        let value = variable(rt, alloc, name.as_str())?;
        pairs.push(Pair { key, value })?;
    }
    Ok(pairs)
}
