//! Which repositories of other users, and which bare ones, may be taken.
ghost use Rattle.std.specs.Prelude.{◌≡◌, ◌==◌, length, map, not};
ghost use Rattle.std.specs.Vec.{vec_items};
ghost use Rattle.git_repository.specs.Safety.{names, trusts};

use crate::faults::OpenFault;
use crate::value_faults::{bytes_of, entry_fault};
use git_config::{Config, Surroundings, expanded};
use std::alloc::Global;

/// What the settings say of whose repositories may be taken: those of the system's and the user's configuration and of the command
/// line, not the repository's own.
#[derive(Drop)]
pub(crate) struct Safety<'a> {
    /// The values of `safe.directory`, in order, as paths; one without a value is empty.
    pub(crate) directories: &'a [Vec<u8>],
    /// Whether `safe.bareRepository` is `explicit`: a bare repository is taken only where `GIT_DIR` names it.
    pub(crate) bare_is_refused: bool,
}

/// Whether these values of `safe.directory` name a path: one of them is this path or `*`, and no empty value follows it.
pub fn trusts(values: &[Vec<u8>], path: &[u8]) -> bool
    ensures { result ≡ trusts path.now (map vec_items values.now) }
{
    let mut trusted = false;
    let mut rest = values;
    'values: while let [first, others @ ..] = rest {
        trusted = says_something(first) && (trusted || names(first, path));
        rest = others;
    }
    trusted
}

/// Whether a value isn't empty.
fn says_something(value: &[u8]) -> bool
    ensures { result ≡ not (length value.now == 0) }
{
    !value.is_empty()
}

/// Whether a value names a path.
fn names(value: &[u8], path: &[u8]) -> bool
    ensures { result ≡ names path.now value.now }
{
    !value.is_empty() && (value == b"*".as_slice() || value == path)
}

/// The paths that `safe.directory` says.
pub(crate) fn safe_directories<F>(
    alloc: Global,
    config: &Config,
    around: &Surroundings,
) -> Result<Vec<Vec<u8>>, OpenFault<F>> {
    let mut paths = Vec::new(alloc);
    for setting in &config.entries_of(alloc, b"safe.directory")? {
        let value = bytes_of(setting.entry.value);
        match expanded(alloc, around, around.home.as_deref(), value)? {
            Some(path) => paths.push(path)?,
            None => return Err(OpenFault::NoFolder(Vec::from_slice(alloc, value)?)),
        }
    }
    Ok(paths)
}

/// Whether `safe.bareRepository` is `explicit`: a bare repository is then taken only where `GIT_DIR` names it.
pub(crate) fn is_bare_refused<F>(alloc: Global, config: &Config) -> Result<bool, OpenFault<F>> {
    let mut refused = false;
    for setting in &config.entries_of(alloc, b"safe.barerepository")? {
        refused = match bytes_of(setting.entry.value) {
            b"explicit" => true,
            b"all" => false,
            _ => {
                let key = Vec::from_slice(alloc, b"safe.barerepository")?;
                return Err(entry_fault(alloc, key, setting)?);
            }
        };
    }
    Ok(refused)
}
