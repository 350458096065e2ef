//! The attribute files that don't depend on a path: the system's, the user's, the top's and the repository's own.
ghost use Rattle.std.specs.Prelude.{◌≡◌, [], IfOk, None};

use crate::fault::Result;
use crate::index_use::{IndexUse, Taken, take_from_index};
use crate::moving::go_to_folders;
use crate::words::Options;
use crate::work_tree::{WorkTree, work_tree};
use git_paths::{Quoting, Standpoint};
use git_repository::Purpose;
use std::alloc::Global;
use std::rt::{Env, Files};
use system_files::is_true;
use tree_commands::check_attr::OuterFiles;
use tree_files::{AttributeFiles, IndexedFiles, path_text};

/// The file of attributes for all users of the system.
const SYSTEM_FILE: &str = "/etc/gitattributes";
/// The variable that says whether that file is passed over.
const NO_SYSTEM: &str = "GIT_ATTR_NOSYSTEM";

/// The bytes of the files that are read before any path is asked for, and where paths are told from.
#[derive(Drop)]
pub(crate) struct OuterAttributes {
    pub(crate) standpoint: Standpoint,
    /// Whether the configuration says that the case of letters doesn't count.
    pub(crate) folds: bool,
    /// Which names stand in quotes.
    pub(crate) quoting: Quoting,
    system: Vec<u8>,
    user: Vec<u8>,
    top: Vec<u8>,
    info: Vec<u8>,
}

impl OuterAttributes {
    /// The files.
    pub(crate) fn files(&self) -> OuterFiles<'_>
        ensures outer { (result.system.now ≡ self.now.system.items) × (result.user.now ≡ self.now.user.items) }
        ensures own { (result.top.now ≡ self.now.top.items) × (result.info.now ≡ self.now.info.items) }
    {
        OuterFiles {
            system: &self.system,
            user: &self.user,
            top: &self.top,
            info: &self.info,
        }
    }
}

/// Goes to the top, and reads the files that don't depend on a path. It answers these, and the folders whose attribute file Git takes
/// from the index if the work tree hasn't it.
pub(crate) fn outer_attributes<R: Files + Env + Eprint + AllocGlobal>(
    rt: &R,
    alloc: Global,
    options: &Options<'_>,
) -> Result<(OuterAttributes, IndexedFiles)> {
    go_to_folders(rt, alloc, options)?;
    let none = IndexedFiles::none(alloc);
    let reader = AttributeFiles::new(rt, alloc, &none);
    let named_system = bytes_of_file(alloc, &reader, options.system.map(str::as_bytes))?;
    let named = bytes_of_file(alloc, &reader, options.attributes.map(str::as_bytes))?;
    let tree = work_tree(rt, alloc, options, Purpose::Paths)?;
    let Taken { indexed, .. } = take_from_index(rt, alloc, &tree.index, IndexUse::Attributes)?;
    let WorkTree {
        standpoint,
        folds,
        quoting,
        attributes,
        own_attributes,
        ..
    } = tree;
    let system = match options.system {
        Some(_name) => named_system,
        None => system_file(rt, alloc, &reader, options)?,
    };
    let user = match options.attributes {
        Some(_name) => named,
        None => bytes_of_file(alloc, &reader, attributes.as_deref())?,
    };
    let top = AttributeFiles::new(rt, alloc, &indexed).top()?;
    let info = reader.file(own_attributes)?;
    let outer = OuterAttributes {
        standpoint,
        folds,
        quoting,
        system,
        user,
        top,
        info,
    };
    Ok((outer, indexed))
}

/// The bytes of the file of all users of the system; none where the top is named, or the environment says so.
fn system_file<R: Files + Env + Eprint>(
    rt: &R,
    alloc: Global,
    reader: &AttributeFiles<'_, R>,
    options: &Options<'_>,
) -> Result<Vec<u8>> {
    if options.top.is_some() || is_true(rt, alloc, NO_SYSTEM)? {
        return Ok(Vec::new(alloc));
    }
    Ok(reader.file(String::from_str(alloc, SYSTEM_FILE)?)?)
}

/// The bytes of a file, where one is told; none where there is no such file.
fn bytes_of_file<R: Files + Eprint>(
    alloc: Global,
    reader: &AttributeFiles<'_, R>,
    file: Option<&[u8]>,
) -> Result<Vec<u8>>
    ensures { IfOk result (λ bytes. file.entry ≡ None → bytes.items ≡ []) }
{
    match file {
        Some(file) => Ok(reader.file(path_text(alloc, file)?)?),
        None => Ok(Vec::new(alloc)),
    }
}
