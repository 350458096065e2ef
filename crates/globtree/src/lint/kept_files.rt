//! The ignore files of a work tree, kept as a listing reads them.
ghost use Rattle.std.specs.Prelude.{◌≡◌, IfOk, option_map};
ghost use Rattle.std.specs.Vec.{vec_items};
ghost use Rattle.glob_trees.specs.Ways.{base_of_folder};

use crate::fault::Result;
use crate::lint::place::Place;
use crate::listing::{ended, source_of};
use crate::places::{at_top, from_root};
use crate::unread_file::what_is_unread;
use byte_streams::Watched;
use git_paths::enter;
use gix_glob::search::pattern::List;
use glob_lines::GitIgnoreLines;
use glob_lint::IgnoreFile;
use glob_trees::list_in_folder;
use std::alloc::{AllocError, Global};
use std::io;
use std::rt::{Clock, Env, Files};
use tree_answers::Form;
use tree_commands::files::choosing::{Chosen, Folders};
use tree_commands::files::mark::Mark;
use tree_commands::files::source::{EntryKind, FileSource, FolderNames};
use tree_commands::files::{Listing, run_files};
use tree_files::{CheckFault, TreeFiles, path_text};

/// The name of a folder's own file of patterns.
const IGNORE_FILE: &[u8] = b".gitignore";

/// A source whose folders alone stand for a listing, and which keeps each ignore file that the listing asks for.
#[derive(Drop)]
struct FolderSource<'a, R: Files + Clock + Eprint> {
    rt: &'a R,
    alloc: Global,
    source: TreeFiles<'a, R>,
    kept: KeptFiles,
}

/// Ignore files: file i is that of list i.
#[derive(Drop)]
pub(crate) struct KeptFiles {
    /// The list of each file, in the order in which they count; an empty one where the file isn't read.
    pub(crate) lists: Vec<List<GitIgnoreLines>>,
    pub(crate) files: Vec<IgnoreFile>,
}

/// The ignore files of the folders of a work tree that aren't ignored: of those above a folder, which is told from the top, and of those at and
/// below it.
pub(crate) fn keep_files<R: Files + Env + Clock + Eprint + AllocGlobal + Clone + Drop>(
    rt: &R,
    alloc: Global,
    place: &Place,
    folder: &[u8],
    shows_progress: bool,
) -> Result<KeptFiles> {
    let fronts = &place.fronts;
    let mut begin = from_root(alloc, &fronts.standpoint.top)?;
    begin.push(b'/')?;
    begin.extend_from_slice(folder)?;
    let listing = Listing {
        standpoint: at_top(&fronts.standpoint)?,
        form: Form::Records,
        mark: Mark::Bare,
        chosen: Chosen::Unignored,
        folders: Folders::Entered,
        fronts: Vec::new(alloc),
        case: place.case,
    };
    let mut source = FolderSource {
        rt,
        alloc,
        source: source_of(rt, alloc, fronts, shows_progress)?,
        kept: KeptFiles {
            lists: Vec::new(alloc),
            files: Vec::new(alloc),
        },
    };
    let mut nowhere = Watched::new(io::sink());
    let outcome = run_files(
        alloc,
        listing,
        &fronts.tracked,
        &mut source,
        &begin,
        &mut nowhere,
    );
    // what couldn't be read was told
    ended(alloc, &begin, outcome, source.source.end())?;
    Ok(source.kept)
}

impl KeptFiles {
    /// Keeps a file with its list.
    fn keep(&mut self, list: List<GitIgnoreLines>, file: IgnoreFile) -> Result<(), AllocError> {
        self.lists.push(list)?;
        self.files.push(file)?;
        Ok(())
    }
}

impl<'a, R: Files + Clock + Eprint> FolderSource<'a, R> {
    /// The list of a folder without patterns.
    fn no_list(&self, folder: &[u8]) -> Result<List<GitIgnoreLines>, AllocError>
        ensures based { IfOk result (λ list. option_map vec_items list.base ≡ base_of_folder folder.now) }
    {
        list_in_folder(self.alloc, List::empty(self.alloc), folder)
    }

    /// Keeps what stands in the place of a folder's file, which isn't read.
    fn keep_unread(
        &mut self,
        folder: &[u8],
        path: Vec<u8>,
        what: &'static str,
    ) -> Result<(), AllocError> {
        let file = IgnoreFile {
            path,
            bytes: Vec::new(self.alloc),
            unread: Some(what),
        };
        let list = self.no_list(folder)?;
        self.kept.keep(list, file)
    }

    /// Keeps the file of a list, where it was read.
    fn keep_read(&mut self, list: &List<GitIgnoreLines>, path: Vec<u8>) -> Result<(), AllocError> {
        if list.source.is_none() {
            return Ok(());
        }
        let file = IgnoreFile {
            path,
            bytes: Vec::from_slice(self.alloc, self.source.last_bytes())?,
            unread: None,
        };
        self.kept.keep(list.clone()?, file)
    }
}

impl<'a, R: Files + Clock + Eprint> FileSource for FolderSource<'a, R> {
    type Fault = CheckFault;

    ghost shows = { λ _ _. ⊥ };

    ghost asked = { λ _ _. ⊥ };

    fn names(&mut self, folder: &[u8]) -> Result<FolderNames, CheckFault> {
        self.source.names(folder)
    }

    fn has_git(&mut self, folder: &[u8]) -> Result<bool, CheckFault> {
        self.source.has_git(folder)
    }

    fn kind(&mut self, path: &[u8]) -> Result<Option<EntryKind>, CheckFault> {
        match self.source.kind(path)? {
            Some(EntryKind::Folder) => Ok(Some(EntryKind::Folder)),
            _ => Ok(None),
        }
    }

    fn list_of(&mut self, folder: &[u8]) -> Result<List<GitIgnoreLines>, CheckFault> {
        let mut path = Vec::from_slice(self.alloc, folder)?;
        enter(&mut path, IGNORE_FILE)?;
        let name = path_text(self.alloc, &path)?;
        if let Some(what) = what_is_unread(self.rt, name.as_str()) {
            self.keep_unread(folder, path, what)?;
            return Ok(self.no_list(folder)?);
        }
        let list = self.source.list_of(folder)?;
        self.keep_read(&list, path)?;
        Ok(list)
    }

    fn no_folder(&mut self, path: &[u8]) -> Result<(), CheckFault> {
        self.source.no_folder(path)
    }
}
