//! The ignore files of folders.
ghost use Rattle.std.specs.Prelude.{◌≡◌, IfOk, codes};
ghost use Rattle.gix_glob.specs.EntryLists.{entry_list_of};
ghost use Rattle.git_paths.specs.Paths.{below};
ghost use Rattle.tree_files.specs.FileLists.{IsOfFolder, IsSpelled};
ghost use Rattle.tree_files.specs.Indexed.{is_indexed};

use crate::closed_folders::ClosedFolders;
use crate::fault::CheckFault;
use crate::indexed_files::IndexedFiles;
use crate::seen_files::seen_file_list;
use crate::standing::{OwnFile, Standing, file_in, own_file, path_text, what_stands};
use gix_glob::search::pattern::List;
use glob_lines::GitIgnoreLines;
use glob_trees::{FolderLists, list_in_folder};
use std::alloc::Global;
use std::rt::Files;
use system_files::Sight;

/// The name of a folder's own file of patterns.
pub(crate) const IGNORE_FILE: &str = ".gitignore";

/// The ignore files of the folders below the one that the program stands in.
#[derive(Drop)]
pub struct FolderFiles<'a, R> {
    rt: &'a R,
    alloc: Global,
    /// The bytes of the file that was read last.
    bytes: Vec<u8>,
    closed: ClosedFolders,
    indexed: &'a IndexedFiles,
    refuses_links: bool,
}

impl<'a, R> FolderFiles<'a, R> {
    /// None was read yet. Where one of those that are in the index isn't in the work tree, a list of its folder is a fault.
    pub fn new(rt: &'a R, alloc: Global, indexed: &'a IndexedFiles) -> FolderFiles<'a, R> {
        FolderFiles {
            rt,
            alloc,
            bytes: Vec::new(alloc),
            closed: ClosedFolders::new(alloc),
            indexed,
            refuses_links: true,
        }
    }

    /// The same for paths that are tracked: a link that stands in the place of a folder now is followed.
    pub fn of_tracked(rt: &'a R, alloc: Global, indexed: &'a IndexedFiles) -> FolderFiles<'a, R> {
        let mut files = FolderFiles::new(rt, alloc, indexed);
        files.refuses_links = false;
        files
    }
}

impl<'a, R: Files + Eprint> FolderFiles<'a, R> {
    /// Whether the index has the file of a folder, in the work tree or not.
    pub(crate) fn is_indexed(&self, folder: &[u8]) -> bool
        ensures { result ≡ is_indexed self.now.indexed.now folder.now }
    {
        self.indexed.has(folder)
    }

    /// The bytes of the file that was read last.
    pub(crate) fn last_bytes(&self) -> &[u8] {
        &self.bytes
    }

    /// Refuses a folder whose file the index alone has.
    pub(crate) fn check_indexed(&self, folder: &[u8]) -> Result<(), CheckFault> {
        self.indexed.check(self.rt, folder, IGNORE_FILE, u64::MAX)
    }

    /// The list of a folder that isn't known to be missing, without its base.
    fn own_list(&mut self, folder: &[u8]) -> Result<List<GitIgnoreLines>, CheckFault>
        ensures { IfOk result (λ list. IsOfFolder folder.now (entry_list_of {V = Unit {0}} (λ _. tt) list)) }
    {
        let name = path_text(self.alloc, folder)?;
        match what_stands(self.rt, self.alloc, name.as_str())? {
            Standing::Link if self.refuses_links => Err(CheckFault::BeyondLink(name)),
            Standing::Nothing => {
                self.closed.miss(folder)?;
                Ok(List::empty(self.alloc))
            }
            Standing::Unseen => {
                self.closed.shut(folder)?;
                Ok(List::empty(self.alloc))
            }
            Standing::Folder | Standing::Link => self.file_list(folder, name.as_str()),
        }
    }

    /// The list of the file of a folder that is there.
    fn file_list(&mut self, folder: &[u8], name: &str) -> Result<List<GitIgnoreLines>, CheckFault>
        ensures { IfOk result (λ list. IsSpelled (below name.now (codes ".gitignore")) (entry_list_of {V = Unit {0}} (λ _. tt) list)) }
    {
        let file = file_in(self.alloc, name, IGNORE_FILE)?;
        match own_file(self.rt, self.alloc, file.as_str())? {
            OwnFile::Found(found) => {
                let seen = Sight::of(&found);
                seen_file_list(
                    self.rt,
                    self.alloc,
                    file,
                    &seen,
                    &mut self.bytes,
                    GitIgnoreLines,
                )
            }
            OwnFile::Nothing => Ok(List::empty(self.alloc)),
            OwnFile::Shut => {
                self.closed.shut(folder)?;
                Ok(List::empty(self.alloc))
            }
        }
    }
}

impl<'a, R: Files + Eprint> FolderLists<GitIgnoreLines> for FolderFiles<'a, R> {
    type Fault = CheckFault;

    ghost shows = { λ _ _. IsOfFolder };

    ghost gave = { λ _ _. ⊥ };

    fn list_of(&mut self, folder: &[u8]) -> Result<List<GitIgnoreLines>, CheckFault> {
        self.check_indexed(folder)?;
        let list = if self.closed.contain(folder) {
            List::empty(self.alloc)
        } else {
            self.own_list(folder)?
        };
        Ok(list_in_folder(self.alloc, list, folder)?)
    }

    // what can't be looked at was told, and isn't told again
    fn forget(&mut self) {}
}
