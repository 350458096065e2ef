//! The lists on the way to a path: those of the files of excludes, then that of each folder, also below an ignored one.

use crate::fault::Result;
use crate::fronts::Fronts;
use crate::unread_file::what_is_unread;
use gix_glob::search::pattern::List;
use glob_lines::GitIgnoreLines;
use glob_trees::{FolderLists, list_in_folder};
use std::alloc::Global;
use std::rt::Files;
use tree_commands::check_ignore::PathKinds;
use tree_files::{FileKinds, FolderFiles, path_text};

/// The lists on the way to a path.
#[derive(Drop)]
pub(crate) struct ListsOnWay<'a, R> {
    rt: &'a R,
    alloc: Global,
    files: FolderFiles<'a, R>,
    /// How many of the lists are those of files of excludes.
    pub(crate) fronts: usize,
    pub(crate) lists: Vec<List<GitIgnoreLines>>,
    /// The ignore files on the way that aren't read, and what each is.
    pub(crate) unread: Vec<(String, &'static str)>,
}

impl<'a, R: Files + Eprint> ListsOnWay<'a, R> {
    /// The lists before those of all folders.
    pub(crate) fn new(rt: &'a R, alloc: Global, fronts: &'a Fronts) -> Result<ListsOnWay<'a, R>> {
        let mut lists = Vec::new(alloc);
        'lists: for list in &fronts.lists {
            lists.push(list.list().clone()?)?;
        }
        Ok(ListsOnWay {
            rt,
            alloc,
            files: FolderFiles::new(rt, alloc, &fronts.indexed),
            fronts: lists.len(),
            lists,
            unread: Vec::new(alloc),
        })
    }

    /// Reads those of the folders on the way to a path, in place of those of the path before. A folder that is a link is a fault.
    pub(crate) fn read(&mut self, kinds: &mut FileKinds<'_, R>, path: &[u8]) -> Result<()> {
        self.lists.truncate(self.fronts);
        self.unread.clear();
        self.add(b"")?;
        'folders: for (end, byte) in path.iter().enumerate() {
            if *byte != b'/' {
                continue;
            }
            if !kinds.check_folder(&path[..end])? {
                return Ok(());
            }
            self.add(&path[..end])?;
        }
        Ok(())
    }

    /// Adds that of a folder.
    fn add(&mut self, folder: &[u8]) -> Result<()> {
        let name = path_text(self.alloc, folder)?;
        let slash = if folder.is_empty() { "" } else { "/" };
        let file = format!(in self.alloc; "{name}{slash}.gitignore")?;
        let list = match what_is_unread(self.rt, file.as_str()) {
            Some(why) => {
                self.unread.push((file, why))?;
                list_in_folder(self.alloc, List::empty(self.alloc), folder)?
            }
            None => self.files.list_of(folder)?,
        };
        self.lists.push(list)?;
        Ok(())
    }
}
