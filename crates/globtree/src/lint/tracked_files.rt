//! Which lines of ignore files decide that tracked files are ignored, which stay tracked all the same.

use crate::fault::Result;
use crate::lint::place::Place;
use git_index::{Entry, Kind};
use git_repository::ShellWord;
use gix_glob::search::pattern::List;
use glob_lines::GitIgnoreLines;
use glob_lint::TrackedFiles;
use glob_lists::{RepositoryPath, Rules};
use glob_trees::{FolderLists, Tree, TreeFault, list_in_folder};
use std::alloc::Global;
use tree_files::{CheckFault, folder_path};

/// The lists of folders that were read before. Any other folder has no patterns.
#[derive(Drop)]
struct ReadLists<'a> {
    alloc: Global,
    /// The lists in the order of their bases.
    lists: &'a [List<GitIgnoreLines>],
}

impl<'a> FolderLists<GitIgnoreLines> for ReadLists<'a> {
    type Fault = CheckFault;

    ghost shows = { λ _ _ _ _. Unit {0} };

    ghost gave = { λ _ _. ⊥ };

    fn list_of(&mut self, folder: &[u8]) -> Result<List<GitIgnoreLines>, CheckFault> {
        let list = match self.list_at(folder)? {
            Some(list) => list.clone()?,
            None => List::empty(self.alloc),
        };
        Ok(list_in_folder(self.alloc, list, folder)?)
    }

    // what was read is kept
    fn forget(&mut self) {}
}

impl<'a> ReadLists<'a> {
    /// The list of a folder, where one was read.
    fn list_at(&self, folder: &[u8]) -> Result<Option<&'a List<GitIgnoreLines>>, CheckFault> {
        let base = if folder.is_empty() {
            Vec::new(self.alloc)
        } else {
            folder_path(self.alloc, folder)?
        };
        let lists = self.lists;
        Ok(place_of(lists, &base).and_then(|place| lists.get(place)))
    }
}

/// The place of the list with this base.
fn place_of(lists: &[List<GitIgnoreLines>], base: &[u8]) -> Option<usize> {
    lists.binary_search_by(|list| base_of(list).cmp(base)).ok()
}

/// The base of a list; no bytes where it has none.
fn base_of(list: &List<GitIgnoreLines>) -> &[u8] {
    match &list.base {
        Some(base) => base,
        None => b"",
    }
}

/// A tracked path that a line ignores.
#[derive(Clone, Copy, Debug, PartialEq, Eq, PartialOrd, Ord)]
struct Hit {
    /// The place of the line's list.
    list: usize,
    /// The place of the line in its list.
    line: usize,
    /// The place of the path among the entries of the index.
    entry: usize,
}

/// Of each line that ignores tracked paths how many these are, and what takes the first one out of the index.
pub(crate) fn tracked_files(
    alloc: Global,
    place: &Place,
    lists: &[List<GitIgnoreLines>],
) -> Result<Vec<TrackedFiles>> {
    let entries = place.fronts.tracked.entries();
    let mut hits = hits_in(alloc, place, lists, entries)?;
    hits.sort_unstable();
    let mut files: Vec<TrackedFiles> = Vec::new(alloc);
    'hits: for hit in &hits {
        let pair = (hit.list, hit.line);
        if count_more(&mut files, pair) {
            continue;
        }
        let advice = match entries.get(hit.entry) {
            Some(entry) => advice_on(alloc, place, entry)?,
            None => continue,
        };
        files.push(TrackedFiles {
            pair,
            count: 1,
            advice,
        })?;
    }
    Ok(files)
}

/// Counts a path more of the last line, where it is this one.
fn count_more(files: &mut [TrackedFiles], pair: (usize, usize)) -> bool {
    match files.last_mut() {
        Some(last) if last.pair == pair => {
            last.count = last.count.saturating_add(1);
            true
        }
        _ => false,
    }
}

/// What takes an entry out of the index, as a command that is called in the current folder.
fn advice_on(alloc: Global, place: &Place, entry: &Entry) -> Result<Vec<u8>> {
    let mut seen = Vec::new(alloc);
    place
        .fronts
        .standpoint
        .append_seen(&mut seen, entry.path.as_slice())?;
    let word = ShellWord(&seen);
    let advice = format!(in alloc; "git rm --cached {word}")?;
    Ok(Vec::from_slice(alloc, advice.as_str().as_bytes())?)
}

/// The tracked paths that lines ignore, each once.
fn hits_in(
    alloc: Global,
    place: &Place,
    lists: &[List<GitIgnoreLines>],
    entries: &[Entry],
) -> Result<Vec<Hit>> {
    let mut hits = Vec::new(alloc);
    let source = ReadLists { alloc, lists };
    let fronts = Vec::new(alloc);
    let Some(mut tree) = Tree::new(alloc, source, fronts, Rules::by_git(place.case)) else {
        return Err(CheckFault::Base.into());
    };
    let mut last: &[u8] = b"";
    'entries: for (at, entry) in entries.iter().enumerate() {
        let path = entry.path.as_slice();
        // (in a merge a path may have several stages)
        if path == last || !place.holds(path) {
            continue;
        }
        last = path;
        if let Some((list, line)) = ignoring_line(&mut tree, lists, entry)? {
            hits.push(Hit {
                list,
                line,
                entry: at,
            })?;
        }
    }
    Ok(hits)
}

/// The line that ignores an entry's path.
fn ignoring_line(
    tree: &mut Tree<GitIgnoreLines, ReadLists<'_>>,
    lists: &[List<GitIgnoreLines>],
    entry: &Entry,
) -> Result<Option<(usize, usize)>> {
    let is_folder = entry.kind == Kind::Submodule;
    let Some(path) = RepositoryPath::new(entry.path.as_slice(), is_folder) else {
        return Ok(None);
    };
    let pair = match tree.find(&path) {
        Ok(Some(pair)) => pair,
        Ok(None) => return Ok(None),
        Err(TreeFault::Memory) => return Err(CheckFault::Memory.into()),
        Err(TreeFault::Source(fault)) => return Err(fault.into()),
    };
    match tree.decision(pair) {
        Some(decision) if !decision.mapping.pattern.is_negative() => {
            let list = place_of(lists, base_of(decision.list));
            Ok(list.map(|list| (list, pair.1)))
        }
        _ => Ok(None),
    }
}
