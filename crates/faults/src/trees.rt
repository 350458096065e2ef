//! Trees whose source fails: the fault is told, and the next call answers right.
use crate::compare::same;
use crate::lists::list_of;
use gix_glob::pattern::Case;
use gix_glob::search::pattern::List;
use glob_lines::LabelLines;
use glob_lists::{RepositoryPath, Rules};
use glob_trees::{FolderLists, Tree, TreeFault, list_in_folder};
use std::alloc::{AllocError, Global};
use std::process::Abort;
use std::test::Fail;

/// Why the source has no list.
#[derive(Clone, Copy, PartialEq)]
pub(crate) enum SourceFault {
    /// It is the call that fails.
    Broken,
    /// Memory was refused.
    Memory,
}

/// A source of which one call fails.
#[derive(Drop)]
pub(crate) struct Failing {
    alloc: Global,
    calls: usize,
    /// The number of the call that fails, from 1.
    fails_at: usize,
}

impl Failing {
    /// A source whose call of this number fails; none does where the number is 0.
    pub(crate) fn at(alloc: Global, fails_at: usize) -> Failing {
        Failing {
            alloc,
            calls: 0,
            fails_at,
        }
    }

    /// The list of a folder, with the lines of its ignore file.
    fn read(&self, folder: &[u8]) -> Result<List<LabelLines>, AllocError> {
        let lines: &[u8] = match folder {
            b"" => b"x\n",
            b"a" => b"!x\n",
            b"a/b" => b"x\n",
            _ => b"",
        };
        list_of(self.alloc, lines)
    }
}

impl FolderLists<LabelLines> for Failing {
    type Fault = SourceFault;

    ghost shows = { λ _ _ _ _. Unit {0} };

    ghost gave = { λ _ _. ⊥ };

    fn list_of(&mut self, folder: &[u8]) -> Result<List<LabelLines>, SourceFault> {
        self.calls = self.calls.saturating_add(1);
        if self.calls == self.fails_at {
            return Err(SourceFault::Broken);
        }
        let Ok(list) = self.read(folder) else {
            return Err(SourceFault::Memory);
        };
        list_in_folder(self.alloc, list, folder).map_err(|_| SourceFault::Memory)
    }

    fn forget(&mut self) {}
}

/// The tree of the source whose call of this number fails.
pub(crate) fn tree_of(alloc: Global, fails_at: usize) -> Result<Tree<LabelLines, Failing>, Fail> {
    let source = Failing::at(alloc, fails_at);
    let rules = Rules::by_crate(Case::Sensitive);
    Ok(Tree::new(alloc, source, Vec::new(alloc), rules).ok_or("a tree")?)
}

/// Which pattern decides about the path of a line.
pub(crate) fn answer_of(
    tree: &mut Tree<LabelLines, Failing>,
    line: &[u8],
) -> Result<Option<(usize, usize)>, TreeFault<SourceFault>> {
    match RepositoryPath::of_line(line) {
        Some(path) => tree.find(&path),
        None => Ok(None),
    }
}

/// Paths, and what decides about each.
const PATHS: &[(&[u8], Option<(usize, usize)>)] = &[
    (b"a/b/x", Some((2, 0))),
    (b"x", Some((0, 0))),
    (b"a/x", Some((1, 0))),
    (b"a/b/c", None),
];

/// Asks about paths, and once more where the source fails: how often it did. The row is the call that fails.
fn faults_told(rt: &(impl Abort + AllocGlobal), fails_at: usize) -> Result<u32, Fail> {
    let mut tree = tree_of(rt.alloc(), fails_at)?;
    let mut told = 0u32;
    for (line, wanted) in PATHS {
        let mut answer = answer_of(&mut tree, line);
        if answer == Err(TreeFault::Source(SourceFault::Broken)) {
            told = told.saturating_add(1);
            answer = answer_of(&mut tree, line);
        }
        same(rt, answer == Ok(*wanted), "what decides", fails_at);
    }
    Ok(told)
}

#[test]
fn the_call_after_a_fault_answers(rt: HostRuntime) -> Result<(), Fail> {
    for (fails_at, wanted) in [0, 1, 1, 1, 0].into_iter().enumerate() {
        let told = faults_told(&rt, fails_at)?;
        same(&rt, told == wanted, "how often a fault is told", fails_at);
    }
    Ok(())
}
