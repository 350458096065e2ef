//! The lists of patterns that count before those of all folders, and the tree that they begin.
ghost use Rattle.std.specs.Prelude.{◌≡◌, ◌≢◌, ◌∷◌, [], IfOk, IfSome, length, map};
ghost use Rattle.gix_glob.specs.EntryLists.{entry_list_of};
ghost use Rattle.glob_lists.specs.Rules.{by_git};
ghost use Rattle.glob_trees.specs.Ways.{Folder};
ghost use Rattle.globtree.specs.Answers.{AreFronts, IsOfSomeFile, case_by};
ghost use Rattle.globtree.specs.Tracked.{IsOfIndex};

use crate::excludes::{excludes, named_excludes};
use crate::fault::Result;
use crate::index_use::{IndexUse, Taken, take_from_index};
use crate::moving::go_to_folders;
use crate::words::Options;
use crate::work_tree::{WorkTree, work_tree};
use git_index::Index;
use git_paths::{Quoting, Standpoint};
use git_repository::Purpose;
use gix_glob::pattern::Case;
use gix_glob::search::pattern::List;
use glob_lines::GitIgnoreLines;
use glob_lists::{PreparedList, Rules};
use glob_trees::{FolderLists, Tree};
use std::alloc::{AllocError, Global};
use std::rt::{Env, Files};
use tree_files::{CheckFault, IndexedFiles, path_text};

/// About how many bytes are kept of folders and their patterns.
const MOST_BYTES: usize = 24 << 20;

/// What counts for all paths.
#[derive(Drop)]
pub(crate) struct Fronts {
    /// Where paths are told from.
    pub(crate) standpoint: Standpoint,
    /// The lists before those of all folders, the weakest first.
    pub(crate) lists: Vec<PreparedList<GitIgnoreLines>>,
    /// Whether the configuration says that the case of letters doesn't count.
    pub(crate) folds: bool,
    /// Which names stand in quotes.
    pub(crate) quoting: Quoting,
    /// The paths that the index tracks, where it is read.
    pub(crate) tracked: Index,
    /// The folders whose ignore file Git takes from the index if the work tree hasn't it.
    pub(crate) indexed: IndexedFiles,
    /// The git folder of the repository, where there is one.
    pub(crate) git_folder: Option<Vec<u8>>,
}

/// Where a command stands before any file of excludes is read but one that is named.
#[derive(Drop)]
pub(crate) struct Ground {
    /// The work tree, whose top is the current folder.
    pub(crate) tree: WorkTree,
    /// The list of the file of excludes that an option names.
    pub(crate) named: Option<List<GitIgnoreLines>>,
    /// Whether patterns count: else no file of excludes is read.
    pub(crate) counts: bool,
}

/// Goes to the top of the work tree, and reads the files that count before those of all folders.
pub(crate) fn fronts_of<R: Files + Env + Eprint + AllocGlobal>(
    rt: &R,
    alloc: Global,
    options: &Options<'_>,
    index: IndexUse,
) -> Result<Fronts>
    ensures tracked { IfOk result (λ fronts. IsOfIndex fronts.tracked) }
    ensures before { IfOk result (λ fronts. AreFronts (length fronts.lists.items) (map (entry_list_of (λ _. tt)) fronts.lists.items)) }
    ensures unread { IfOk result (λ fronts. index ≢ IndexUse.Paths → fronts.tracked ≡ []) }
{
    let ground = ground_of(rt, alloc, options, Purpose::Paths)?;
    fronts_on(rt, alloc, ground, index)
}

/// Goes to the top of the work tree.
pub(crate) fn ground_of<R: Files + Env + AllocGlobal>(
    rt: &R,
    alloc: Global,
    options: &Options<'_>,
    purpose: Purpose,
) -> Result<Ground>
    ensures { IfOk result (λ ground. IfSome ground.named (λ list. IsOfSomeFile (entry_list_of (λ _. tt) list))) }
{
    go_to_folders(rt, alloc, options)?;
    let named = excludes_by_option(rt, alloc, options)?;
    let tree = work_tree(rt, alloc, options, purpose)?;
    Ok(Ground {
        tree,
        named,
        counts: true,
    })
}

/// Reads the files that count before those of all folders.
pub(crate) fn fronts_on<R: Files + Eprint>(
    rt: &R,
    alloc: Global,
    ground: Ground,
    index: IndexUse,
) -> Result<Fronts>
    requires { IfSome ground.named (λ list. IsOfSomeFile (entry_list_of (λ _. tt) list)) }
    ensures tracked { IfOk result (λ fronts. IsOfIndex fronts.tracked) }
    ensures before { IfOk result (λ fronts. AreFronts (length fronts.lists.items) (map (entry_list_of (λ _. tt)) fronts.lists.items)) }
    ensures unread { IfOk result (λ fronts. index ≢ IndexUse.Paths → fronts.tracked ≡ []) }
{
    let Ground {
        tree,
        named,
        counts,
    } = ground;
    let Taken { tracked, indexed } = take_from_index(rt, alloc, &tree.index, index)?;
    let WorkTree {
        standpoint,
        folds,
        quoting,
        excludes: file,
        own_excludes,
        git_folder,
        ..
    } = tree;
    let lists = lists_of(rt, alloc, counts, named, file, own_excludes)?;
    Ok(Fronts {
        standpoint,
        lists,
        folds,
        quoting,
        tracked,
        indexed,
        git_folder,
    })
}

/// The list of the file of excludes that an option names, where one does.
fn excludes_by_option<R: Files>(
    rt: &R,
    alloc: Global,
    options: &Options<'_>,
) -> Result<Option<List<GitIgnoreLines>>>
    ensures { IfOk result (λ named. IfSome named (λ list. IsOfSomeFile (entry_list_of (λ _. tt) list))) }
{
    match options.excludes {
        Some(name) => Ok(Some(named_excludes(rt, alloc, name)?)),
        None => Ok(None),
    }
}

/// The lists of the files of excludes that count before those of all folders. Where none counts, both are empty, and no file is read.
fn lists_of<R: Files + Eprint>(
    rt: &R,
    alloc: Global,
    counts: bool,
    named: Option<List<GitIgnoreLines>>,
    file: Option<Vec<u8>>,
    own: String,
) -> Result<Vec<PreparedList<GitIgnoreLines>>>
    requires { IfSome named (λ list. IsOfSomeFile (entry_list_of (λ _. tt) list)) }
    ensures { IfOk result (λ lists. AreFronts (length lists.items) (map (entry_list_of (λ _. tt)) lists.items)) }
{
    if !counts {
        return Ok(both(alloc, List::empty(alloc), List::empty(alloc))?);
    }
    let outer = outer_excludes(rt, alloc, named, file)?;
    let own = excludes(rt, alloc, own)?;
    Ok(both(alloc, outer, own)?)
}

/// The list that is named, or else that of the file of excludes for all repositories, where there is one.
fn outer_excludes<R: Files + Eprint>(
    rt: &R,
    alloc: Global,
    named: Option<List<GitIgnoreLines>>,
    file: Option<Vec<u8>>,
) -> Result<List<GitIgnoreLines>>
    requires { IfSome named (λ list. IsOfSomeFile (entry_list_of (λ _. tt) list)) }
    ensures { IfOk result (λ list. IsOfSomeFile (entry_list_of (λ _. tt) list)) }
{
    if let Some(list) = named {
        return Ok(list);
    }
    match file {
        Some(file) => excludes(rt, alloc, path_text(alloc, &file)?),
        None => Ok(List::empty(alloc)),
    }
}

/// Both lists, prepared, in this order.
fn both(
    alloc: Global,
    outer: List<GitIgnoreLines>,
    own: List<GitIgnoreLines>,
) -> Result<Vec<PreparedList<GitIgnoreLines>>, AllocError>
    ensures { IfOk result (λ lists. lists.items ≡ outer ∷ own ∷ []) }
{
    let mut lists = Vec::with_capacity(alloc, 2)?;
    lists.push(PreparedList::new(alloc, outer))?;
    lists.push(PreparedList::new(alloc, own))?;
    Ok(lists)
}

/// The tree in which the files of folders stand behind these lists.
pub(crate) fn tree_behind<S: FolderLists<GitIgnoreLines> + Drop>(
    alloc: Global,
    lists: Vec<PreparedList<GitIgnoreLines>>,
    source: S,
    case: Case,
) -> Result<Tree<GitIgnoreLines, S>>
    requires fresh { (folder : Folder) → ¬ S.gave source folder }
    ensures rules { IfOk result (λ tree. tree.rules ≡ by_git case) }
    ensures count { IfOk result (λ tree. tree.front_count ≡ length lists.items) }
    ensures before { IfOk result (λ tree. tree.lists ≡ lists.items) }
{
    let Some(mut tree) = Tree::new(alloc, source, lists, Rules::by_git(case)) else {
        return Err(CheckFault::Base.into());
    };
    tree.keep_at_most(MOST_BYTES);
    Ok(tree)
}

/// Whether the case of letters counts, by the options and by what the configuration says.
pub(crate) fn case_of(options: &Options<'_>, folds: bool) -> Case
    ensures { result ≡ case_by options.now folds }
{
    if options.ignore_case || folds {
        Case::Fold
    } else {
        Case::Sensitive
    }
}
