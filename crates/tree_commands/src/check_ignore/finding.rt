//! Which pattern decides about a path of the work tree.
ghost use Rattle.std.specs.Prelude.{◌≡◌, ◌↔◌, true, IfErr, IfOk, IfSome, IsTrue};
ghost use Rattle.gix_glob.specs.PatternParts.{mode_of};
ghost use Rattle.gix_glob.specs.Patterns.{is_for_directories};
ghost use Rattle.glob_lists.specs.Paths.{IsPlainPath};
ghost use Rattle.tree_commands.specs.Private.Faults.{IsOfSources};
ghost use Rattle.tree_commands.specs.Private.Finding.{IsFound, IsFoundAs, IsFoundForTop, KeepsTree, WantsFolder, lists_of};
ghost use Rattle.tree_commands.specs.Tops.{DecidesForTop};

use crate::check_ignore::fault::IgnoreFault;
use crate::check_ignore::kinds::{PathKinds, is_folder};
use crate::check_ignore::top::deciding_for_top;
use crate::check_ignore::unlinked::UnlinkedFolders;
use bitflags::Flags as _;
use gix_glob::Pattern;
use gix_glob::pattern::Mode;
use glob_lines::GitIgnoreLines;
use glob_lists::RepositoryPath;
use glob_trees::{FolderLists, Tree};

/// What finds the pattern that decides about a path.
#[derive(Drop)]
pub(crate) struct Finder<S: FolderLists<GitIgnoreLines>, K> {
    pub(crate) tree: Tree<GitIgnoreLines, S>,
    pub(crate) kinds: K,
    /// Folders that weren't entered, and are no links nor below one.
    pub(crate) unlinked: UnlinkedFolders,
}

impl<S: FolderLists<GitIgnoreLines> + Drop, K: PathKinds<Fault = S::Fault>> Finder<S, K> {
    /// Which pattern decides about a path, which may have a slash at its end; `bare` is the path without it. The source of kinds is asked
    /// whether a folder stands there where the answer depends on it.
    #[tactic(auto, using(crate::proofs::lemmas::FindingLemmas::found_without))]
    pub(crate) fn find(
        &mut self,
        path: &[u8],
        bare: &[u8],
    ) -> Result<Option<(usize, usize)>, IgnoreFault<S::Fault>>
        requires { IsPlainPath path.now }
        ensures found { IfOk result (IsFound (S.shows (Unit {0})) self.new.tree path.now ((K.known self.old.kinds).kind_of bare.now)) }
        ensures keeps { KeepsTree (S.shows (Unit {0})) self.old.tree self.new.tree }
        ensures kinds { K.known self.new.kinds ≡ K.known self.old.kinds }
        ensures faults { IfErr result IsOfSources }
    {
        let folder = RepositoryPath::from_plain(path, true);
        let pair = find_as(&mut self.tree, &folder)?;
        let is_told_folder = bare.len() < path.len();
        if is_told_folder || self.has_unseen_folder(&folder) || wants_folder(&self.tree, pair) {
            return self.find_by_looks(path, bare, pair);
        }
        Ok(pair)
    }

    /// Which pattern decides about the top.
    pub(crate) fn find_top(&mut self) -> Result<Option<(usize, usize)>, IgnoreFault<S::Fault>>
        ensures found { IfOk result (IsFoundForTop (S.shows (Unit {0})) self.new.tree) }
        ensures keeps { KeepsTree (S.shows (Unit {0})) self.old.tree self.new.tree }
        ensures kinds { K.known self.new.kinds ≡ K.known self.old.kinds }
        ensures faults { IfErr result IsOfSources }
    {
        let top = RepositoryPath::top();
        // so the list of the top is asked for; the answer isn't taken, for as Git has it no pattern for paths matches the top
        let _pair = find_as(&mut self.tree, &top)?;
        Ok(deciding_in(&self.tree))
    }

    /// Refuses a path of which a folder is a link; `bare` is the path without a slash at its end.
    pub(crate) fn check_links(
        &mut self,
        path: &[u8],
        bare: &[u8],
    ) -> Result<(), IgnoreFault<S::Fault>>
        ensures tree { self.new.tree ≡ self.old.tree }
        ensures kinds { K.known self.new.kinds ≡ K.known self.old.kinds }
        ensures faults { IfErr result IsOfSources }
    {
        let is_told_folder = bare.len() < path.len();
        self.unlinked
            .check_path(&mut self.kinds, bare, is_told_folder, 0)
    }

    /// Whether the folder of a path is neither one that the tree entered on its way, nor the one that was asked for last.
    fn has_unseen_folder(&self, path: &RepositoryPath<'_>) -> bool {
        let Some(start) = path.basename_start() else {
            return false;
        };
        start > self.tree.folder().len() && !self.unlinked.is_last(&path.bytes()[..start])
    }

    /// Which pattern decides about a path, if this one does where a folder stands there. The source of kinds is asked about links, and
    /// whether one does.
    #[inline(never)]
    #[tactic(auto, using(crate::proofs::lemmas::FindingLemmas::found_without))]
    fn find_by_looks(
        &mut self,
        path: &[u8],
        bare: &[u8],
        pair: Option<(usize, usize)>,
    ) -> Result<Option<(usize, usize)>, IgnoreFault<S::Fault>>
        requires plain { IsPlainPath path.now }
        requires as_folder { IsFoundAs (S.shows (Unit {0})) self.old.tree path.now true pair }
        ensures found { IfOk result (IsFound (S.shows (Unit {0})) self.new.tree path.now ((K.known self.old.kinds).kind_of bare.now)) }
        ensures keeps { KeepsTree (S.shows (Unit {0})) self.old.tree self.new.tree }
        ensures kinds { K.known self.new.kinds ≡ K.known self.old.kinds }
        ensures faults { IfErr result IsOfSources }
    {
        let entered = self.tree.folder().len();
        let is_told_folder = bare.len() < path.len();
        self.unlinked
            .check_path(&mut self.kinds, bare, is_told_folder, entered)?;
        if !wants_folder(&self.tree, pair) {
            return Ok(pair);
        }
        self.find_by_kind(path, bare)
    }

    /// Which pattern decides about a path, where one that is for folders alone may.
    #[tactic(auto, using(crate::proofs::lemmas::FindingLemmas::found_as, crate::proofs::lemmas::FindingLemmas::found_with, crate::proofs::lemmas::FindingLemmas::keeps_on))]
    fn find_by_kind(
        &mut self,
        path: &[u8],
        bare: &[u8],
    ) -> Result<Option<(usize, usize)>, IgnoreFault<S::Fault>>
        requires { IsPlainPath path.now }
        ensures found { IfOk result (IsFound (S.shows (Unit {0})) self.new.tree path.now ((K.known self.old.kinds).kind_of bare.now)) }
        ensures keeps { KeepsTree (S.shows (Unit {0})) self.old.tree self.new.tree }
        ensures kinds { K.known self.new.kinds ≡ K.known self.old.kinds }
        ensures faults { IfErr result IsOfSources }
    {
        let pair = find_as(&mut self.tree, &RepositoryPath::from_plain(path, false))?;
        if wants_folder(&self.tree, pair) {
            // it is for folders alone, so a folder above is ignored, and it decides whatever stands there
            return Ok(pair);
        }
        if !is_folder(&mut self.kinds, bare)? {
            return Ok(pair);
        }
        // the lists may have been asked for again, so that a pair from before may have no place in them
        find_as(&mut self.tree, &RepositoryPath::from_plain(path, true))
    }
}

/// Which pattern of a tree's lists decides about the top.
fn deciding_in<S: FolderLists<GitIgnoreLines> + Drop>(
    tree: &Tree<GitIgnoreLines, S>,
) -> Option<(usize, usize)>
    ensures { DecidesForTop (lists_of tree.now) tree.now.rules result }
{
    deciding_for_top(tree.lists(), tree.rules())
}

/// Which pattern decides about a path of this kind.
fn find_as<S: FolderLists<GitIgnoreLines> + Drop>(
    tree: &mut Tree<GitIgnoreLines, S>,
    path: &RepositoryPath<'_>,
) -> Result<Option<(usize, usize)>, IgnoreFault<S::Fault>>
    ensures found { IfOk result (IsFoundAs (S.shows (Unit {0})) tree.new path.now.bytes path.now.is_dir) }
    ensures keeps { KeepsTree (S.shows (Unit {0})) tree.old tree.new }
    ensures faults { IfErr result IsOfSources }
{
    match tree.find(path) {
        Ok(pair) => Ok(pair),
        Err(fault) => Err(IgnoreFault::from(fault)),
    }
}

/// Whether the pattern at a pair of places matches folders alone. Where it doesn't, it decides about a file, too.
#[tactic(auto, using(crate::proofs::lemmas::FindingLemmas::wanted_here, crate::proofs::lemmas::FindingLemmas::unwanted_nowhere))]
fn wants_folder<S: FolderLists<GitIgnoreLines> + Drop>(
    tree: &Tree<GitIgnoreLines, S>,
    pair: Option<(usize, usize)>,
) -> bool
    ensures { IsTrue result ↔ WantsFolder tree.now.lists pair }
{
    let Some(at) = pair else {
        return false;
    };
    match tree.decision(at) {
        Some(decision) => is_for_folders(&decision.mapping.pattern),
        None => false,
    }
}

/// Whether a pattern matches folders alone.
fn is_for_folders(pattern: &Pattern) -> bool
    ensures { result ≡ is_for_directories (mode_of pattern.now) }
{
    pattern.mode().contains(Mode::MUST_BE_DIR)
}
