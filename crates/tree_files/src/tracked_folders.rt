//! In which folders tracked paths lie: with case, or without.
ghost use Rattle.std.specs.Prelude.{◌≡◌, ◌↔◌, IsTrue};
ghost use Rattle.tree_commands.specs.Lookups.{HasEntryBelow};
ghost use Rattle.tree_commands.specs.Private.FoldedPaths.{AreFoldedBy, AreOf, case_by};
ghost use Rattle.gix_glob.specs.declared.pattern.Case.{Case};

use git_index::{FoldedPaths, Index};

/// The index, and its paths without case where case doesn't count.
#[derive(Clone, Copy)]
pub struct TrackedFolders<'a> {
    index: &'a Index,
    folded: Option<&'a FoldedPaths>,
    // They are those of the index.
    ghost fits: { AreOf folded index.now },
}

impl<'a> TrackedFolders<'a> {
    /// Those of an index, and of its paths without case where case doesn't count.
    pub fn new(index: &'a Index, folded: &'a Option<FoldedPaths>) -> TrackedFolders<'a>
        requires { (case : Case) × AreFoldedBy case folded.now index.now }
        ensures index { result.index.now ≡ index.entry.now }
        ensures case { (case : Case) → AreFoldedBy case folded.now index.now → case_by result.folded ≡ case }
    {
        TrackedFolders {
            index,
            folded: folded.as_ref(),
        }
    }

    /// Whether a tracked path lies in a folder.
    pub(crate) fn have(&self, folder: &[u8]) -> bool
        ensures { IsTrue result ↔ HasEntryBelow (record { case = case_by self.now.folded; entries = self.now.index.now }) folder.now }
    {
        match self.folded {
            Some(folded) => folded.has_below(folder),
            None => self.index.has_below(folder),
        }
    }
}
