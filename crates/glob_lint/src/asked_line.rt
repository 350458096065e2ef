//! A line that is asked about, and what is known of the folders in which its paths lie.
ghost use Rattle.std.specs.Prelude.{◌≡◌, ◌∷◌, [], IsTrue};
ghost use Rattle.glob_lists.specs.Deciding.{HasEntryAt};
ghost use Rattle.glob_trees.specs.Trees.{HasNoneIgnored};
ghost use Rattle.glob_lint.specs.Private.Asking.{NoneIgnoredUpTo, base_at};
ghost use Rattle.glob_lint.specs.Seen.{seen};
ghost use Rattle.glob_lint.specs.Without.{lists_but};

use crate::asked::AskedLists;

/// A line that is asked about.
#[derive(Drop)]
pub(crate) struct AskedLine<'a, 'l> {
    pub(crate) asked: &'a AskedLists<'l>,
    /// The places of its list and of the line in it, both from 0.
    pub(crate) pair: (usize, usize),
    /// Whether it is known that no folder of the base of its list is ignored.
    pub(crate) is_free: bool,
    ghost free: { IsTrue is_free → HasNoneIgnored (seen asked.now.lists.now) asked.now.rules (base_at (seen asked.now.lists.now) pair.0) },
}

impl<'a, 'l> AskedLine<'a, 'l> {
    /// Up to which place of a path no folder above it is ignored, with the line and without it: where the path lies under the base of the
    /// list, and that is known of its folders, up to its end.
    pub(crate) fn known(&self, path: &[u8]) -> usize
        requires { HasEntryAt (seen self.now.asked.now.lists.now) self.now.pair }
        ensures with { NoneIgnoredUpTo (seen self.now.asked.now.lists.now) self.now.asked.now.rules path.now result }
        ensures without { NoneIgnoredUpTo (lists_but (self.now.pair ∷ []) 0 (seen self.now.asked.now.lists.now)) self.now.asked.now.rules path.now result }
    {
        let base = self.asked.base_of(self.pair.0);
        if self.is_free && path.starts_with(base) {
            base.len()
        } else {
            0
        }
    }
}
