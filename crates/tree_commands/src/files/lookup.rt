//! The index, as paths are looked up in it.
ghost use Rattle.tree_commands.specs.Private.FoldedPaths.{AreOf};

use git_index::{FoldedPaths, Index};

/// The index, and its paths without case where case doesn't count.
#[derive(Clone, Copy)]
pub(crate) struct Lookup<'a> {
    pub(crate) index: &'a Index,
    pub(crate) folded: Option<&'a FoldedPaths>,
    // They are those of the index.
    ghost fits: { AreOf folded index.now },
}
