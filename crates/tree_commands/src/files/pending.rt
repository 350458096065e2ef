//! What is still to be visited of a listing.
ghost use Rattle.std.specs.Prelude.{◌≡◌, ◌↔◌, IsTrue, OnOk, map};
ghost use Rattle.std.specs.Vec.{vec_items};
ghost use Rattle.tree_commands.specs.Private.Listing.{EndsWith, PutsInOrder};

use std::alloc::AllocError;

/// A path that is still to be visited.
#[derive(Drop)]
pub(crate) struct Pending {
    /// The path, with a slash at its end where it is a folder's; no bytes for the top.
    pub(crate) path: Vec<u8>,
    /// How many of the lists decide about what lies beside it.
    pub(crate) list_count: usize,
    /// Whether a folder above it is ignored, where ignored paths are chosen. Then no list decides about it.
    pub(crate) is_below: bool,
}

/// Puts each of the paths once behind those that are pending, so that the least of them comes last.
pub(crate) fn put_in_order(
    pending: &mut Vec<Pending>,
    mut paths: Vec<Vec<u8>>,
    list_count: usize,
    is_below: bool,
) -> Result<(), AllocError>
    ensures { OnOk result (PutsInOrder (map vec_items paths.items) list_count is_below pending.old.items pending.new.items) }
{
    paths.sort_unstable();
    'paths: while let Some(path) = paths.pop() {
        if !is_last(&paths, &path) {
            pending.push(Pending {
                path,
                list_count,
                is_below,
            })?;
        }
    }
    Ok(())
}

/// Whether a path is the last one of some.
fn is_last(paths: &[Vec<u8>], path: &[u8]) -> bool
    ensures { IsTrue result ↔ EndsWith (map vec_items paths.now) path.now }
{
    match paths.last() {
        Some(last) => last.as_slice() == path,
        None => false,
    }
}
