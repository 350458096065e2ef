//! What stands at paths, which is asked where an answer depends on it.
ghost use Rattle.std.specs.Prelude.{◌≡◌, ◌+◌, IfErr, IfOk, IfSome, MatchOption, length};
ghost use Rattle.tree_commands.specs.CheckIgnore.{IsLeftBehindTop, NoTopBefore};
ghost use Rattle.tree_commands.specs.Private.Faults.{IsOfSources};

use crate::check_ignore::fault::IgnoreFault;

/// A source of what stands at the paths of a work tree.
///
/// A path is told from the top, if nothing else is said, without a slash at its end.
pub trait PathKinds {
    ghost use Rattle.std.specs.Prelude.{◌≡◌, IfOk, IfSome};
    ghost use Rattle.tree_commands.specs.CheckIgnore.{Known};

    /// Why there is no answer.
    type Fault: Drop;

    // What is known of paths. Of files nothing is, so a source of files has `nothing_known`.
    ghost known: { Self → Known };

    /// Whether a folder stands at a path, and no link to one.
    ///
    /// # Errors
    /// Where that can't be told.
    fn is_folder(&mut self, path: &[u8]) -> Result<bool, Self::Fault>
        ensures told { IfOk result (λ is_folder. IfSome ((known self.old).kind_of path.now) (λ kind. is_folder ≡ kind)) }
        ensures kept { known self.new ≡ known self.old };

    /// Refuses a folder that is a link: what lies below it is none of the work tree. It answers whether a folder stands there, so that
    /// one can lie below it.
    ///
    /// # Errors
    /// Where it is a link, and where that can't be told.
    fn check_folder(&mut self, folder: &[u8]) -> Result<bool, Self::Fault>
        ensures { known self.new ≡ known self.old };

    /// Whether a folder that is told from the root, without the slash at its front, is the top, where links are followed.
    ///
    /// # Errors
    /// Where that can't be told.
    fn is_top(&mut self, folder: &[u8]) -> Result<bool, Self::Fault>
        ensures told { IfOk result (λ is_top. IfSome ((known self.old).is_top folder.now) (λ is. is ≡ is_top)) }
        ensures kept { known self.new ≡ known self.old };
}

/// Whether a folder stands at a path.
pub(crate) fn is_folder<K: PathKinds>(
    kinds: &mut K,
    path: &[u8],
) -> Result<bool, IgnoreFault<K::Fault>>
    ensures told { IfOk result (λ is_folder. IfSome ((K.known kinds.old).kind_of path.now) (λ kind. is_folder ≡ kind)) }
    ensures kept { K.known kinds.new ≡ K.known kinds.old }
    ensures faults { IfErr result IsOfSources }
{
    match kinds.is_folder(path) {
        Ok(is_folder) => Ok(is_folder),
        Err(fault) => Err(IgnoreFault::Source(fault)),
    }
}

/// Refuses a folder that is a link. It answers whether a folder stands there.
pub(crate) fn check_folder<K: PathKinds>(
    kinds: &mut K,
    folder: &[u8],
) -> Result<bool, IgnoreFault<K::Fault>>
    ensures kept { K.known kinds.new ≡ K.known kinds.old }
    ensures faults { IfErr result IsOfSources }
{
    match kinds.check_folder(folder) {
        Ok(is_folder) => Ok(is_folder),
        Err(fault) => Err(IgnoreFault::Source(fault)),
    }
}

/// Whether a folder that is told from the root is the top.
fn is_top<K: PathKinds>(kinds: &mut K, folder: &[u8]) -> Result<bool, IgnoreFault<K::Fault>>
    ensures told { IfOk result (λ is_top. IfSome ((K.known kinds.old).is_top folder.now) (λ is. is ≡ is_top)) }
    ensures kept { K.known kinds.new ≡ K.known kinds.old }
    ensures faults { IfErr result IsOfSources }
{
    match kinds.is_top(folder) {
        Ok(is_top) => Ok(is_top),
        Err(fault) => Err(IgnoreFault::Source(fault)),
    }
}

/// What is left of a path from the root behind the first of its folders that is the top; nothing, where the path itself is. `None` where
/// none is, and the path isn't.
#[tactic(auto, using(crate::proofs::lemmas::BehindTopLemmas::none_yet, crate::proofs::lemmas::BehindTopLemmas::none_more, crate::proofs::lemmas::BehindTopLemmas::none_by_name, crate::proofs::lemmas::BehindTopLemmas::left_behind))]
pub(crate) fn left_behind_top<'p, K: PathKinds>(
    kinds: &mut K,
    path: &'p [u8],
) -> Result<Option<&'p [u8]>, IgnoreFault<K::Fault>>
    ensures left { IfOk result (λ left. MatchOption left (NoTopBefore (K.known kinds.old).is_top path.entry.now (length path.entry.now + 1))
        (λ left. IsLeftBehindTop (K.known kinds.old).is_top path.entry.now left.now)) }
    ensures kept { K.known kinds.new ≡ K.known kinds.old }
    ensures faults { IfErr result IsOfSources }
{
    'folders: for (end, byte) in path.iter().enumerate() {
        if *byte == b'/' && is_top(kinds, &path[..end])? {
            return Ok(Some(&path[end + 1..]));
        }
    }
    if is_top(kinds, path)? {
        return Ok(Some(&path[path.len()..]));
    }
    Ok(None)
}
