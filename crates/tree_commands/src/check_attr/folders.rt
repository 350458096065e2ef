//! Where the attribute files of folders come from.

/// A source of the attribute file of each folder below the top of a work tree.
///
/// A folder is named by its path from the top, without a slash at its end.
pub trait AttributeFolders: Drop {
    ghost use Rattle.std.specs.Prelude.{ℕ, List, Option, None, Some, IfOk, if◌then◌else◌};
    ghost use Rattle.glob_trees.specs.Ways.{Folder};
    ghost use Rattle.tree_commands.specs.CheckAttr.{ShowsSame};

    /// Why a file could not be had.
    type Fault: Drop;

    // What may be found at a folder's path: the bytes of its file, or `None` where no folder stands there. Of real files nothing is known, so
    // a source of these allows all.
    ghost shows: { Self → Folder → Option (List ℕ) → Type 0 };

    /// Reads the attribute file of a folder into the bytes, in place of what they held: none where it has no file. It answers whether a
    /// folder stands there that can be looked into; what the bytes hold where none does doesn't count.
    ///
    /// # Errors
    /// Where that could not be told, or the file not be read.
    fn read_file(&mut self, folder: &[u8], bytes: &mut Vec<u8>) -> Result<bool, Self::Fault>
        ensures shown { IfOk result (λ is_there. shows self.new folder.now (if is_there then Some bytes.new.items else None)) }
        // What the source shows doesn't change.
        ensures stays { ShowsSame (shows self.new) (shows self.old) };
}
