//! Where the files of a configuration come from.

/// A file that was found. `B` holds bytes.
#[derive(Debug, PartialEq, Eq, Drop)]
pub struct FoundFile<B> {
    /// Its bytes.
    pub bytes: B,
    /// Its absolute path without links, from whose folder a condition is told that begins with `./`. In a file that has no condition nothing
    /// asks for it, so a source may leave it empty.
    pub real_path: B,
}

/// A source of files, by their paths.
pub trait ConfigFiles {
    ghost use Rattle.std.specs.Prelude.{IfOk, List, Option, ℕ, option_map};
    ghost use Rattle.std.specs.Vec.{vec_items};
    ghost use Rattle.git_config.specs.declared.files.FoundFile.{FoundFile};
    ghost use Rattle.git_config.specs.Items.{found_with};

    /// Why a file can't be read.
    type Fault: Drop;

    // What the source may answer for a path. Of files nothing is known, so a source of files allows each answer.
    ghost shows: { Self → List ℕ → Option (FoundFile (List ℕ)) → Type 0 };

    /// The file at a path; `None` where none is there. It is asked for each time that it is included, so a source that counts can refuse.
    ///
    /// # Errors
    /// Where the file is there and can't be read.
    fn find(&self, path: &[u8]) -> Result<Option<FoundFile<Vec<u8>>>, Self::Fault>
        ensures { IfOk result (λ found. shows self.now path.now (option_map (found_with vec_items) found)) };
}
