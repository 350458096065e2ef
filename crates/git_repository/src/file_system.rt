//! What the search asks of a file system.

use git_config::UserFolder;
use std::alloc::AllocError;

/// What a file or a link holds.
#[derive(Debug, PartialEq, Eq, Drop)]
pub enum Held {
    /// The text of a link.
    Link(Vec<u8>),
    /// The bytes of a file.
    Bytes(Vec<u8>),
}

/// What stands at paths. A path that doesn't begin with a slash is told from the current folder.
pub trait FileSystem {
    ghost use Rattle.std.specs.Prelude.{Bool, IfOk, List, ℕ};

    // What the source may say of whether a path belongs to the user who asks. Of real files nothing is known: it may say either.
    ghost owned: { Self → List ℕ → Bool → Type 0 };

    /// Whether a file of bytes stands there, where links are followed.
    ///
    /// # Errors
    /// Here and below only where memory was refused.
    fn is_file(&self, path: &[u8]) -> Result<bool, AllocError>;

    /// Whether anything stands there, be it a link that leads nowhere.
    fn is_there(&self, path: &[u8]) -> Result<bool, AllocError>;

    /// What stands there, where it is a link, or a file that can be read: `limit` bytes of it at most. A link isn't followed.
    fn held(&self, path: &[u8], limit: usize) -> Result<Option<Held>, AllocError>;

    /// The bytes of the file, `limit` of them at most, where links are followed; `None` where it can't be read.
    fn bytes(&self, path: &[u8], limit: usize) -> Result<Option<Vec<u8>>, AllocError>;

    /// Whether the folder can be entered, as `access` with `X_OK` answers.
    fn can_enter(&self, path: &[u8]) -> Result<bool, AllocError>;

    /// Whether the file may not be read by the user who asks, as `access` with `R_OK` answers `EACCES`.
    fn is_shut(&self, path: &[u8]) -> Result<bool, AllocError>;

    /// Why it can't be told what stands there, in the system's words; `None` where it can, be it that nothing does.
    fn hidden(&self, path: &[u8]) -> Result<Option<Vec<u8>>, AllocError>;

    /// Whether it is known who asks.
    fn knows_user(&self) -> bool;

    /// The users whose home folders are known.
    fn users(&self) -> Result<Vec<UserFolder>, AllocError>;

    /// Whether what stands there belongs to the user who asks. A link isn't followed.
    fn is_ours(&self, path: &[u8]) -> Result<bool, AllocError>
        ensures { IfOk result (owned self.now path.now) };

    /// The number of the device that the folder lies on.
    fn device(&self, path: &[u8]) -> Result<u64, AllocError>;

    /// The path from the root without links; `None` where it leads nowhere. Its last part may be missing.
    fn real_path(&self, path: &[u8]) -> Result<Option<Vec<u8>>, AllocError>;
}
