//! How objects are named in a repository.
ghost use Rattle.std.specs.Prelude.{◌≡◌};

/// The digest that names objects in a repository.
#[derive(Debug, Clone, Copy, PartialEq, Eq)]
pub enum ObjectFormat {
    /// SHA-1, of 20 bytes.
    Sha1,
    /// SHA-256, of 32 bytes.
    Sha256,
}

impl ObjectFormat {
    ghost use Rattle.git_index.specs.Format.{hash_len};

    /// How many bytes a digest has.
    pub fn hash_len(self) -> usize
        ensures { result ≡ hash_len self }
    {
        match self {
            ObjectFormat::Sha1 => 20,
            ObjectFormat::Sha256 => 32,
        }
    }
}
