//! In which way an element meets a path.
ghost use Rattle.std.specs.Prelude.{◌≡◌};
ghost use Rattle.pathspecs.specs.Lists.{strength};

/// In which way an element meets a path.
#[derive(Debug, Clone, Copy, PartialEq, Eq)]
pub enum Manner {
    /// The path is the text.
    Exact,
    /// The path is the front and what the pattern matches.
    Wild,
    /// The path lies below the text.
    Below,
}

impl Manner {
    /// How strongly an element meets a path that it meets so: the more, the greater it is.
    pub(crate) fn strength(self, is_exclude: bool) -> u8
        ensures { result ≡ strength is_exclude self }
    {
        match self {
            _ if is_exclude => 4,
            Manner::Exact => 3,
            Manner::Wild => 2,
            Manner::Below => 1,
        }
    }
}
