//! By which rules the patterns of lists are matched.
ghost use Rattle.std.specs.Prelude.{◌≡◌, ◌↔◌, IsTrue};
ghost use Rattle.glob_lists.specs.Rules.{by_crate, by_git};

use gix_glob::pattern::Case;

/// Whose reading of a pattern counts.
#[derive(Clone, Copy, PartialEq, Eq, Debug, Hash, PartialOrd, Ord, Default)]
pub enum Reading {
    /// That of the ported crate: a pattern is one row of tokens.
    #[default]
    Crate,
    /// That of Git: what a path pattern has before its first special byte is compared by itself, and what follows is a pattern of its own.
    Git,
}

impl Reading {
    /// Whether it is Git's.
    #[inline(always)]
    pub(crate) fn is_git(self) -> bool
        ensures { IsTrue result ↔ (self ≡ Reading.Git) }
    {
        matches!(self, Reading::Git)
    }
}

/// By which rules patterns are matched: whether the case of ASCII letters counts, and whose reading does.
#[derive(Clone, Copy, Debug, PartialEq, Eq)]
pub struct Rules {
    /// Whether the case of ASCII letters counts.
    pub case: Case,
    /// Whose reading counts.
    pub reading: Reading,
}

impl Rules {
    /// The rules of the ported crate.
    #[inline(always)]
    pub fn by_crate(case: Case) -> Rules
        ensures { result ≡ by_crate case }
    {
        Rules {
            case,
            reading: Reading::Crate,
        }
    }

    /// The rules of Git.
    #[inline(always)]
    pub fn by_git(case: Case) -> Rules
        ensures { result ≡ by_git case }
    {
        Rules {
            case,
            reading: Reading::Git,
        }
    }
}
