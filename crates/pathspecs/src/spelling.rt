//! What a word spells where a path alone is asked for: a path, told from the top or from the current folder.
ghost use Rattle.std.specs.Prelude.{◌≡◌, false, IsTrue, Some, option_map};
ghost use Rattle.pathspecs.specs.Spelling.{seen, spelt_by};

use crate::heads::Head;

/// A path as a word spells it, where no mark is taken but that of the top.
#[derive(Debug, Clone, Copy, PartialEq, Eq)]
pub struct Pathspec<'a> {
    /// Whether it is told from the top, and not from the current folder.
    pub is_from_top: bool,
    /// The path, which may have no bytes.
    pub path: &'a [u8],
}

impl<'a> Pathspec<'a> {
    /// What a word spells. A colon stands before what isn't of the path: `:/x` and `:(top)x` are `x` told from the top, and `:x`, `::x` and
    /// `:()x` are `x`. `None` where the word has no bytes, and where something else stands behind the colon.
    pub fn spelt_by(word: &'a [u8]) -> Option<Pathspec<'a>>
        ensures { option_map seen result ≡ spelt_by word.now }
    {
        let head = Head::of_word(false, word).ok()?;
        let magic = head.magic;
        if magic.literal || magic.glob || magic.icase || magic.exclude {
            return None;
        }
        Some(head.pathspec())
    }
}

/// Whether a word is itself the path that it spells, told from the current folder: so it is where it has bytes, and no colon in front.
#[inline]
pub fn is_path(word: &[u8]) -> bool
    ensures { IsTrue result → spelt_by word.now ≡ Some (record { is_from_top = false; path = word.now }) }
{
    !word.is_empty() && word[0] != b':'
}
