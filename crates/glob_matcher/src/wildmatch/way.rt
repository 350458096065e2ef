//! Ways to match: whether a slash is special, and how case is folded.
ghost use Rattle.std.specs.Prelude.{◌≡◌, ◌≢◌, ◌↔◌, false, IsTrue};
ghost use Rattle.std.specs.Char.{to_ascii_lowercase};

/// How the case of ASCII letters counts.
#[derive(Debug, Copy, Clone, Eq, PartialEq)]
pub enum Folding {
    /// Letters match only letters of their own case.
    Off,
    /// Case doesn't count, in pattern and value.
    Both,
    /// Case doesn't count in the value, and of the pattern in the bytes that stand for themselves. An escaped capital matches nothing, and
    /// what a set has is compared as it is.
    Exact,
}

/// How a match goes: whether a wildcard matches a slash, and how case is folded. A [`super::Mode`] asks for one of the first four.
///
/// It is one enum rather than a bit beside a [`Folding`]: a struct of two fields would take two registers in every call. The ways stand
/// in an order in which each question is one mask: the odd ones are those of path mode, and the last two fold exactly.
#[derive(Debug, Copy, Clone, Eq, PartialEq)]
pub enum Way {
    /// A wildcard matches a slash too, and case counts.
    Plain,
    /// No wildcard matches a slash, and case counts.
    Path,
    /// A wildcard matches a slash too, and case doesn't count.
    FoldedPlain,
    /// No wildcard matches a slash, and case doesn't count.
    FoldedPath,
    /// A wildcard matches a slash too, and folding is exact.
    ExactPlain,
    /// No wildcard matches a slash, and folding is exact.
    ExactPath,
}

/// Whether one byte is a small letter, and the other its capital.
#[inline(always)]
fn is_small_of(small: u8, capital: u8) -> bool
    ensures { IsTrue result ↔ ((small ≢ capital) × (small ≡ to_ascii_lowercase capital)) }
{
    // most bytes fail the first test
    small.wrapping_sub(capital) == 32 && capital.is_ascii_uppercase()
}

impl Way {
    ghost use Rattle.glob_matcher.specs.Bytes.{is_path, folding, folds, fold, way_with};
    ghost use Rattle.glob_matcher.specs.ExactFolding.{fold_inner, is_dead, is_exact};

    /// A way: whether no wildcard matches a slash, and how case is folded.
    #[inline(always)]
    pub fn new(path: bool, folding: Folding) -> Way
        ensures { result ≡ way_with path folding }
    {
        match (folding, path) {
            (Folding::Off, false) => Way::Plain,
            (Folding::Off, true) => Way::Path,
            (Folding::Both, false) => Way::FoldedPlain,
            (Folding::Both, true) => Way::FoldedPath,
            (Folding::Exact, false) => Way::ExactPlain,
            (Folding::Exact, true) => Way::ExactPath,
        }
    }

    /// Whether a wildcard matches no slash.
    #[inline(always)]
    pub fn is_path(self) -> bool
        ensures { result ≡ is_path self }
    {
        // a `match` would become a table of jumps
        self as u8 & 1 == 1
    }

    /// The same way in plain mode, where a wildcard matches a slash too.
    #[inline(always)]
    pub fn in_plain_mode(self) -> Way
        ensures { result ≡ way_with false (folding self) }
    {
        match self {
            Way::Plain | Way::Path => Way::Plain,
            Way::FoldedPlain | Way::FoldedPath => Way::FoldedPlain,
            Way::ExactPlain | Way::ExactPath => Way::ExactPlain,
        }
    }

    /// Whether the case of ASCII letters does not count.
    #[inline(always)]
    pub(crate) fn folds(self) -> bool
        ensures { result ≡ folds self }
    {
        // all but the first two; a mask is merged with those of a mode's bits, and a comparison isn't
        self as u8 & 6 != 0
    }

    /// Whether folding is exact.
    #[inline(always)]
    pub(crate) fn is_exact(self) -> bool
        ensures { result ≡ is_exact self }
    {
        self as u8 & 4 != 0
    }

    /// Whether two bytes are equal, after folding where the way asks for it.
    #[inline(always)]
    pub fn alike(self, one: u8, other: u8) -> bool
        ensures { IsTrue result ↔ (fold self one ≡ fold self other) }
    {
        one == other || (self.folds() && (is_small_of(one, other) || is_small_of(other, one)))
    }

    /// A byte after folding, where the way asks for it.
    #[inline(always)]
    pub(crate) fn fold(self, byte: u8) -> u8
        ensures { result ≡ fold self byte }
    {
        if self.folds() {
            byte.to_ascii_lowercase()
        } else {
            byte
        }
    }

    /// A byte of a set after folding, where the way asks for it.
    #[inline(always)]
    pub(crate) fn fold_inner(self, byte: u8) -> u8
        ensures { result ≡ fold_inner self byte }
    {
        if self.is_exact() {
            byte
        } else {
            self.fold(byte)
        }
    }

    /// Whether an escaped byte matches nothing.
    #[inline(always)]
    pub(crate) fn is_dead(self, byte: u8) -> bool
        ensures { result ≡ is_dead self byte }
    {
        self.is_exact() && byte.is_ascii_uppercase()
    }
}
