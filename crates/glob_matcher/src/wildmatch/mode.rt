//! How a pattern is matched: whether a slash is special, and whether case counts.
ghost use Rattle.std.specs.Prelude.{⊤, ◌≡◌, [], ◌∷◌, codes};

use super::way::{Folding, Way};
use bitflags::{Flag, Flags, bitflag_items};

/// The match mode, a set of two named bits; any other bit is kept and changes no answer.
///
/// The rules are in `docs/PATTERNS.md`.
#[derive(Debug, Copy, Clone, Eq, PartialEq)]
pub struct Mode(u8);

bitflag_items! {
    impl Mode: u8 {
        /// A wildcard does not match a slash, except for two or more stars that stand alone between slashes, escaped or not,
        /// or ends of the pattern.
        const NO_MATCH_SLASH_LITERAL = 1;
        /// The case of ASCII letters does not count.
        const IGNORE_CASE = 2;
    }
}

impl Flags for Mode {
    type Bits = u8;

    ghost exact = { ⊤ };

    ghost table = { (codes "NO_MATCH_SLASH_LITERAL", 1) ∷ (codes "IGNORE_CASE", 2) ∷ [] };

    ghost set_of = { λ m. m.0 };

    fn flags<'a>() -> &'a [Flag<Mode>] {
        Mode::FLAGS
    }

    fn bits(&self) -> u8 {
        self.0
    }

    fn from_bits_retain(bits: u8) -> Mode {
        Mode(bits)
    }
}

impl Default for Mode {
    ghost is_default = { λ m. m.0 ≡ 0 };

    /// No bit: every byte counts alike, and case counts.
    fn default() -> Mode {
        Mode(0)
    }
}

impl Mode {
    ghost use Rattle.glob_matcher.specs.Ways.{way_of};

    /// The way to match that the mode asks for.
    #[inline(always)]
    pub fn way(self) -> Way
        ensures { result ≡ way_of self }
    {
        let folding = if self.contains(Mode::IGNORE_CASE) {
            Folding::Both
        } else {
            Folding::Off
        };
        Way::new(self.contains(Mode::NO_MATCH_SLASH_LITERAL), folding)
    }
}
