//! What reading a pattern line says of its text, as a set of named bits.
ghost use Rattle.std.specs.Prelude.{⊤, [], ◌∷◌, codes};

use bitflags::{Flag, Flags, bitflag_items};

/// What is known of a pattern, a set of five named bits; any other bit is kept and changes no answer.
///
/// The rules are in `docs/PATTERNS.md`.
#[derive(Debug, PartialEq, Eq, Hash, Copy, Clone, Ord, PartialOrd)]
pub struct Mode(u32);

bitflag_items! {
    impl Mode: u32 {
        /// The text has no slash, so the pattern is about the last part of a path.
        const NO_SUB_DIR = 1;
        /// The text is a star and a literal, so the end of a value decides.
        const ENDS_WITH = 2;
        /// Only a directory matches: the line ended in a slash.
        const MUST_BE_DIR = 4;
        /// A match is turned into its contrary by the caller: the line began with `!`.
        const NEGATIVE = 8;
        /// The whole path has to match: the line began with a slash.
        const ABSOLUTE = 16;
    }
}

impl Flags for Mode {
    type Bits = u32;

    ghost exact = { ⊤ };

    ghost table = { (codes "NO_SUB_DIR", 1) ∷ (codes "ENDS_WITH", 2) ∷ (codes "MUST_BE_DIR", 4) ∷ (codes "NEGATIVE", 8) ∷ (codes "ABSOLUTE", 16) ∷ [] };

    ghost set_of = { λ m. m.0 };

    fn flags<'a>() -> &'a [Flag<Mode>] {
        Mode::FLAGS
    }

    fn bits(&self) -> u32 {
        self.0
    }

    fn from_bits_retain(bits: u32) -> Mode {
        Mode(bits)
    }
}

impl Mode {
    ghost use Rattle.std.specs.Prelude.{◌≡◌};
    ghost use Rattle.glob_patterns.specs.Patterns.{looks_at_name};

    /// Whether a pattern of this mode looks at the last part of a path alone, where it is known where that begins.
    pub fn looks_at_name(self) -> bool
        ensures { result ≡ looks_at_name self }
    {
        self.contains(Mode::NO_SUB_DIR) && !self.contains(Mode::ABSOLUTE)
    }
}
