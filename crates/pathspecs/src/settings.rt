//! What counts for all words of a list.
ghost use Rattle.std.specs.Prelude.{◌≡◌};
ghost use Rattle.pathspecs.specs.Reading.{agree, marked};

use crate::magic::Magic;

/// What counts for all words of a list: Git's `--literal-pathspecs` and so on.
#[derive(Debug, Clone, Copy, PartialEq, Eq, Default)]
pub struct Settings {
    /// No word has a head, and no byte is special.
    pub literal: bool,
    /// In a word that isn't marked `literal`, wildcards match no slash.
    pub glob: bool,
    /// In a word that isn't marked `glob`, no byte is special.
    pub noglob: bool,
    /// The case of ASCII letters doesn't count.
    pub icase: bool,
}

impl Settings {
    /// Whether they go together: `glob` and `noglob` don't, and `literal` goes with `noglob` alone.
    pub fn agree(self) -> bool
        ensures { result ≡ agree self }
    {
        !(self.glob && self.noglob || self.literal && (self.glob || self.icase))
    }

    /// The marks of a word whose head says these.
    pub(crate) fn marked(self, magic: Magic) -> Magic
        ensures { result ≡ marked self magic }
    {
        Magic {
            top: magic.top,
            literal: magic.literal || self.literal || self.noglob && !magic.glob,
            glob: magic.glob || self.glob && !magic.literal,
            icase: magic.icase || self.icase,
            exclude: magic.exclude,
        }
    }
}
