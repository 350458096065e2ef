//! What is written about paths.

use gix_glob::Pattern;
use tree_answers::Form;

/// What is written about paths, and in which form.
#[derive(Clone, Copy, Debug, Drop)]
pub struct IgnoreFlags {
    /// How records come, and how answers are written.
    pub form: Form,
    /// Whether the line that decides is written with each path. Only then does a negative line count.
    pub verbose: bool,
    /// Whether paths that no line decides about are written, too.
    pub non_matching: bool,
    /// Whether nothing is written.
    pub quiet: bool,
}

impl IgnoreFlags {
    ghost use Rattle.std.specs.Prelude.{◌≡◌, ◌&&◌, ◌||◌, not};
    ghost use Rattle.gix_glob.specs.PatternParts.{mode_of};
    ghost use Rattle.gix_glob.specs.Patterns.{is_negative};

    /// Whether a line with this pattern counts.
    pub(crate) fn counts(self, pattern: &Pattern) -> bool
        ensures { result ≡ (self.verbose || not (is_negative (mode_of pattern.now))) }
    {
        self.verbose || !pattern.is_negative()
    }

    /// Whether something is written about a path, where a line counts or none does.
    pub(crate) fn writes(self, is_counted: bool) -> bool
        ensures { result ≡ (not self.quiet && (is_counted || self.non_matching)) }
    {
        !self.quiet && (is_counted || self.non_matching)
    }
}
