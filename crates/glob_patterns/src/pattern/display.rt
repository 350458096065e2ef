//! How a pattern is shown and copied.
ghost use Rattle.std.specs.Prelude.{◌≡◌, [], if◌then◌else◌};

use super::{Mode, Pattern};
use bitflags::Flags;
use bstr::BStr;
use std::alloc::AllocError;
use std::fmt;

impl Clone for Pattern {
    ghost use Rattle.glob_patterns.specs.PatternParts.{SamePattern};

    ghost is_clone = { SamePattern };

    /// The same pattern, in memory of its own. The error is want of memory for the text.
    fn clone(&self) -> Result<Pattern, AllocError> {
        let text = self.text.clone()?;
        Ok(Pattern {
            text,
            mode: self.mode,
            first_wildcard_pos: self.first_wildcard_pos,
        })
    }
}

/// Shows `!` and the slashes again around the text. Where the text isn't UTF-8, U+FFFD stands for what can't be read.
impl fmt::Display for Pattern {
    ghost use Rattle.std.specs.Prelude.{Some};
    ghost use Rattle.glob_patterns.specs.Patterns.{display_of, shown_line};
    ghost use Rattle.glob_patterns.specs.PatternParts.{text_of, mode_of};

    ghost output = { λ p. Some (shown_line (mode_of p) (display_of (text_of p))) };

    fn fmt<W: fmt::Write>(&self, f: &mut fmt::Formatter<W>) -> fmt::Result {
        let sign = mark_if(self.mode.contains(Mode::NEGATIVE), "!");
        let lead = mark_if(self.mode.contains(Mode::ABSOLUTE), "/");
        let text = BStr::new(&self.text);
        let tail = mark_if(self.mode.contains(Mode::MUST_BE_DIR), "/");
        write!(f, "{sign}{lead}{text}{tail}")
    }
}

/// A mark where it stands, and else nothing.
fn mark_if(stands: bool, mark: &str) -> &str
    ensures { result.now ≡ (if stands then mark.now else []) }
{
    if stands { mark } else { "" }
}
