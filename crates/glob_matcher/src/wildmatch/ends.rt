//! What the ends of the texts tell of a match, before it is searched for.
ghost use Rattle.std.specs.Prelude.{◌≡◌, ◌≢◌, ◌↔◌, ◌+◌, ◌≤◌, IsTrue, IfSome};
ghost use Rattle.glob_matcher.specs.Bytes.{slash, star};
ghost use Rattle.glob_matcher.specs.Matching.{SplitsBy};
ghost use Rattle.glob_matcher.specs.Steps.{NeverFall};
ghost use Rattle.glob_matcher.specs.Private.Spelling.{close_bracket, question_mark};
ghost use Rattle.glob_matcher.specs.Private.Takes.{Takes};

use super::engine::Engine;
use super::texts::Texts;
use std::sync::ledger::Ledger;

/// Whether a byte at the pattern's end ends no star token, question mark or set: a value that matches ends in it then.
#[inline(always)]
fn is_alone(byte: u8) -> bool
    ensures { IsTrue result ↔ ((byte ≢ star) × (byte ≢ question_mark) × (byte ≢ close_bracket) × (byte ≢ slash)) }
{
    !matches!(byte, b'*' | b'?' | b']' | b'/')
}

impl<'c, 'a, L: Ledger, M: Texts> Engine<'c, 'a, L, M> {
    /// Whether the pattern is one star that crosses slashes: it matches each value.
    #[inline(always)]
    fn is_lone_star(&mut self) -> bool
        ensures meaning { IsTrue result → SplitsBy M.value M.pattern M.way }
        ensures count { Takes self.old self.new 0 1 }
    {
        if self.pattern_len() != 1 {
            return false;
        }
        if self.pattern_byte(0) != b'*' {
            return false;
        }
        !self.is_path()
    }

    /// The answer, where the ends of the texts alone show it: a lone star matches each value, and a pattern that ends in a
    /// byte that is alone matches no value that ends otherwise.
    #[inline(always)]
    pub fn ends_tell(&mut self) -> Option<bool>
        ensures meaning { IfSome result (λ answer. IsTrue answer ↔ SplitsBy M.value M.pattern M.way) }
        ensures steps { self.new.steps ≤ self.old.steps + 1 }
        ensures looks { self.new.looks ≤ self.old.looks + 2 }
        ensures grows { NeverFall self.old self.new }
    {
        let len = self.pattern_len();
        if len == 0 {
            return None;
        }
        let last = self.pattern_byte(len - 1);
        if is_alone(last) {
            if self.ends_in(last) {
                return None;
            }
            return Some(false);
        }
        if self.is_lone_star() {
            return Some(true);
        }
        None
    }
}
