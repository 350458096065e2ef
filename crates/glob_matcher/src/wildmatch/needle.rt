//! What follows a star in the pattern, where the engine with two marks can scan for it byte by byte.
ghost use Rattle.std.specs.Prelude.{◌≡◌, ◌≢◌, ◌↔◌, ◌<◌, ◌≤◌, IsTrue, IfSome, IfNone, length, slice_index};
ghost use Rattle.std.specs.Char.{to_ascii_lowercase};
ghost use Rattle.glob_matcher.specs.Bytes.{StandsForItself, slash};
ghost use Rattle.glob_matcher.specs.Private.Scans.{Follows};
ghost use Rattle.glob_matcher.specs.Private.Takes.{Takes};

use super::any_of::AnyOf;
use super::engine::Engine;
use super::texts::Texts;
use std::sync::ledger::Ledger;

/// What follows a star: a byte that is a token by itself, or the pattern's end.
#[derive(Copy, Clone)]
pub enum Follow {
    /// This byte, where case counts.
    Byte(u8),
    /// This byte, where case does not count.
    Folded(u8),
    /// The pattern's end.
    End,
}

/// What a scan looks for. Each way to compare is a type, so that each has a loop of its own.
pub trait Needle: Copy {
    ghost use Rattle.std.specs.Prelude.{◌≡◌, ◌⊎◌, ℕ};
    ghost use Rattle.glob_matcher.specs.Bytes.{slash};
    ghost use Rattle.glob_matcher.specs.Private.Finding.{IsAnyOf};

    ghost suits: { Self → ℕ → Type 0 };

    /// Whether a byte of the value is what is looked for.
    fn suits(self, byte: u8) -> bool
        ensures { IsTrue result ↔ suits self byte };

    /// What is looked for, and a slash if it is asked for.
    fn any_of(self, with_slash: bool) -> AnyOf
        ensures { (b : ℕ) → IsAnyOf result b ↔ (suits self b ⊎ (IsTrue with_slash × (b ≡ slash))) };
}

/// A byte, where case counts.
#[derive(Copy, Clone)]
pub struct ExactByte(pub u8);

/// A byte, where case does not count.
#[derive(Copy, Clone)]
pub struct FoldedByte(pub u8);

/// No byte: the pattern's end follows the star.
#[derive(Copy, Clone)]
pub struct NoByte;

impl Needle for ExactByte {
    ghost suits = { λ n b. b ≡ n.0 };

    #[inline(always)]
    fn suits(self, byte: u8) -> bool {
        byte == self.0
    }

    #[inline(always)]
    fn any_of(self, with_slash: bool) -> AnyOf {
        if with_slash {
            AnyOf::Two(self.0, b'/')
        } else {
            AnyOf::One(self.0)
        }
    }
}

impl Needle for FoldedByte {
    ghost suits = { λ n b. to_ascii_lowercase b ≡ to_ascii_lowercase n.0 };

    #[inline(always)]
    fn suits(self, byte: u8) -> bool {
        byte.to_ascii_lowercase() == self.0.to_ascii_lowercase()
    }

    #[inline(always)]
    fn any_of(self, with_slash: bool) -> AnyOf {
        let (lower, upper) = (self.0.to_ascii_lowercase(), self.0.to_ascii_uppercase());
        if with_slash {
            AnyOf::Three(lower, upper, b'/')
        } else {
            AnyOf::Two(lower, upper)
        }
    }
}

impl Needle for NoByte {
    ghost suits = { λ n b. ⊥ };

    #[inline(always)]
    fn suits(self, _: u8) -> bool {
        false
    }

    #[inline(always)]
    fn any_of(self, with_slash: bool) -> AnyOf {
        if with_slash {
            AnyOf::One(b'/')
        } else {
            AnyOf::Nothing
        }
    }
}

/// Whether a byte is a token by itself: it begins no other.
#[inline(always)]
pub fn stands_for_itself(byte: u8) -> bool
    ensures { IsTrue result ↔ StandsForItself byte }
{
    // apart: with `[` and `\` side by side in it, the test would be one of a range, and each way out would copy the state
    !(matches!(byte, b'*' | b'?' | b'[') || byte == b'\\')
}

/// Whether a byte is a token by itself, and no slash.
#[inline(always)]
pub fn stands_within_component(byte: u8) -> bool
    ensures { IsTrue result ↔ (StandsForItself byte × (byte ≢ slash)) }
{
    // most bytes are small letters, which come after all that are special
    byte > b'\\' || (byte != b'/' && stands_for_itself(byte))
}

impl<'c, 'a, L: Ledger, M: Texts> Engine<'c, 'a, L, M> {
    /// What follows at a place of the pattern; `None` where it is a token of another kind.
    #[inline(always)]
    pub fn follow_at(&mut self, place: usize) -> Option<Follow>
        requires { place ≤ length M.pattern }
        ensures follows { IfSome result (λ follow. Follows M.way M.pattern place follow) }
        ensures other { IfNone result ((place < length M.pattern) × ¬ StandsForItself (slice_index M.pattern place)) }
        ensures count { Takes self.old self.new 0 1 }
    {
        let Some(byte) = self.look_at(place) else {
            return Some(Follow::End);
        };
        if !stands_for_itself(byte) {
            return None;
        }
        if self.folds() {
            return Some(Follow::Folded(byte));
        }
        Some(Follow::Byte(byte))
    }
}
