//! Whether a token fits at a place of the value. Each test is exactly one step, also where the value has ended and where the
//! token matches nothing.
ghost use Rattle.std.specs.Prelude.{◌≡◌, ◌≢◌, ◌↔◌, ℕ, ◌+◌, ◌-◌, ◌<◌, ◌≤◌, IsTrue, MatchOption, length, slice_index};
ghost use Rattle.glob_matcher.specs.Bytes.{HasByte};
ghost use Rattle.glob_matcher.specs.Tokens.{Token, Byte, kind_of};
ghost use Rattle.glob_matcher.specs.Matching.{Fits};
ghost use Rattle.glob_matcher.specs.Private.Takes.{TakesExactly};

use super::engine::Engine;
use super::texts::Texts;
use super::tokens::TokenKind;
use std::sync::ledger::Ledger;

impl<'c, 'a, L: Ledger, M: Texts> Engine<'c, 'a, L, M> {
    /// Tests the pattern's end: whether the value ends at this place, too.
    #[inline(always)]
    pub fn ends_at(&mut self, at: usize) -> bool
        ensures answer { IsTrue result ↔ (length M.value ≤ at) }
        ensures count { TakesExactly self.old self.new 1 0 }
    {
        self.texts.step();
        at >= self.texts.value_len()
    }

    /// Tests a token of one byte that is this byte.
    #[inline(always)]
    pub fn fits_byte(&mut self, at: usize, wanted: u8) -> bool
        ensures answer { IsTrue result ↔ ((at < length M.value) × Fits M.way (Byte wanted) (slice_index M.value at)) }
        ensures count { TakesExactly self.old self.new 1 1 }
    {
        match self.value_at(at) {
            Some(byte) => self.way().alike(byte, wanted),
            None => false,
        }
    }

    /// Tests the pattern's last token, where it is this byte: whether it fits the value's last byte.
    #[inline(always)]
    pub fn ends_in(&mut self, wanted: u8) -> bool
        ensures answer { IsTrue result ↔ ((0 < length M.value) × Fits M.way (Byte wanted) (slice_index M.value (length M.value - 1))) }
        ensures count { TakesExactly self.old self.new 1 1 }
    {
        let len = self.texts.value_len();
        if len == 0 {
            let _ = self.value_at(0);
            return false;
        }
        match self.value_at(len - 1) {
            // Most values end in another byte: `alike`, which tests first whether two bytes are equal, would only add a test.
            Some(byte) => self.way().fold(byte) == self.way().fold(wanted),
            None => false,
        }
    }

    /// Tests a token of this kind, which is no set.
    #[inline(always)]
    pub fn fits(&mut self, kind: TokenKind, at: usize) -> bool
        requires { kind ≢ TokenKind.Set }
        ensures answer { (token : Token) → kind ≡ kind_of token
            → IsTrue result ↔ ((at < length M.value) × Fits M.way token (slice_index M.value at)) }
        ensures count { TakesExactly self.old self.new 1 1 }
    {
        match self.value_at(at) {
            Some(byte) => kind.fits(byte, self.way()),
            None => false,
        }
    }

    /// Takes the byte at a place of the value, in a step; `None` where the value ends.
    #[inline(always)]
    pub(super) fn value_at(&mut self, at: usize) -> Option<u8>
        ensures byte { MatchOption result (length M.value ≤ at) (HasByte M.value at) }
        ensures count { TakesExactly self.old self.new 1 1 }
    {
        self.texts.value_at(at)
    }

    /// Tests a token that matches nothing: it fits no byte, and none is read.
    #[inline(always)]
    pub fn fits_nothing(&mut self)
        ensures { TakesExactly self.old self.new 1 0 }
    {
        self.texts.step();
    }
}
