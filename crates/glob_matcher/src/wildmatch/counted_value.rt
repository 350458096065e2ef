//! What can read a byte of the value of a match: each look at it is a step, too.
ghost use Rattle.std.specs.Prelude.{◌≡◌, ◌<◌, ◌≤◌, ◌+◌, ◌-◌, ◌*◌, MatchOption, length, slice_index};
ghost use Rattle.glob_matcher.specs.Bytes.{HasByte};
ghost use Rattle.glob_matcher.specs.Private.Finding.{HasComeTo, IsLiteralFront, places_compared};
ghost use Rattle.glob_matcher.specs.Private.Takes.{TakesExactly, looks_at};

use super::any_of::AnyOf;
use super::counted_text::CountedText;
use super::steps::Steps;
use super::way::Way;
use std::marker::Model;
use std::sync::ledger::Ledger;

/// The value of a match. Whoever has it reads a byte of it in a step, or not at all.
#[derive(Drop)]
pub struct CountedValue<'a, L: Ledger> {
    text: CountedText<'a, L>,
}

impl<'a, L: Ledger> Model for CountedValue<'a, L> {
    ghost use Rattle.std.specs.Prelude.{ℕ, List};

    ghost Value = { List ℕ };

    ghost view = { λ v. v.text };
}

impl<'a, L: Ledger> CountedValue<'a, L> {
    /// A value with these bytes.
    #[inline(always)]
    pub fn new(bytes: &'a [u8]) -> Self
        ensures { result ≡ bytes.now }
    {
        CountedValue {
            text: CountedText::new(bytes),
        }
    }

    /// The same value once more.
    #[inline(always)]
    pub fn again(&self) -> Self
        ensures { result ≡ self.now }
    {
        CountedValue {
            text: self.text.again(),
        }
    }

    /// How many bytes the value has.
    #[inline(always)]
    pub fn len(&self) -> usize
        ensures { result ≡ length self.now }
    {
        self.text.len()
    }

    /// The byte at a place, in one step and one look, which count also past the value's end.
    #[inline(always)]
    pub fn at(&self, place: usize, counts: &mut Steps<L>) -> Option<u8>
        ensures byte { MatchOption result (length self.now ≤ place) (HasByte self.now place) }
        ensures count { TakesExactly counts.old counts.new 1 1 }
    {
        counts.step();
        self.text.at(place, counts)
    }

    /// The byte at a place inside the value, in one step and one look.
    #[inline(always)]
    pub fn byte(&self, place: usize, counts: &mut Steps<L>) -> u8
        requires { place < length self.now }
        ensures byte { result ≡ slice_index self.now place }
        ensures count { TakesExactly counts.old counts.new 1 1 }
    {
        counts.step();
        self.text.byte(place, counts)
    }

    /// The first place from one on that has one of these bytes, with the byte there; or the value's end. As by single bytes, that
    /// is a test and a move for each byte passed, and a test of the one that is met.
    #[inline(always)]
    pub(super) fn find(
        &self,
        from: usize,
        wanted: AnyOf,
        counts: &mut Steps<L>,
    ) -> (usize, Option<u8>)
        requires { from ≤ length self.now }
        ensures found { HasComeTo self.now wanted from result.0 result.1 }
        ensures count { TakesExactly counts.old counts.new (2 * (result.0 - from) + looks_at result.1) (result.0 - from + looks_at result.1) }
    {
        let (at, met) = self.text.find(from, wanted, counts);
        counts.steps(at - from);
        counts.steps(at - from);
        match met {
            None => (at, None),
            Some(byte) => {
                counts.step();
                (at, Some(byte))
            }
        }
    }

    /// How many bytes at the front of a pattern are tokens by themselves, and no slash, and alike in the value.
    #[inline(always)]
    pub(super) fn literal_front(
        &self,
        pattern: &CountedText<'a, L>,
        way: Way,
        counts: &mut Steps<L>,
    ) -> usize
        ensures front { IsLiteralFront way pattern.now self.now result }
        ensures count { TakesExactly counts.old counts.new (places_compared pattern.now self.now result) (2 * places_compared pattern.now self.now result) }
    {
        pattern.literal_front(&self.text, way, counts)
    }
}
