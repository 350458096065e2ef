//! What can read a byte of a match: a text that is read in counted looks.
//!
//! This module alone sees the slices of a match, and it hands out none: whoever has a text is told of a byte in a look that its
//! ledger counts, or not at all. A search and a comparison of fronts read on without a look, to the end of their last span.
ghost use Rattle.std.specs.Prelude.{◌≡◌, ◌<◌, ◌≤◌, ◌+◌, ◌-◌, ◌*◌, MatchOption, length, slice_index, slice_range};
ghost use Rattle.glob_matcher.specs.Bytes.{HasByte};
ghost use Rattle.glob_matcher.specs.Sets.{name_of};
ghost use Rattle.glob_matcher.specs.declared.wildmatch.items.Class.{Class};
ghost use Rattle.glob_matcher.specs.Private.Finding.{HasComeTo, IsLiteralFront, places_compared};
ghost use Rattle.glob_matcher.specs.Private.Takes.{TakesExactly, looks_at};

use super::any_of::AnyOf;
use super::items::Class;
use super::spans::literal_front;
use super::steps::Steps;
use super::way::Way;
use std::marker::{Model, PhantomData};
use std::sync::ledger::Ledger;

/// A text of a match. Its bytes are read in looks that are counted in one ledger, and in no others. The value of a match is a
/// [`super::counted_value::CountedValue`] over it, whose looks are steps, too.
#[derive(Drop)]
pub struct CountedText<'a, L: Ledger> {
    bytes: &'a [u8],
    ledger: PhantomData<L>,
}

impl<'a, L: Ledger> Model for CountedText<'a, L> {
    ghost use Rattle.std.specs.Prelude.{ℕ, List};

    ghost Value = { List ℕ };

    ghost view = { λ t. t.bytes.now };
}

impl<'a, L: Ledger> CountedText<'a, L> {
    /// A text with these bytes.
    #[inline(always)]
    pub fn new(bytes: &'a [u8]) -> Self
        ensures { result ≡ bytes.now }
    {
        CountedText {
            bytes,
            ledger: PhantomData,
        }
    }

    /// The same text once more.
    #[inline(always)]
    pub fn again(&self) -> Self
        ensures { result ≡ self.now }
    {
        CountedText::new(self.bytes)
    }

    /// How many bytes the text has.
    #[inline(always)]
    pub fn len(&self) -> usize
        ensures { result ≡ length self.now }
    {
        self.bytes.len()
    }

    /// The byte at a place, in one look, which counts also past the text's end.
    #[inline(always)]
    pub fn at(&self, place: usize, counts: &mut Steps<L>) -> Option<u8>
        ensures byte { MatchOption result (length self.now ≤ place) (HasByte self.now place) }
        ensures count { TakesExactly counts.old counts.new 0 1 }
    {
        counts.look();
        if place >= self.bytes.len() {
            return None;
        }
        Some(self.bytes[place])
    }

    /// The byte at a place inside the text, in one look.
    #[inline(always)]
    pub fn byte(&self, place: usize, counts: &mut Steps<L>) -> u8
        requires { place < length self.now }
        ensures byte { result ≡ slice_index self.now place }
        ensures count { TakesExactly counts.old counts.new 0 1 }
    {
        counts.look();
        self.bytes[place]
    }

    /// The first place from one on that has one of these bytes, with the byte there, in a look at each byte up to it; or the
    /// text's end, in a look at each byte before it.
    #[inline(always)]
    pub(super) fn find(
        &self,
        from: usize,
        wanted: AnyOf,
        counts: &mut Steps<L>,
    ) -> (usize, Option<u8>)
        requires { from ≤ length self.now }
        ensures found { HasComeTo self.now wanted from result.0 result.1 }
        ensures count { TakesExactly counts.old counts.new 0 (result.0 - from + looks_at result.1) }
    {
        match wanted.first_in(&self.bytes[from..]) {
            None => {
                counts.looks(self.bytes.len() - from);
                (self.bytes.len(), None)
            }
            Some(passed) => {
                counts.looks(passed + 1);
                (from + passed, Some(self.bytes[from + passed]))
            }
        }
    }

    /// The class that the bytes from one place up to another name, in a look at each.
    #[inline(always)]
    pub(super) fn class_named(&self, from: usize, to: usize, counts: &mut Steps<L>) -> Option<Class>
        requires order { from ≤ to }
        requires inside { to ≤ length self.now }
        ensures class { MatchOption result ((class : Class) → ¬ (slice_range self.now from to ≡ name_of class))
            (λ class. slice_range self.now from to ≡ name_of class) }
        ensures count { TakesExactly counts.old counts.new 0 (to - from) }
    {
        counts.looks(to - from);
        Class::named(&self.bytes[from..to])
    }

    /// How many bytes at the front of a pattern are tokens by themselves, and no slash, and alike in the value, in a step and two
    /// looks at each place up to there, and at the one that ends them.
    #[inline(always)]
    pub(super) fn literal_front(
        &self,
        value: &CountedText<'a, L>,
        way: Way,
        counts: &mut Steps<L>,
    ) -> usize
        ensures front { IsLiteralFront way self.now value.now result }
        ensures count { TakesExactly counts.old counts.new (places_compared self.now value.now result) (2 * places_compared self.now value.now result) }
    {
        let passed = literal_front(self.bytes, value.bytes, way);
        let compared = (passed + 1).min(self.bytes.len().min(value.bytes.len()));
        counts.steps(compared);
        counts.looks(compared);
        counts.looks(compared);
        passed
    }
}
