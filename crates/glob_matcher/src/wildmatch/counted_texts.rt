//! The texts of a match and its counts as one value. What reads a byte of one is `counted_text`, of the value through
//! `counted_value`.
ghost use Rattle.std.specs.Prelude.{◌≡◌, ◌<◌, ◌≤◌, ◌+◌, ◌-◌, ◌*◌, MatchOption, length, slice_index};
ghost use Rattle.glob_matcher.specs.Bytes.{HasByte};
ghost use Rattle.glob_matcher.specs.Private.Finding.{HasComeTo, IsLiteralFront, places_compared};
ghost use Rattle.glob_matcher.specs.Private.Takes.{TakesExactly, looks_at};

use super::any_of::AnyOf;
use super::counted_text::CountedText;
use super::counted_value::CountedValue;
use super::steps::Steps;
use super::texts::Texts;
use super::way::Way;
use std::marker::{Model, PhantomData};
use std::sync::ledger::Ledger;

/// The pattern and the value of a match, which can be read in counted looks alone; a look at the value is a step, too. Contracts
/// see the counts as its value, and the two texts by `M`.
#[derive(Drop)]
pub struct CountedTexts<'c, 'a, L: Ledger, M: Texts> {
    pub(super) pattern: CountedText<'a, L>,
    pub(super) value: CountedValue<'a, L>,
    pub(super) counts: &'c mut Steps<L>,
    of: PhantomData<M>,
}

impl<'c, 'a, L: Ledger, M: Texts> Model for CountedTexts<'c, 'a, L, M> {
    ghost use Rattle.std.specs.Prelude.{◌≡◌};
    ghost use Rattle.glob_matcher.specs.Steps.{Counts};

    ghost Value = { Counts };

    ghost view = { λ t. t.counts.now };

    ghost invariant = { λ t. (t.pattern ≡ M.pattern) × (t.value ≡ M.value) × (t.counts.ghost_name ≡ M.counts) };
}

impl<'c, 'a, L: Ledger, M: Texts> CountedTexts<'c, 'a, L, M> {
    /// The texts of a match, over its counts.
    #[inline(always)]
    pub fn new(pattern: &'a [u8], value: &'a [u8], counts: &'c mut Steps<L>) -> Self
        requires pattern { pattern.now ≡ M.pattern }
        requires value { value.now ≡ M.value }
        requires counts { counts.ghost_name ≡ M.counts }
        ensures { result ≡ counts.old }
    {
        CountedTexts::of(CountedText::new(pattern), CountedValue::new(value), counts)
    }

    /// The same, of texts that are counted already.
    #[inline(always)]
    pub(super) fn of(
        pattern: CountedText<'a, L>,
        value: CountedValue<'a, L>,
        counts: &'c mut Steps<L>,
    ) -> Self
        requires pattern { pattern ≡ M.pattern }
        requires value { value ≡ M.value }
        requires counts { counts.ghost_name ≡ M.counts }
        ensures { result ≡ counts.old }
    {
        CountedTexts {
            pattern,
            value,
            counts,
            of: PhantomData,
        }
    }

    /// The counts, by the reference that they came by.
    #[inline(always)]
    pub fn into_counts(self) -> &'c mut Steps<L>
        ensures same { result.ghost_name ≡ M.counts }
        ensures counts { result.now ≡ self.entry }
    {
        self.counts
    }

    /// How many bytes the pattern has.
    #[inline(always)]
    pub fn pattern_len(&self) -> usize
        ensures { result ≡ length M.pattern }
    {
        self.pattern.len()
    }

    /// How many bytes the value has.
    #[inline(always)]
    pub fn value_len(&self) -> usize
        ensures { result ≡ length M.value }
    {
        self.value.len()
    }

    /// Counts a step. No byte is read.
    #[inline(always)]
    pub(super) fn step(&mut self)
        ensures { TakesExactly self.old self.new 1 0 }
    {
        self.counts.step();
    }

    /// The byte at a place of the pattern, in one look; `None` past its end, where there is nothing to look at.
    #[inline(always)]
    pub fn pattern_at(&mut self, place: usize) -> Option<u8>
        ensures byte { MatchOption result (length M.pattern ≤ place) (HasByte M.pattern place) }
        ensures count { TakesExactly self.old self.new 0 (looks_at result) }
    {
        if place >= self.pattern.len() {
            return None;
        }
        self.pattern.at(place, self.counts)
    }

    /// The byte at a place inside the pattern, in one look.
    #[inline(always)]
    pub fn pattern_byte(&mut self, place: usize) -> u8
        requires { place < length M.pattern }
        ensures here { result ≡ slice_index M.pattern place }
        ensures count { TakesExactly self.old self.new 0 1 }
    {
        self.pattern.byte(place, self.counts)
    }

    /// The byte at a place of the value, in one step and one look, which count also past its end.
    #[inline(always)]
    pub fn value_at(&mut self, at: usize) -> Option<u8>
        ensures byte { MatchOption result (length M.value ≤ at) (HasByte M.value at) }
        ensures count { TakesExactly self.old self.new 1 1 }
    {
        self.value.at(at, self.counts)
    }

    /// The byte at a place inside the value, in one step and one look.
    #[inline(always)]
    pub fn value_byte(&mut self, at: usize) -> u8
        requires { at < length M.value }
        ensures here { result ≡ slice_index M.value at }
        ensures count { TakesExactly self.old self.new 1 1 }
    {
        self.value.byte(at, self.counts)
    }

    /// The first place of the value from one on that has one of these bytes, with the byte there; or the value's end. As by single
    /// bytes, that is a test and a move for each byte passed, and a test of the one that is met.
    #[inline(always)]
    pub(super) fn find_in_value(&mut self, from: usize, wanted: AnyOf) -> (usize, Option<u8>)
        requires { from ≤ length M.value }
        ensures found { HasComeTo M.value wanted from result.0 result.1 }
        ensures count { TakesExactly self.old self.new (2 * (result.0 - from) + looks_at result.1) (result.0 - from + looks_at result.1) }
    {
        self.value.find(from, wanted, self.counts)
    }

    /// How many bytes at the front of the pattern are tokens by themselves, and no slash, and alike in the value.
    #[inline(always)]
    pub(super) fn literal_front(&mut self, way: Way) -> usize
        ensures front { IsLiteralFront way M.pattern M.value result }
        ensures count { TakesExactly self.old self.new (places_compared M.pattern M.value result) (2 * places_compared M.pattern M.value result) }
    {
        self.value.literal_front(&self.pattern, way, self.counts)
    }
}
