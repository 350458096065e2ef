//! One match as the engine with two marks sees it: its texts, its mode and the counts of what it takes, as one value; and the
//! bytes of its pattern. What reads a byte is `counted_text`, which counts a look for it.
ghost use Rattle.std.specs.Prelude.{◌≡◌, ◌<◌, ◌≤◌, MatchOption, length, slice_index};
ghost use Rattle.glob_matcher.specs.Bytes.{HasByte, folds, is_path};
ghost use Rattle.glob_matcher.specs.Private.Takes.{TakesExactly, looks_at};

use super::counted_texts::CountedTexts;
use super::steps::Steps;
use super::texts::Texts;
use super::way::Way;
use std::marker::Model;
use std::sync::ledger::Ledger;

/// A match and its counts. Contracts see the counts alone, and the match by its type.
#[derive(Drop)]
pub struct Engine<'c, 'a, L: Ledger, M: Texts> {
    pub(super) texts: CountedTexts<'c, 'a, L, M>,
    way: Way,
}

impl<'c, 'a, L: Ledger, M: Texts> Model for Engine<'c, 'a, L, M> {
    ghost use Rattle.std.specs.Prelude.{◌≡◌};
    ghost use Rattle.glob_matcher.specs.Steps.{Counts};

    ghost Value = { Counts };

    ghost view = { λ e. e.texts };

    ghost invariant = { λ e. e.way ≡ M.way };
}

impl<'c, 'a, L: Ledger, M: Texts> Engine<'c, 'a, L, M> {
    /// The engine of a match.
    #[inline(always)]
    pub fn new(texts: CountedTexts<'c, 'a, L, M>, way: Way) -> Self
        requires { way ≡ M.way }
        ensures { result ≡ texts.entry }
    {
        Engine { texts, way }
    }

    /// The counts, by the reference that they came by.
    #[inline(always)]
    pub fn into_counts(self) -> &'c mut Steps<L>
        ensures same { result.ghost_name ≡ M.counts }
        ensures counts { result.now ≡ self.entry }
    {
        self.texts.into_counts()
    }

    /// How many bytes the pattern has.
    #[inline(always)]
    pub fn pattern_len(&self) -> usize
        ensures { result ≡ length M.pattern }
    {
        self.texts.pattern_len()
    }

    /// How bytes are compared.
    #[inline(always)]
    pub fn way(&self) -> Way
        ensures { result ≡ M.way }
    {
        self.way
    }

    /// Whether a wildcard matches no slash.
    #[inline(always)]
    pub fn is_path(&self) -> bool
        ensures { result ≡ is_path M.way }
    {
        self.way.is_path()
    }

    /// Whether the case of letters does not count.
    #[inline(always)]
    pub fn folds(&self) -> bool
        ensures { result ≡ folds M.way }
    {
        self.way.folds()
    }

    /// Looks at the byte at a place of the pattern; `None` past its end, where there is nothing to look at.
    #[inline(always)]
    pub fn look_at(&mut self, place: usize) -> Option<u8>
        ensures byte { MatchOption result (length M.pattern ≤ place) (HasByte M.pattern place) }
        ensures count { TakesExactly self.old self.new 0 (looks_at result) }
    {
        self.texts.pattern_at(place)
    }

    /// Looks at the byte at a place inside the pattern.
    #[inline(always)]
    pub fn pattern_byte(&mut self, place: usize) -> u8
        requires { place < length M.pattern }
        ensures here { result ≡ slice_index M.pattern place }
        ensures count { TakesExactly self.old self.new 0 1 }
    {
        self.texts.pattern_byte(place)
    }
}
