//! The front of a long pattern: its literal bytes are compared apart from the turns, by one place for both texts.
ghost use Rattle.glob_matcher.specs.Private.Turns.{IsFront};

use super::engine::Engine;
use super::texts::Texts;
use std::sync::ledger::Ledger;

/// A pattern of so many bytes has its front compared apart.
const LONG: usize = 64;

impl<'c, 'a, L: Ledger, M: Texts> Engine<'c, 'a, L, M> {
    /// How many bytes at the front of both texts are passed before the first turn. A short pattern has none passed.
    #[inline(always)]
    pub fn front(&mut self) -> usize
        ensures { IsFront M.way M.pattern M.value result self.old self.new }
    {
        if self.pattern_len() < LONG {
            return 0;
        }
        let way = self.way();
        self.texts.literal_front(way)
    }
}
