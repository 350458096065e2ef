//! The search of the engine with two marks: turns, and where a token does not fit, a way back to a mark.
ghost use Rattle.std.specs.Prelude.{◌↔◌, IsTrue, length};
ghost use Rattle.glob_matcher.specs.Matching.{SplitsBy};
ghost use Rattle.glob_matcher.specs.Steps.{NeverFall};
ghost use Rattle.glob_matcher.specs.Private.Budget.{IsWithinLimits};

use super::engine::Engine;
use super::state::{Crossing, State, Turn};
use super::texts::Texts;
use std::sync::ledger::Ledger;

impl<'c, 'a, L: Ledger, M: Texts> Engine<'c, 'a, L, M> {
    /// Whether the pattern matches the value.
    #[inline(always)]
    pub fn search(&mut self) -> bool
        ensures exact { IsTrue result ↔ SplitsBy M.value M.pattern M.way }
        ensures limits { IsWithinLimits (length M.pattern) (length M.value) self.old self.new }
        ensures grows { NeverFall self.old self.new }
    {
        let front = self.front();
        let mut state = State {
            place: front,
            at: front,
            crossing: Crossing::Unmet,
            local: None,
        };
        'turns: loop {
            match self.take_turn(state) {
                Turn::Match => return true,
                Turn::NoMatch => return false,
                Turn::On(next) => state = next,
                Turn::Miss(missed) => match self.backtrack(missed) {
                    None => return false,
                    Some(next) => state = next,
                },
            }
        }
    }
}
