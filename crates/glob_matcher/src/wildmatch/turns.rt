//! The turns of the engine with two marks: the token at a place of the pattern is tested at a place of the value, and after a
//! literal byte the ones that follow it, up to a slash at which a mark would be forgotten.
ghost use Rattle.std.specs.Prelude.{◌≡◌, ◌≢◌, ◌-◌, ◌*◌, ◌<◌, ◌≤◌, IsTrue, None, false, length, slice_index};
ghost use Rattle.glob_matcher.specs.Bytes.{HasByte, StandsForItself, open_bracket, slash};
ghost use Rattle.glob_matcher.specs.Tokens.{DirsAt, Free, Local, TokenAt, IsToken};
ghost use Rattle.glob_matcher.specs.Private.Reader.{is_star};
ghost use Rattle.glob_matcher.specs.Private.States.{StandsAt};
ghost use Rattle.glob_matcher.specs.Private.Turns.{IsTurn};

use super::barrier::NoBarrier;
use super::engine::Engine;
use super::marks::Mark;
use super::needle::{ExactByte, stands_for_itself};
use super::scan::Scan;
use super::set_apart::{Places, SetRun};
use super::state::{Crossing, State, Turn};
use super::texts::Texts;
use super::tokens::TokenKind;
use std::sync::ledger::Ledger;

/// Whether a byte is a token by itself, and no slash at which this local mark would be forgotten.
#[inline(always)]
fn keeps_mark(byte: u8, local: Option<Mark>) -> bool
    ensures token { IsTrue result → StandsForItself byte }
    ensures kept { IsTrue result → byte ≡ slash → local ≡ None }
    ensures other { StandsForItself byte → byte ≢ slash → IsTrue result }
{
    // most bytes are small letters, which come after all that are special
    byte > b'\\' || (stands_for_itself(byte) && (byte != b'/' || local.is_none()))
}

impl<'c, 'a, L: Ledger, M: Texts> Engine<'c, 'a, L, M> {
    /// A turn at a question mark or an escaped byte.
    #[inline(always)]
    fn single_turn(&mut self, state: State, kind: TokenKind, after: usize) -> Turn
        requires stands { StandsAt M.way M.pattern M.value state }
        requires token { IsToken M.way M.pattern state.place kind after }
        requires single { is_star kind ≡ false }
        requires other { kind ≢ TokenKind.Set }
        requires place { state.place < length M.pattern }
        ensures { IsTurn M.way M.pattern M.value state (8 * (after - state.place) - 1) result self.old self.new }
    {
        if !self.fits(kind, state.at) {
            return Turn::Miss(state);
        }
        let next = State {
            place: after,
            at: state.at + 1,
            ..state
        };
        if kind.is_slash() {
            return Turn::On(State {
                local: None,
                ..next
            });
        }
        Turn::On(next)
    }

    /// Turns at sets, up to another token, or a bracket that begins none: the marks stay. Where the value ends, none is read.
    #[inline(always)]
    fn set_turn(&mut self, state: State) -> Turn
        requires stands { StandsAt M.way M.pattern M.value state }
        requires bracket { HasByte M.pattern state.place open_bracket }
        ensures { IsTurn M.way M.pattern M.value state 1 result self.old self.new }
    {
        if state.at >= self.texts.value_len() {
            self.texts.step();
            return Turn::Miss(state);
        }
        let State { place, at, .. } = state;
        let mut places = Places { place, at };
        let run = self.sets_apart(&mut places);
        let Places { place, at } = places;
        let reached = State { place, at, ..state };
        match run {
            SetRun::Held => Turn::On(reached),
            SetRun::Lacks => Turn::Miss(reached),
            SetRun::Broken => Turn::NoMatch,
        }
    }

    /// A turn at a run of stars that crosses slashes: both marks are forgotten, and one is set. At the pattern's end it takes
    /// the rest of the value.
    #[inline(always)]
    fn free_turn(&mut self, state: State, after: usize) -> Turn
        requires stands { StandsAt M.way M.pattern M.value state }
        requires token { TokenAt M.way M.pattern state.place Free after }
        requires inside { after ≤ length M.pattern }
        ensures { IsTurn M.way M.pattern M.value state (8 * (after - state.place) - 4) result self.old self.new }
    {
        if after == self.pattern_len() {
            return Turn::Match;
        }
        let mark = self.set_mark(after, state.at);
        Turn::On(State {
            place: after,
            at: state.at,
            crossing: Crossing::Free(mark),
            local: None,
        })
    }

    /// A turn at a double star with its slash: both marks are forgotten, and one is set.
    #[inline(always)]
    fn dirs_turn(&mut self, state: State, after: usize) -> Turn
        requires stands { StandsAt M.way M.pattern M.value state }
        requires token { DirsAt M.way M.pattern state.place after }
        requires inside { after ≤ length M.pattern }
        ensures { IsTurn M.way M.pattern M.value state (8 * (after - state.place) - 4) result self.old self.new }
    {
        let mark = self.set_mark(after, state.at);
        Turn::On(State {
            place: after,
            at: state.at,
            crossing: Crossing::Dirs(mark),
            local: None,
        })
    }

    /// A turn at a run of stars within a component: its mark is set, and the crossing one stays. Where a slash follows, which
    /// fits at no place before the component's end, the mark is moved there at once.
    #[inline(always)]
    fn local_turn(&mut self, state: State, after: usize) -> Turn
        requires stands { StandsAt M.way M.pattern M.value state }
        requires token { TokenAt M.way M.pattern state.place Local after }
        requires inside { after ≤ length M.pattern }
        ensures { IsTurn M.way M.pattern M.value state (8 * (after - state.place) - 5) result self.old self.new }
    {
        let mark = self.set_mark(after, state.at);
        if !self.has_byte(after, b'/') {
            return Turn::On(State {
                place: after,
                local: Some(mark),
                ..state
            });
        }
        match self.scan_near(mark, ExactByte(b'/'), NoBarrier) {
            Scan::Blocked(_) => Turn::NoMatch,
            Scan::Undecided(end) => Turn::On(State {
                place: end.place(),
                at: end.at(),
                local: Some(end),
                ..state
            }),
            Scan::Found(found) => Turn::On(State {
                place: found.place() + 1,
                at: found.at() + 1,
                local: None,
                ..state
            }),
        }
    }

    /// A turn at a star, a question mark or an escape.
    #[inline(always)]
    fn special_turn(&mut self, state: State) -> Turn
        requires stands { StandsAt M.way M.pattern M.value state }
        requires place { state.place < length M.pattern }
        requires other { slice_index M.pattern state.place ≢ open_bracket }
        ensures { IsTurn M.way M.pattern M.value state 1 result self.old self.new }
    {
        let token = self.token_at(state.place);
        match token.kind {
            TokenKind::Free => self.free_turn(state, token.end),
            TokenKind::Dirs => self.dirs_turn(state, token.end),
            TokenKind::Local => self.local_turn(state, token.end),
            TokenKind::Nothing => {
                self.fits_nothing();
                Turn::NoMatch
            }
            TokenKind::Byte(_) | TokenKind::Any | TokenKind::Set => {
                self.single_turn(state, token.kind, token.end)
            }
        }
    }

    /// A turn at a slash.
    #[inline(always)]
    fn slash_turn(&mut self, state: State) -> Turn
        requires stands { StandsAt M.way M.pattern M.value state }
        requires place { state.place < length M.pattern }
        requires is { slice_index M.pattern state.place ≡ slash }
        ensures { IsTurn M.way M.pattern M.value state 1 result self.old self.new }
    {
        if !self.fits_byte(state.at, b'/') {
            return Turn::Miss(state);
        }
        Turn::On(State {
            place: state.place + 1,
            at: state.at + 1,
            local: None,
            ..state
        })
    }

    /// Turns at bytes that are tokens by themselves, up to another token, or a slash behind a local mark: the marks stay.
    #[inline(always)]
    fn literal_turns(&mut self, state: State) -> Turn
        requires stands { StandsAt M.way M.pattern M.value state }
        requires place { state.place < length M.pattern }
        requires literal { StandsForItself (slice_index M.pattern state.place) }
        requires other { slice_index M.pattern state.place ≢ slash }
        ensures { IsTurn M.way M.pattern M.value state 1 result self.old self.new }
    {
        let mut place = state.place;
        let mut at = state.at;
        'bytes: while place < self.pattern_len() {
            let byte = self.pattern_byte(place);
            if !keeps_mark(byte, state.local) {
                break;
            }
            if !self.fits_byte(at, byte) {
                return Turn::Miss(State { place, at, ..state });
            }
            place += 1;
            at += 1;
        }
        Turn::On(State { place, at, ..state })
    }

    /// The token at this place of the pattern, or the pattern's end, is tested at this place of the value. After a byte that
    /// is a token by itself, the ones that follow it are tested too, up to a slash behind a local mark.
    #[inline(always)]
    pub fn take_turn(&mut self, state: State) -> Turn
        requires { StandsAt M.way M.pattern M.value state }
        ensures { IsTurn M.way M.pattern M.value state 0 result self.old self.new }
    {
        if state.place >= self.pattern_len() {
            if self.ends_at(state.at) {
                return Turn::Match;
            }
            return Turn::Miss(state);
        }
        let byte = self.pattern_byte(state.place);
        if byte == b'/' {
            return self.slash_turn(state);
        }
        if stands_for_itself(byte) {
            return self.literal_turns(state);
        }
        if byte == b'[' {
            return self.set_turn(state);
        }
        self.special_turn(state)
    }
}
