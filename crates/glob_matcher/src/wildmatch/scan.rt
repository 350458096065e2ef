//! The scans from a mark: to the next place of the value that has what follows the star, byte by byte.
ghost use Rattle.std.specs.Prelude.{◌+◌, ◌<◌, ◌≤◌, length};
ghost use Rattle.glob_matcher.specs.Private.Scans.{IsScan, MovesBy, MovesOn};

use super::barrier::Barrier;
use super::engine::Engine;
use super::marks::Mark;
use super::needle::Needle;
use super::texts::Texts;
use std::sync::ledger::Ledger;

/// How many places are tried before the value's end is tested again.
const STRIDE: usize = 8;

/// Where so many bytes are left behind a stride, the next place is searched for.
const FAR: usize = 32;

/// What a scan comes to.
#[derive(Copy, Clone)]
pub enum Scan {
    /// The mark is where the value has what is looked for.
    Found(Mark),
    /// The mark is at a byte that it can't pass.
    Blocked(Mark),
    /// So far neither was met.
    Undecided(Mark),
}

impl<'c, 'a, L: Ledger, M: Texts> Engine<'c, 'a, L, M> {
    /// Tries the place of a mark inside the value.
    #[inline(always)]
    fn try_place<N: Needle, B: Barrier>(&mut self, mark: Mark, needle: N, barrier: B) -> Scan
        requires { mark.at < length M.value }
        ensures scan { IsScan M.value (N.suits needle) B.stops mark result self.old self.new }
        ensures onward { MovesBy 1 mark.at result }
    {
        if self.suits(mark, needle) {
            return Scan::Found(mark);
        }
        if !barrier.is_slash() {
            return Scan::Undecided(self.pass_inside(mark));
        }
        match self.pass_within(mark) {
            None => Scan::Blocked(mark),
            Some(moved) => Scan::Undecided(moved),
        }
    }

    /// Tries places one after the other, at most as many as the stride has, all of which the value holds.
    #[inline(always)]
    fn try_places<N: Needle, B: Barrier>(&mut self, mark: Mark, needle: N, barrier: B) -> Scan
        requires { mark.at + STRIDE ≤ length M.value }
        ensures scan { IsScan M.value (N.suits needle) B.stops mark result self.old self.new }
        ensures onward { MovesBy STRIDE mark.at result }
    {
        let mut reached = mark;
        'stride: for _ in 0..STRIDE {
            match self.try_place(reached, needle, barrier) {
                Scan::Undecided(moved) => reached = moved,
                ended => return ended,
            }
        }
        Scan::Undecided(reached)
    }

    /// The same over many places at once, up to the value's end.
    #[inline(always)]
    fn try_far<N: Needle, B: Barrier>(&mut self, mark: Mark, needle: N, barrier: B) -> Scan
        requires { mark.at ≤ length M.value }
        ensures { IsScan M.value (N.suits needle) B.stops mark result self.old self.new }
    {
        let wanted = needle.any_of(barrier.is_slash());
        let (reached, met) = self.pass_to(mark, wanted);
        let Some(byte) = met else {
            return Scan::Undecided(reached);
        };
        if needle.suits(byte) {
            return Scan::Found(reached);
        }
        self.stay();
        Scan::Blocked(reached)
    }

    /// Tries a stride of places, all of which the value holds, and where none of them ends the scan and many are left, all that
    /// are left. A near end is found at once, without the call that a search takes.
    #[inline(always)]
    fn try_stride<N: Needle, B: Barrier>(&mut self, mark: Mark, needle: N, barrier: B) -> Scan
        requires { mark.at + STRIDE ≤ length M.value }
        ensures scan { IsScan M.value (N.suits needle) B.stops mark result self.old self.new }
        ensures onward { MovesOn mark.at result }
    {
        let tried = self.try_places(mark, needle, barrier);
        let Scan::Undecided(moved) = tried else {
            return tried;
        };
        if !self.has_left(moved, FAR) {
            return tried;
        }
        self.try_far(moved, needle, barrier)
    }

    /// From the mark of a run of stars, the next place of the value that has what is looked for; where there is none, the first
    /// byte that can't be passed, or the value's end.
    #[inline(always)]
    pub fn scan<N: Needle, B: Barrier>(&mut self, mark: Mark, needle: N, barrier: B) -> Scan
        requires { mark.at ≤ length M.value }
        ensures { IsScan M.value (N.suits needle) B.stops mark result self.old self.new }
    {
        let mut reached = mark;
        'bytes: while self.has_left(reached, 1) {
            let scan = if self.has_left(reached, STRIDE) {
                self.try_stride(reached, needle, barrier)
            } else {
                self.try_place(reached, needle, barrier)
            };
            match scan {
                Scan::Undecided(moved) => reached = moved,
                ended => return ended,
            }
        }
        Scan::Undecided(reached)
    }

    /// The same byte by byte, without the call that a search takes: what has seldom far to go keeps its registers.
    #[inline(always)]
    pub fn scan_near<N: Needle, B: Barrier>(&mut self, mark: Mark, needle: N, barrier: B) -> Scan
        requires { mark.at ≤ length M.value }
        ensures { IsScan M.value (N.suits needle) B.stops mark result self.old self.new }
    {
        let mut reached = mark;
        'bytes: while reached.at() < self.texts.value_len() {
            match self.try_place(reached, needle, barrier) {
                Scan::Undecided(moved) => reached = moved,
                ended => return ended,
            }
        }
        Scan::Undecided(reached)
    }
}
