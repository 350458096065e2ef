//! A walk over rows, from the last one to the first: it meets those that may have an end of the path, and those that have none. Nothing is
//! believed of the rows and their links: whatever they say, the walk stays inside and ends.
ghost use Rattle.std.specs.Prelude.{◌≡◌, ◌↔◌, ◌-◌, ◌^◌, ◌<◌, ◌≤◌, IfSome, IsTrue, List, MatchOption, length, slice_index_or, slice_set, true};
ghost use Rattle.glob_lists.specs.Private.Lists.Chains.{AreChained, chains_of};
ghost use Rattle.glob_lists.specs.Private.Lists.Walking.{HasNext, IsBelieved, IsFresh, IsInside, IsLatest, IsNextFrom, IsWalk, IsWalkOver, next_of};
ghost use Rattle.glob_lists.specs.Private.Looking.{LooksUpTo};
ghost use Rattle.glob_lists.specs.declared.asks.probe.Probe.{Probe};
ghost use Rattle.glob_lists.specs.declared.link.Link.{Link};
ghost use Rattle.glob_lists.specs.declared.link.TheConstants.Link.{NONE};

use crate::asks::literals::LONGEST_END;
use crate::asks::probe::{Lacking, Probe};
use crate::asks::row::Row;
use crate::link::Link;
use crate::list::chains::end_chain;
use gix_glob::wildmatch::Steps;
use std::sync::ledger::Ledger;

/// How far a walk for a path has come.
#[derive(Debug, Copy, Clone)]
pub(crate) struct Walk {
    /// The next row of each chain that may have an end of the path.
    nexts: [Link; LONGEST_END],
    /// How many chains those are.
    count: usize,
    /// Which of them has the latest next row.
    latest: usize,
    /// The next row without an end.
    other: Link,
    /// What the path lacks.
    lacking: Lacking,
    /// The place from which on all rows were passed.
    pub(crate) passed_from: usize,
}

impl Walk {
    /// The start of a walk that meets what can pass of a path, over rows that are chained from these heads on.
    #[inline(always)]
    pub(crate) fn down(rows: &[Row], heads: &[Link], probe: &Probe) -> Walk
        requires few { length heads.now < 2 ^ 32 }
        ensures inside { IsInside (length rows.now) result }
        ensures other { result.other.0 ≤ length rows.now }
        ensures all { result.passed_from ≡ length rows.now }
        ensures walk { (1 < length heads.now → AreChained rows.now heads.now) → IsWalkOver rows.now heads.now probe.now result }
    {
        let mut walk = Walk {
            nexts: [Link::NONE; LONGEST_END],
            count: 0,
            latest: 0,
            other: Link::NONE,
            lacking: probe.lacking(),
            passed_from: rows.len(),
        };
        if heads.len() > 1 {
            walk.begin(rows, heads, probe);
        }
        walk
    }

    /// Begins a walk that stands behind all rows with the last row without an end, and with those of the chains that may have an end of the
    /// path. It is no part of [`Walk::down`], which serves many lists without chains, for which nothing of this is worked out.
    #[inline(never)]
    fn begin(&mut self, rows: &[Row], heads: &[Link], probe: &Probe)
        requires some { 1 < length heads.now }
        requires few { length heads.now < 2 ^ 32 }
        requires fresh { IsFresh (length rows.now) probe.now self.old }
        ensures inside { IsInside (length rows.now) self.new }
        ensures other { self.new.other.0 ≤ length rows.now }
        ensures all { self.new.passed_from ≡ length rows.now }
        ensures walk { AreChained rows.now heads.now → IsWalkOver rows.now heads.now probe.now self.new }
    {
        self.other = heads[0].among::<false>(rows.len());
        'lengths: for n in 0..LONGEST_END {
            let next = heads[end_chain(heads.len(), probe.key(n as u8 + 1))];
            if next.is_after(Link::NONE) && !self.has(next) {
                self.nexts[self.count] = next;
                self.count += 1;
            }
        }
        if self.count > 1 {
            self.choose();
        }
    }

    /// Whether a row is the next one of some chain.
    #[inline(always)]
    fn has(&self, next: Link) -> bool
        requires few { self.now.count ≤ LONGEST_END }
        ensures { IsTrue result ↔ HasNext self.now next }
    {
        'nexts: for n in 0..self.count {
            if self.nexts[n].number() == next.number() {
                return true;
            }
        }
        false
    }

    /// Chooses the latest of the next rows.
    #[inline(always)]
    fn choose(&mut self)
        requires few { self.old.count ≤ LONGEST_END }
        requires none { self.old.count ≡ 0 → next_of self.old 0 ≡ 0 }
        ensures same { self.new ≡ record self.old { latest = self.new.latest } }
        ensures latest { IsLatest self.new }
    {
        let mut latest: usize = 0;
        'nexts: for n in 1..self.count {
            if self.nexts[n].is_after(self.nexts[latest]) {
                latest = n;
            }
        }
        self.latest = latest;
    }

    /// The next place of a walk whose row passes, over rows that are chained from these heads on; over all rows in turn where there are
    /// none. Links are believed only where the rows are known to be chained. A look is counted at each row that is met.
    #[inline(always)]
    pub(crate) fn next<const IS_BELIEVED: bool, L: Ledger>(
        &mut self,
        rows: &[Row],
        heads: &[Link],
        probe: &Probe,
        counts: &mut Steps<L>,
    ) -> Option<usize>
        requires inside { IsInside (length rows.now) self.old }
        requires other { 1 < length heads.now → self.old.other.0 ≤ self.old.passed_from }
        requires believed { IS_BELIEVED ≡ true → 1 < length heads.now → AreChained rows.now heads.now × IsWalkOver rows.now heads.now probe.now self.old }
        ensures inside { IsInside (length rows.now) self.new }
        ensures other { 1 < length heads.now → self.new.other.0 ≤ self.new.passed_from }
        ensures met { IfSome result (λ place. (place < self.old.passed_from) × (self.new.passed_from ≡ place)) }
        ensures falls { self.new.passed_from ≤ self.old.passed_from }
        ensures looks { LooksUpTo counts.old counts.new (self.old.passed_from - self.new.passed_from) }
        ensures walk { (1 < length heads.now → AreChained rows.now heads.now) → IsWalkOver rows.now heads.now probe.now self.old
            → IsWalkOver rows.now heads.now probe.now self.new }
        ensures next { (1 < length heads.now → AreChained rows.now heads.now) → IsWalkOver rows.now heads.now probe.now self.old
            → IsNextFrom rows.now probe.now 0 self.old.passed_from result }
    {
        if heads.len() < 2 {
            self.next_in_turn(rows, probe, counts)
        } else {
            self.next_chained::<IS_BELIEVED, L>(rows, probe, counts)
        }
    }

    /// The same, over all rows in turn.
    #[inline(always)]
    fn next_in_turn<L: Ledger>(
        &mut self,
        rows: &[Row],
        probe: &Probe,
        counts: &mut Steps<L>,
    ) -> Option<usize>
        requires inside { self.old.passed_from ≤ length rows.now }
        ensures same { self.new ≡ record self.old { passed_from = self.new.passed_from } }
        ensures met { IfSome result (λ place. (place < self.old.passed_from) × (self.new.passed_from ≡ place)) }
        ensures falls { self.new.passed_from ≤ self.old.passed_from }
        ensures looks { LooksUpTo counts.old counts.new (self.old.passed_from - self.new.passed_from) }
        ensures next { IsNextFrom rows.now probe.now 0 self.old.passed_from result }
    {
        let mut end = self.passed_from;
        'rows: while end > 0 {
            end -= 1;
            counts.looks(1);
            if rows[end].is_shown_by(probe) {
                self.passed_from = end;
                return Some(end);
            }
        }
        self.passed_from = 0;
        None
    }

    /// The same, over rows that are chained.
    #[inline(always)]
    fn next_chained<const IS_BELIEVED: bool, L: Ledger>(
        &mut self,
        rows: &[Row],
        probe: &Probe,
        counts: &mut Steps<L>,
    ) -> Option<usize>
        requires inside { IsInside (length rows.now) self.old }
        requires other { self.old.other.0 ≤ self.old.passed_from }
        requires believed { IS_BELIEVED ≡ true → IsBelieved rows.now probe.now self.old }
        ensures inside { IsInside (length rows.now) self.new }
        ensures other { self.new.other.0 ≤ self.new.passed_from }
        ensures met { IfSome result (λ place. (place < self.old.passed_from) × (self.new.passed_from ≡ place)) }
        ensures falls { self.new.passed_from ≤ self.old.passed_from }
        ensures looks { LooksUpTo counts.old counts.new (self.old.passed_from - self.new.passed_from) }
        ensures chained { (heads : List Link) → AreChained rows.now heads → IsWalk (chains_of (length heads) rows.now) rows.now probe.now self.old
            → IsWalk (chains_of (length heads) rows.now) rows.now probe.now self.new × IsNextFrom rows.now probe.now 0 self.old.passed_from result }
    {
        'chains: loop {
            let own = self.nexts[self.latest].among::<IS_BELIEVED>(self.passed_from);
            if let Some(place) = self.next_other::<IS_BELIEVED, L>(own, rows, counts) {
                return Some(place);
            }
            if !own.is_after(self.other) {
                // no row is left
                return None;
            }
            let place = own.number() - 1;
            counts.looks(1);
            self.passed_from = place;
            let row = &rows[place];
            self.go_on(row.before());
            if row.has_end(probe) {
                return Some(place);
            }
        }
    }

    /// The next place of a row without an end that passes, among those after the next row of all other chains. Where there is none, the walk
    /// has come to that row.
    #[inline(always)]
    fn next_other<const IS_BELIEVED: bool, L: Ledger>(
        &mut self,
        own: Link,
        rows: &[Row],
        counts: &mut Steps<L>,
    ) -> Option<usize>
        requires within { self.old.passed_from ≤ length rows.now }
        requires latest { IsLatest self.old }
        requires other { self.old.other.0 ≤ self.old.passed_from }
        requires own { own.0 ≤ self.old.passed_from }
        requires believed { IS_BELIEVED ≡ true → (probe : Probe) × IsBelieved rows.now probe self.old }
        requires own_is { IS_BELIEVED ≡ true → own ≡ slice_index_or self.old.nexts self.old.latest NONE }
        ensures same { self.new ≡ record self.old { other = self.new.other; passed_from = self.new.passed_from } }
        ensures here { MatchOption result (self.new.passed_from ≡ own.0) (λ place. (place < self.old.passed_from) × (self.new.passed_from ≡ place)) }
        ensures other { self.new.other.0 ≤ self.new.passed_from }
        ensures looks { LooksUpTo counts.old counts.new (self.old.passed_from - self.new.passed_from) }
        ensures chained { (heads : List Link) (probe : Probe) → AreChained rows.now heads → IsWalk (chains_of (length heads) rows.now) rows.now probe self.old
            → own ≡ slice_index_or self.old.nexts self.old.latest NONE
            → IsWalk (chains_of (length heads) rows.now) rows.now probe self.new × IsNextFrom rows.now probe own.0 self.old.passed_from result }
    {
        let mut other = self.other;
        'others: while other.is_after(own) {
            let place = other.place()?;
            counts.looks(1);
            let row = &rows[place];
            let before = other.back_to::<IS_BELIEVED>(row.before());
            if row.needs_none_of(&self.lacking) {
                // the place anew: to keep it beside its row would take each turn one instruction more
                let met = other.number() - 1;
                self.passed_from = met;
                self.other = before;
                return Some(met);
            }
            other = before;
        }
        self.passed_from = own.number();
        self.other = other;
        None
    }

    /// Goes on to the row before, of the chain whose row was met.
    #[inline(always)]
    fn go_on(&mut self, before: Link)
        requires latest { self.old.latest < self.old.count }
        requires few { self.old.count ≤ LONGEST_END }
        ensures same { self.new ≡ record self.old { latest = self.new.latest; nexts = slice_set self.old.nexts self.old.latest before } }
        ensures latest { IsLatest self.new }
    {
        self.nexts[self.latest] = before;
        if self.count > 1 {
            self.choose();
        }
    }
}
