//! What the patterns of a list ask of a path: so most of them are passed over untested.
ghost use Rattle.std.specs.Prelude.{◌≡◌, ◌-◌, ◌^◌, ◌<◌, ◌≤◌, ℕ, IfOk, IfSome, IsTrue, MatchOption, Some, [], length, slice_get};
ghost use Rattle.gix_glob.specs.EntryLists.{entry_list_of};
ghost use Rattle.gix_glob.specs.Stripping.{strip_looks};
ghost use Rattle.glob_lists.specs.Deciding.{AnswersAt, HasFolder};
ghost use Rattle.glob_lists.specs.Prepared.{AreAsked};
ghost use Rattle.glob_lists.specs.Private.Asks.Showing.{Passes, Shows};
ghost use Rattle.glob_lists.specs.Private.Asks.Sights.{IsUnseen};
ghost use Rattle.glob_lists.specs.Private.Lists.Answering.{IsLastMatch, IsNextMatch, IsRest, IsWalkOf, NoneAnswers, Spends, SpendsDown};
ghost use Rattle.glob_lists.specs.Private.Lists.Chains.{AreChained};
ghost use Rattle.glob_lists.specs.Private.Lists.Prepared.{AreRowsOf};
ghost use Rattle.glob_lists.specs.Private.Looking.{LooksUpTo};

use crate::asks::probe::Probe;
use crate::asks::row::{Row, count_shown};
use crate::asks::sight::Sight;
use crate::laws;
use crate::link::Link;
use crate::list::answering::is_answer;
use crate::list::chains::{chain, chain_count};
use crate::list::question::Question;
use crate::list::walk::Walk;
use crate::path::RepositoryPath;
use gix_glob::search;
use gix_glob::search::pattern::List;
use gix_glob::wildmatch::Steps;
use std::alloc::{AllocError, Global};
use std::sync::ledger::Ledger;

/// What the patterns of a list ask of a path.
#[derive(Debug, Drop)]
pub(crate) struct ListRows {
    /// What each pattern asks for, in order.
    rows: Vec<Row>,
    /// What they ask for together; where it isn't known, no path passes over the list.
    sight: Option<Sight>,
    /// The last row of each chain; none where the rows aren't chained.
    heads: Vec<Link>,
}

impl ListRows {
    /// What the patterns of a list ask for.
    pub(crate) fn of<T: search::Pattern>(
        alloc: Global,
        list: &List<T>,
    ) -> Result<ListRows, AllocError>
        ensures { IfOk result (AreRowsOf (entry_list_of T.seen list.now)) }
    {
        let mut heads = Vec::from_elem(alloc, Link::NONE, chain_count(list.patterns.len()))?;
        let rows = rows_of(alloc, list, &mut heads)?;
        let sight = Sight::of_all(&rows);
        Ok(ListRows { rows, sight, heads })
    }

    /// Whether a row needs some bytes or pairs of a path.
    pub(crate) fn has_open(&self) -> bool {
        match &self.sight {
            Some(sight) => sight.has_open(),
            None => true,
        }
    }

    /// Whether a row may need some bytes of a whole path.
    #[inline(always)]
    pub(crate) fn has_paths(&self) -> bool {
        match &self.sight {
            Some(sight) => sight.has_paths(),
            None => true,
        }
    }

    /// How many rows from a place on ask for nothing that a path doesn't show.
    pub(crate) fn count_shown(&self, from: usize, probe: &Probe) -> usize
        ensures few { result ≤ length self.now.rows.items - from }
        ensures some { (row : Row) → slice_get self.now.rows.items from ≡ Some row → Passes row probe.now → 0 < result }
    {
        count_shown(&self.rows, from, probe)
    }

    /// The place of the last mapping of the list that matches what its base leaves of a path.
    #[inline(always)]
    pub(crate) fn last_match<T: search::Pattern, L: Ledger>(
        &self,
        list: &List<T>,
        question: &Question<'_, '_>,
        counts: &mut Steps<L>,
    ) -> Option<usize>
        requires of { AreRowsOf (entry_list_of T.seen list.now) self.now }
        requires folder { HasFolder (entry_list_of T.seen list.now) }
        requires shows { Shows question.now.path.now.bytes question.now.probe }
        ensures last { IsLastMatch (entry_list_of T.seen list.now) question.now.path.now question.now.rules result }
        ensures spends { Spends (entry_list_of T.seen list.now) (length question.now.path.now.bytes) counts.old counts.new }
    {
        let rest = self.rest(list, question, counts)?;
        let mut walk = self.walk(list, question);
        self.next_match(list, question, &rest, &mut walk, counts)
    }

    /// What the base of the list leaves of a path. `None` where no mapping matches, as the path tells at once: it shows nothing that the
    /// patterns ask for together, or doesn't begin with the base.
    #[inline(always)]
    pub(crate) fn rest<'p, T: search::Pattern, L: Ledger>(
        &self,
        list: &List<T>,
        question: &Question<'_, 'p>,
        counts: &mut Steps<L>,
    ) -> Option<RepositoryPath<'p>>
        requires of { AreRowsOf (entry_list_of T.seen list.now) self.now }
        requires folder { HasFolder (entry_list_of T.seen list.now) }
        requires shows { Shows question.now.path.now.bytes question.now.probe }
        ensures rest { MatchOption result
            ((m : ℕ) → ¬ AnswersAt (entry_list_of T.seen list.now) question.now.path.now.bytes question.now.path.now.is_dir question.now.rules m)
            (IsRest (entry_list_of T.seen list.now) question.now.path.now question.now.rules) }
        ensures looks { LooksUpTo counts.old counts.new (strip_looks (entry_list_of T.seen list.now).base (length question.now.path.now.bytes)) }
    {
        // a law does nothing: it is called for what it ensures
        laws::answering_patterns_pass();
        if self.is_passed_over(&question.probe) {
            return None;
        }
        question
            .path
            .under_with_counts(list, question.rules.case, counts)
    }

    /// The start of a walk over the rows of the list.
    #[inline(always)]
    pub(crate) fn walk<T: search::Pattern>(
        &self,
        list: &List<T>,
        question: &Question<'_, '_>,
    ) -> Walk
        requires { AreRowsOf (entry_list_of T.seen list.now) self.now }
        ensures walk { IsWalkOf self.now question.now.probe result }
        ensures all { result.passed_from ≡ length self.now.rows.items }
    {
        Walk::down(&self.rows, &self.heads, &question.probe)
    }

    /// Whether a path shows nothing that the patterns ask for together.
    #[inline(always)]
    fn is_passed_over(&self, probe: &Probe) -> bool
        ensures { IsTrue result → IsUnseen self.now.sight probe.now }
    {
        match &self.sight {
            Some(sight) => !sight.is_seen(probe),
            None => false,
        }
    }

    /// The place of the next mapping that matches, below where a path has come. A mapping isn't tested where it asks for what the path
    /// doesn't show; one look is counted at each that is passed, and those of the tests.
    #[inline(always)]
    pub(crate) fn next_match<T: search::Pattern, L: Ledger>(
        &self,
        list: &List<T>,
        question: &Question<'_, '_>,
        rest: &RepositoryPath<'_>,
        walk: &mut Walk,
        counts: &mut Steps<L>,
    ) -> Option<usize>
        requires of { AreRowsOf (entry_list_of T.seen list.now) self.now }
        requires folder { HasFolder (entry_list_of T.seen list.now) }
        requires shows { Shows question.now.path.now.bytes question.now.probe }
        requires rest { IsRest (entry_list_of T.seen list.now) question.now.path.now question.now.rules rest.now }
        requires walk { IsWalkOf self.now question.now.probe walk.old }
        ensures walk { IsWalkOf self.now question.now.probe walk.new }
        ensures next { MatchOption result
            (NoneAnswers (entry_list_of T.seen list.now) question.now.path.now question.now.rules 0 walk.old.passed_from)
            (IsNextMatch (entry_list_of T.seen list.now) question.now.path.now question.now.rules walk.new.passed_from walk.old.passed_from) }
        ensures spends { SpendsDown (entry_list_of T.seen list.now) (length question.now.path.now.bytes)
            walk.old.passed_from walk.new.passed_from counts.old counts.new }
    {
        // a law does nothing: it is called for what it ensures
        laws::answering_patterns_pass();
        let mappings = list.patterns.as_slice();
        let rows = self.rows.as_slice();
        let heads = self.heads.as_slice();
        let probe = &question.probe;
        'candidates: while let Some(m) = walk.next::<true, L>(rows, heads, probe, counts) {
            let row = &rows[m];
            let pattern = mappings[m].pattern.view();
            if is_answer(row, probe, pattern, rest, question.rules, counts) {
                return Some(m);
            }
        }
        None
    }
}

/// What each pattern of a list asks for, in order, chained from these heads on.
fn rows_of<T: search::Pattern>(
    alloc: Global,
    list: &List<T>,
    heads: &mut [Link],
) -> Result<Vec<Row>, AllocError>
    requires few { length heads.old < 2 ^ 32 }
    requires fits { 1 < length heads.old → length list.now.patterns.items < 2 ^ 32 }
    requires none { AreChained [] heads.old }
    ensures asked { IfOk result (λ rows. AreAsked (entry_list_of T.seen list.now).entries rows.items) }
    ensures chained { IfOk result (λ rows. 1 < length heads.old → AreChained rows.items heads.new) }
    ensures many { length heads.new ≡ length heads.old }
{
    let mappings = list.patterns.as_slice();
    let mut rows = Vec::with_capacity(alloc, mappings.len())?;
    'mappings: for m in 0..mappings.len() {
        rows.push(chain(heads, Row::new(&mappings[m].pattern), m))?;
    }
    Ok(rows)
}
