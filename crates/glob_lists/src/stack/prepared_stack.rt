//! Lists of patterns that are prepared together: which of their patterns match a path, and which one decides.
ghost use Rattle.std.specs.Prelude.{◌≡◌, ◌+◌, ◌*◌, ◌<◌, ◌≤◌, IfOk, IsSome, OnOk, length, map};
ghost use Rattle.gix_glob.specs.EntryLists.{entry_list_of};
ghost use Rattle.gix_glob.specs.Steps.{IsBlankOf, NeverFall};
ghost use Rattle.glob_lists.specs.Deciding.{BasesAreFolders, Decides};
ghost use Rattle.glob_lists.specs.DecisionLimits.{decision_look_limit, decision_step_limit, prepared_look_limit};
ghost use Rattle.glob_lists.specs.Matches.{AreMatches, entry_count};
ghost use Rattle.glob_lists.specs.Private.Asks.Showing.{Shows};
ghost use Rattle.glob_lists.specs.Private.Looking.{LooksUpTo};

use crate::asks::probe::Probe;
use crate::list::question::Question;
use crate::path::RepositoryPath;
use crate::rules::Rules;
use crate::stack::lists::PreparedLists;
use gix_glob::search;
use gix_glob::search::pattern::List;
use gix_glob::wildmatch::Steps;
use std::alloc::{AllocError, Global};
use std::marker::{Brand, Model};
use std::sync::ledger::{Blank, Ledger};

/// Lists of patterns, each prepared. It is made once, and then tests only the few patterns that can match a path. Contracts see its
/// lists, and the rules by which patterns are matched.
#[derive(Debug, Drop)]
pub struct PreparedStack<'a, T: search::Pattern> {
    lists: PreparedLists<'a, T>,
    rules: Rules,
    /// How many bytes a path has at most of which the sets are made: as many as there are patterns, or 0 where none needs some.
    longest: usize,
}

impl<'a, T: search::Pattern> Model for PreparedStack<'a, T> {
    ghost use Rattle.glob_lists.specs.Matches.{RuledLists};

    ghost Value = { RuledLists T T.Value };

    ghost view = { λ stack. record { lists = stack.lists; rules = stack.rules } };
}

/// What decides about a path, and what it took to find it.
#[derive(Debug, Clone, Copy, PartialEq, Eq)]
pub struct CountedDecision {
    /// The place of the list and of the mapping that decides, both from 0; `None` where no pattern matches.
    pub pair: Option<(usize, usize)>,
    /// How many patterns were left to be asked whether they match, where the path lies below the base of their list. Contracts say
    /// only that it is no more than all of them, and not 0 where one decides.
    pub asked: usize,
}

impl<'a, T: search::Pattern> PreparedStack<'a, T> {
    /// Prepares lists, whose bases have to be those of folders: [`bases_are_folders`](crate::bases_are_folders). It takes 16 bytes for
    /// each pattern, 32 in lists of many, some 150 for each list, and 2 KB more for each list of many patterns.
    ///
    /// # Errors
    /// Only where memory was refused.
    pub fn new(
        alloc: Global,
        lists: &'a [List<T>],
        rules: Rules,
    ) -> Result<PreparedStack<'a, T>, AllocError>
        requires folders { BasesAreFolders (map (entry_list_of T.seen) lists.now) }
        ensures { IfOk result (λ stack. (stack.lists ≡ lists.entry.now) × (stack.rules ≡ rules)) }
    {
        let prepared = PreparedLists::of(alloc, lists)?;
        let longest = if prepared.has_open() {
            pattern_count(lists)
        } else {
            0
        };
        Ok(PreparedStack {
            lists: prepared,
            rules,
            longest,
        })
    }

    /// The lists.
    pub fn lists(&self) -> &'a [List<T>]
        ensures { result.now ≡ self.now.lists }
    {
        self.lists.lists()
    }

    /// The rules by which patterns are matched.
    pub fn rules(&self) -> Rules
        ensures { result ≡ self.now.rules }
    {
        self.rules
    }

    /// Which pattern decides about a path, as [`decide`](crate::decide) answers it for the lists. No memory is taken.
    ///
    /// Of each list whose base the path begins with, the patterns alone are tested that ask for nothing that the path doesn't show.
    pub fn decide(&self, path: &RepositoryPath<'_>) -> Option<(usize, usize)>
        ensures { Decides (map (entry_list_of T.seen) self.now.lists) path.now.bytes path.now.is_dir self.now.rules result }
    {
        self.decide_with_new_counts::<Brand>(path, Blank::new(2))
    }

    /// Which pattern decides about a path, with new counts that no one asks for.
    #[inline(always)]
    fn decide_with_new_counts<L: Ledger>(
        &self,
        path: &RepositoryPath<'_>,
        blank: Blank,
    ) -> Option<(usize, usize)>
        requires blank { IsBlankOf L.name L.parts blank }
        ensures { Decides (map (entry_list_of T.seen) self.now.lists) path.now.bytes path.now.is_dir self.now.rules result }
    {
        self.decide_with_counts(path, &mut Steps::<L>::new(blank))
    }

    /// Which pattern decides about a path, as [`PreparedStack::decide`] answers it, with its steps and looks counted. No memory is
    /// taken.
    ///
    /// The counts rise by at most what [`decide_with_counts`](crate::decide_with_counts) says for the lists, and that of looks by
    /// three times the path's length and 1 besides, and one for each pattern.
    pub fn decide_with_counts<L: Ledger>(
        &self,
        path: &RepositoryPath<'_>,
        counts: &mut Steps<L>,
    ) -> Option<(usize, usize)>
        ensures exact { Decides (map (entry_list_of T.seen) self.now.lists) path.now.bytes path.now.is_dir self.now.rules result }
        ensures steps { counts.new.steps
            ≤ counts.old.steps + decision_step_limit (map (entry_list_of T.seen) self.now.lists) (length path.now.bytes) }
        ensures looks { counts.new.looks
            ≤ counts.old.looks + decision_look_limit (map (entry_list_of T.seen) self.now.lists) (length path.now.bytes)
            + prepared_look_limit (map (entry_list_of T.seen) self.now.lists) (length path.now.bytes) }
        ensures grows { NeverFall counts.old counts.new }
    {
        let question = self.question(path, counts);
        self.lists.decide(&question, counts)
    }

    /// What the lists are asked. The sets of the path's bytes are made where that is less work than the patterns that they pass over. A
    /// look is counted at each byte that is read.
    #[inline(always)]
    fn question<'q, 'p, L: Ledger>(
        &self,
        path: &'q RepositoryPath<'p>,
        counts: &mut Steps<L>,
    ) -> Question<'q, 'p>
        ensures path { (result.path.now ≡ path.entry.now) × (result.rules ≡ self.now.rules) }
        ensures shows { Shows result.path.now.bytes result.probe }
        ensures looks { LooksUpTo counts.old counts.new (3 * length path.entry.now.bytes + 1) }
    {
        let bytes = path.bytes();
        let has_sets = bytes.len() <= self.longest;
        Question {
            path,
            probe: Probe::new(bytes, path.basename_start(), has_sets, counts),
            rules: self.rules,
        }
    }

    /// Which pattern decides about a path, as [`PreparedStack::decide`] answers it, and how many patterns were left to be asked: the fewer,
    /// the more the preparation saves. No memory is taken.
    pub fn decide_and_count(&self, path: &RepositoryPath<'_>) -> CountedDecision
        ensures decides { Decides (map (entry_list_of T.seen) self.now.lists) path.now.bytes path.now.is_dir self.now.rules result.pair }
        ensures each_once { result.asked ≤ entry_count (map (entry_list_of T.seen) self.now.lists) }
        ensures some { IsSome result.pair → 0 < result.asked }
    {
        self.decide_and_count_with_new_counts::<Brand>(path, Blank::new(2))
    }

    /// Which pattern decides about a path, and how many were left to be asked, with new counts that no one asks for.
    #[inline(always)]
    fn decide_and_count_with_new_counts<L: Ledger>(
        &self,
        path: &RepositoryPath<'_>,
        blank: Blank,
    ) -> CountedDecision
        requires blank { IsBlankOf L.name L.parts blank }
        ensures decides { Decides (map (entry_list_of T.seen) self.now.lists) path.now.bytes path.now.is_dir self.now.rules result.pair }
        ensures each_once { result.asked ≤ entry_count (map (entry_list_of T.seen) self.now.lists) }
        ensures some { IsSome result.pair → 0 < result.asked }
    {
        let mut counts = Steps::<L>::new(blank);
        let question = self.question(path, &mut counts);
        let pair = self.lists.decide(&question, &mut counts);
        let asked = match pair {
            Some((list, mapping)) => self.lists.count_shown_from(list, mapping, &question),
            None => self.lists.count_shown_from(0, 0, &question),
        };
        CountedDecision { pair, asked }
    }

    /// All patterns that match a path, in order: the places of the list and of the mapping in it, lists first.
    ///
    /// # Errors
    /// Only where memory was refused.
    pub fn matches(
        &self,
        alloc: Global,
        path: &RepositoryPath<'_>,
    ) -> Result<Vec<(usize, usize)>, AllocError>
        ensures { IfOk result (λ found. AreMatches (map (entry_list_of T.seen) self.now.lists) path.now.bytes path.now.is_dir self.now.rules found.items) }
    {
        let mut pairs = Vec::new(alloc);
        self.matches_into(path, &mut pairs)?;
        Ok(pairs)
    }

    /// Puts into `pairs` all patterns that match a path, as [`PreparedStack::matches`] answers them, in place of what it held. So
    /// one list of pairs serves many paths, and memory is taken only where it has to grow.
    ///
    /// # Errors
    /// Only where memory was refused. What `pairs` holds then is not said.
    pub fn matches_into(
        &self,
        path: &RepositoryPath<'_>,
        pairs: &mut Vec<(usize, usize)>,
    ) -> Result<(), AllocError>
        ensures { OnOk result (AreMatches (map (entry_list_of T.seen) self.now.lists) path.now.bytes path.now.is_dir self.now.rules pairs.new.items) }
    {
        self.matches_with_new_counts::<Brand>(path, pairs, Blank::new(2))
    }

    /// Puts into `pairs` all patterns that match a path, with new counts that no one asks for.
    #[inline(always)]
    fn matches_with_new_counts<L: Ledger>(
        &self,
        path: &RepositoryPath<'_>,
        pairs: &mut Vec<(usize, usize)>,
        blank: Blank,
    ) -> Result<(), AllocError>
        requires blank { IsBlankOf L.name L.parts blank }
        ensures { OnOk result (AreMatches (map (entry_list_of T.seen) self.now.lists) path.now.bytes path.now.is_dir self.now.rules pairs.new.items) }
    {
        let mut counts = Steps::<L>::new(blank);
        let question = self.question(path, &mut counts);
        self.lists.matches_into(&question, pairs, &mut counts)
    }
}

/// How many patterns the lists have, or the greatest number where they have more.
fn pattern_count<T: search::Pattern>(lists: &[List<T>]) -> usize {
    let mut count: usize = 0;
    for list in lists {
        count = count.saturating_add(list.patterns.len());
    }
    count
}
