//! A list that is prepared: its patterns, and what they ask of a path.
ghost use Rattle.std.specs.Prelude.{◌≡◌, ◌↔◌, IsTrue, length};
ghost use Rattle.gix_glob.specs.EntryLists.{entry_list_of};
ghost use Rattle.glob_lists.specs.Deciding.{HasFolder};
ghost use Rattle.glob_lists.specs.Private.Asks.Showing.{Shows};
ghost use Rattle.glob_lists.specs.Private.Lists.Answering.{IsLastMatch, Spends};

use crate::deciding::{has_folder, last_match};
use crate::list::question::Question;
use crate::list::rows::ListRows;
use gix_glob::search;
use gix_glob::search::pattern::List;
use gix_glob::wildmatch::Steps;
use std::alloc::Global;
use std::marker::Model;
use std::sync::ledger::Ledger;

/// A list of patterns, and what they ask of a path. Contracts see the list.
#[derive(Debug, Drop)]
pub struct PreparedList<T: search::Pattern> {
    list: List<T>,
    /// What the patterns ask for; without it each of them is tested.
    rows: Option<ListRows>,
}

impl<T: search::Pattern> Model for PreparedList<T> {
    ghost use Rattle.std.specs.Prelude.{IfSome};
    ghost use Rattle.gix_glob.specs.EntryLists.{entry_list_of};
    ghost use Rattle.gix_glob.specs.declared.search.pattern.list.List as patterns;
    ghost use Rattle.glob_lists.specs.Private.Lists.Prepared.{AreRowsOf};

    ghost Value = { patterns.List T T.Value };

    ghost view = { λ prepared. prepared.list };

    ghost invariant = { λ prepared. IfSome prepared.rows (AreRowsOf (entry_list_of T.seen prepared.list)) };
}

impl<T: search::Pattern> PreparedList<T> {
    /// Prepares a list. It takes 16 bytes for each pattern, and 32 where there are many. Where memory is refused, the list stays
    /// unprepared: its answers are the same, and cost more.
    pub fn new(alloc: Global, list: List<T>) -> PreparedList<T>
        ensures { result ≡ list }
    {
        let rows = ListRows::of(alloc, &list).ok();
        PreparedList { list, rows }
    }

    /// The list.
    #[inline(always)]
    pub fn list(&self) -> &List<T>
        ensures { result.now ≡ self.now }
    {
        &self.list
    }

    /// Whether the base of the list is that of a folder, as [`bases_are_folders`](crate::bases_are_folders) has it.
    pub fn has_folder(&self) -> bool
        ensures { IsTrue result ↔ HasFolder (entry_list_of T.seen self.now) }
    {
        has_folder(&self.list)
    }

    /// Whether a pattern may need some bytes of a whole path.
    #[inline(always)]
    pub(crate) fn has_paths(&self) -> bool {
        match &self.rows {
            Some(rows) => rows.has_paths(),
            None => false,
        }
    }

    /// The place of the last mapping that matches what the base of the list leaves of a path.
    #[inline(always)]
    pub(crate) fn last_match<L: Ledger>(
        &self,
        question: &Question<'_, '_>,
        counts: &mut Steps<L>,
    ) -> Option<usize>
        requires folder { HasFolder (entry_list_of T.seen self.now) }
        requires shows { Shows question.now.path.now.bytes question.now.probe }
        ensures last { IsLastMatch (entry_list_of T.seen self.now) question.now.path.now question.now.rules result }
        ensures spends { Spends (entry_list_of T.seen self.now) (length question.now.path.now.bytes) counts.old counts.new }
    {
        match &self.rows {
            Some(rows) => rows.last_match(&self.list, question, counts),
            None => last_match(&self.list, question.path, question.rules, counts),
        }
    }
}
