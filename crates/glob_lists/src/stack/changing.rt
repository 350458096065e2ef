//! Stacks of prepared lists that come and go: which pattern of them decides about a path.
ghost use Rattle.std.specs.Prelude.{length, map};
ghost use Rattle.gix_glob.specs.EntryLists.{entry_list_of};
ghost use Rattle.gix_glob.specs.Steps.{IsBlankOf};
ghost use Rattle.glob_lists.specs.Deciding.{BasesAreFolders, Decides};
ghost use Rattle.glob_lists.specs.Private.Asks.Showing.{Shows};

use crate::asks::probe::Probe;
use crate::deciding::among::{AskedLists, decide_among};
use crate::deciding::is_negative_in;
use crate::deciding::list_stack::ListStack;
use crate::list::prepared_list::PreparedList;
use crate::list::question::Question;
use crate::path::RepositoryPath;
use crate::rules::Rules;
use gix_glob::search;
use gix_glob::wildmatch::Steps;
use std::marker::Brand;
use std::sync::ledger::{Blank, Ledger};

/// Which pattern decides about a path, as [`decide`](crate::decide) answers it for the lists and under its condition. Most lists are
/// passed over whole, and of the others most patterns, since a path doesn't end as they do, or lacks a byte that they need.
pub fn decide_prepared<T: search::Pattern>(
    lists: &[PreparedList<T>],
    path: &RepositoryPath<'_>,
    rules: Rules,
) -> Option<(usize, usize)>
    requires folders { BasesAreFolders (map (entry_list_of T.seen) lists.now) }
    ensures { Decides (map (entry_list_of T.seen) lists.now) path.now.bytes path.now.is_dir rules result }
{
    decide_with_new_counts::<T, Brand>(lists, path, rules, Blank::new(2))
}

/// Which pattern decides about a path, with new counts that no one asks for.
#[inline(always)]
fn decide_with_new_counts<T: search::Pattern, L: Ledger>(
    lists: &[PreparedList<T>],
    path: &RepositoryPath<'_>,
    rules: Rules,
    blank: Blank,
) -> Option<(usize, usize)>
    requires folders { BasesAreFolders (map (entry_list_of T.seen) lists.now) }
    requires blank { IsBlankOf L.name L.parts blank }
    ensures { Decides (map (entry_list_of T.seen) lists.now) path.now.bytes path.now.is_dir rules result }
{
    let mut counts = Steps::<L>::new(blank);
    let probe = probe_of(lists, path, &mut counts);
    let question = Question { path, probe, rules };
    let question = &question;
    decide_among(&Asked { lists, question }, &mut counts)
}

/// Prepared lists that come and go, and what they are asked.
#[derive(Drop)]
struct Asked<'a, 'q, 'p, T: search::Pattern> {
    lists: &'a [PreparedList<T>],
    question: &'a Question<'q, 'p>,
}

impl<'a, 'q, 'p, T: search::Pattern> AskedLists for Asked<'a, 'q, 'p, T> {
    ghost Seen = { T.Seen };

    ghost lists = { λ asked. map (entry_list_of T.seen) asked.lists.now };

    ghost path = { λ asked. asked.question.now.path.now };

    ghost rules = { λ asked. asked.question.now.rules };

    ghost can_ask = { λ asked. BasesAreFolders (map (entry_list_of T.seen) asked.lists.now)
        × Shows asked.question.now.path.now.bytes asked.question.now.probe };

    ghost more_looks = { λ list. length list.entries };

    #[inline(always)]
    fn count(&self) -> usize {
        self.lists.len()
    }

    #[inline(always)]
    fn last_match<L: Ledger>(&self, i: usize, counts: &mut Steps<L>) -> Option<usize> {
        self.lists[i].last_match(self.question, counts)
    }
}

impl<'a, T: search::Pattern> ListStack for &'a [PreparedList<T>] {
    ghost Seen = { T.Seen };

    ghost lists = { λ lists. map (entry_list_of T.seen) lists.now };

    ghost can_decide = { λ lists. BasesAreFolders (map (entry_list_of T.seen) lists.now) };

    ghost is_lawful = { λ _. Unit {0} };

    #[inline(always)]
    fn decide(&self, path: &RepositoryPath<'_>, rules: Rules) -> Option<(usize, usize)> {
        decide_prepared(*self, path, rules)
    }

    #[inline(always)]
    fn is_negative(&self, pair: (usize, usize)) -> bool {
        is_negative_in(self[pair.0].list(), pair.1)
    }
}

/// What a path shows. All its bytes are read only where a pattern may need some, which few lists have.
#[inline(always)]
fn probe_of<T: search::Pattern, L: Ledger>(
    lists: &[PreparedList<T>],
    path: &RepositoryPath<'_>,
    counts: &mut Steps<L>,
) -> Probe
    ensures { Shows path.now.bytes result }
{
    let bytes = path.bytes();
    let start = path.basename_start();
    let probe = Probe::of_end(bytes, counts).with_name(bytes, start, counts);
    if !have_paths(lists) {
        return probe;
    }
    probe.with_path(bytes, start, counts)
}

/// Whether a pattern of some list may need some bytes of a whole path.
#[inline(always)]
fn have_paths<T: search::Pattern>(lists: &[PreparedList<T>]) -> bool {
    'lists: for list in lists {
        if list.has_paths() {
            return true;
        }
    }
    false
}
