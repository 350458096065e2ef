//! Lists that are asked about one path, each in turn: the last one that has a pattern that matches decides.
ghost use Rattle.std.specs.Prelude.{length};
ghost use Rattle.glob_lists.specs.Deciding.{Decides};
ghost use Rattle.glob_lists.specs.Private.Asked.{SpendsOnAllWith};

use gix_glob::wildmatch::Steps;
use std::sync::ledger::Ledger;

/// Lists, and the path that they are asked about.
pub(crate) trait AskedLists {
    ghost use Rattle.std.specs.Prelude.{◌≡◌, ℕ, ◌<◌, List, length};
    ghost use Rattle.glob_lists.specs.declared.rules.Rules.{Rules};
    ghost use Rattle.gix_glob.specs.EntryLists.{EntryList};
    ghost use Rattle.glob_lists.specs.Paths.{Path};
    ghost use Rattle.glob_lists.specs.Private.Asked.{IsLastOfList, SpendsOnListWith};

    // What a clause sees of a value.
    ghost Seen: { Type 0 };

    ghost lists: { Self → List (EntryList Seen) };

    ghost path: { Self → Path };

    ghost rules: { Self → Rules };

    // When the lists may be asked.
    ghost can_ask: { Self → Type 0 };

    // How many looks a list takes besides those at its base and at its patterns.
    ghost more_looks: { EntryList Seen → ℕ };

    /// How many lists there are.
    fn count(&self) -> usize
        ensures { result ≡ length (lists self.now) };

    /// The place of the last pattern of the list at place `i` that matches what the base of the list leaves of the path.
    fn last_match<L: Ledger>(&self, i: usize, counts: &mut Steps<L>) -> Option<usize>
        requires can { can_ask self.now }
        requires inside { i < length (lists self.now) }
        ensures last { IsLastOfList (lists self.now) (path self.now) (rules self.now) i result }
        ensures spends { SpendsOnListWith (lists self.now) more_looks i (length (path self.now).bytes) counts.old counts.new };
}

/// Which pattern decides about the path: the last match of the last list that has one.
#[inline(always)]
pub(crate) fn decide_among<A: AskedLists, L: Ledger>(
    asked: &A,
    counts: &mut Steps<L>,
) -> Option<(usize, usize)>
    requires { A.can_ask asked.now }
    ensures exact { Decides (A.lists asked.now) (A.path asked.now).bytes (A.path asked.now).is_dir (A.rules asked.now) result }
    ensures spends { SpendsOnAllWith (A.lists asked.now) A.more_looks (length (A.path asked.now).bytes) counts.old counts.new }
{
    'lists: for i in (0..asked.count()).rev() {
        if let Some(m) = asked.last_match(i, counts) {
            return Some((i, m));
        }
    }
    None
}
