//! The entries of a shared file that a split index keeps, some of them replaced.
ghost use Rattle.std.specs.Prelude.{◌≡◌, IfOk, map};
ghost use Rattle.git_index.specs.Entries.{tracked};
ghost use Rattle.git_index.specs.Private.Reading.{next_of, renewed_at};
ghost use Rattle.git_index.specs.Split.{replaced_by, unmarked};

use crate::entry::Entry;
use std::alloc::{AllocFailed, Global};
use std::collections::VecDeque;

/// The first mark, and the others. Behind the last one none is set.
#[tactic(auto, unfolding(crate::specs::Private::Reading::next_of))]
fn next_mark(marks: &[bool]) -> (bool, &[bool])
    ensures { (result.0, result.1.now) ≡ next_of marks.now }
{
    match marks {
        [first, others @ ..] => (*first, others),
        [] => (false, marks),
    }
}

/// The entry, which the first of the new ones replaces if it is marked: it keeps its path. And the new ones that are left.
#[tactic(auto, unfolding(crate::specs::Private::Reading::renewed_at))]
fn renewed(is_marked: bool, entry: Entry, new: &[Entry]) -> (Entry, &[Entry])
    ensures { (tracked result.0, map tracked result.1.now) ≡ renewed_at is_marked (tracked entry) (map tracked new.now) }
{
    match new {
        [first, others @ ..] if is_marked => {
            let entry = Entry {
                path: entry.path,
                stage: first.stage,
                kind: first.kind,
                assume_valid: first.assume_valid,
                skip_worktree: first.skip_worktree,
                intent_to_add: first.intent_to_add,
            };
            (entry, others)
        }
        _ => (entry, new),
    }
}

/// The shared entries that aren't deleted. Those that are marked as replaced are so by the new ones, in order, and keep their paths.
pub fn kept(
    alloc: Global,
    shared: Vec<Entry>,
    new: &[Entry],
    replaced: &[bool],
    deleted: &[bool],
) -> Result<VecDeque<Entry>, AllocFailed<Entry>>
    ensures { IfOk result (λ kept. map tracked kept.items ≡ unmarked (replaced_by (map tracked shared.items) replaced.now (map tracked new.now)) deleted.now) }
{
    let mut kept = VecDeque::new(alloc);
    let mut left = VecDeque::from_vec(shared);
    let (mut new, mut replaced, mut deleted) = (new, replaced, deleted);
    while let Some(entry) = left.pop_front() {
        let (is_replaced, other_replaced) = next_mark(replaced);
        let (is_deleted, other_deleted) = next_mark(deleted);
        let (entry, others) = renewed(is_replaced, entry, new);
        (new, replaced, deleted) = (others, other_replaced, other_deleted);
        if !is_deleted {
            kept.push_back(entry)?;
        }
    }
    Ok(kept)
}
