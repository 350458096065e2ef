//! Putting entries in among others, where both are in order.
ghost use Rattle.std.specs.Prelude.{◌≡◌, ◌++◌, IfOk, map};
ghost use Rattle.git_index.specs.Entries.{tracked};
ghost use Rattle.git_index.specs.Private.Reading.{named_in};
ghost use Rattle.git_index.specs.Split.{before, behind, place, put_in};

use crate::entry::Entry;
use std::alloc::{AllocFailed, Global};
use std::cmp::Ordering;
use std::collections::VecDeque;

/// How an entry stands to one that is put in: by path and stage, and to one of stage 0, which stands for all of its path, by path alone.
fn compare(entry: &Entry, added: &Entry) -> Ordering
    ensures { result ≡ place (tracked entry.now) (tracked added.now) }
{
    let by_path = entry.path.as_slice().cmp(&added.path.as_slice());
    if added.stage == 0 {
        by_path
    } else {
        by_path.then(entry.stage.cmp(&added.stage))
    }
}

/// Moves the entries that stand before an added one behind those that are joined. Those that stand where it does are dropped.
fn move_before(
    joined: &mut Vec<Entry>,
    kept: &mut VecDeque<Entry>,
    added: &Entry,
) -> Result<(), AllocFailed<Entry>>
    ensures moved { IfOk result (λ _. map tracked joined.new.items ≡ map tracked joined.old.items ++ before (tracked added.now) (map tracked kept.old.items)) }
    ensures left { IfOk result (λ _. map tracked kept.new.items ≡ behind (tracked added.now) (map tracked kept.old.items)) }
{
    while let Some(first) = kept.front() {
        let standing = compare(first, added);
        if standing.is_gt() {
            break;
        }
        let Some(entry) = kept.pop_front() else {
            break;
        };
        if standing.is_lt() {
            joined.push(entry)?;
        }
    }
    Ok(())
}

/// Moves all entries behind those that are joined.
fn move_all(joined: &mut Vec<Entry>, kept: VecDeque<Entry>) -> Result<(), AllocFailed<Entry>>
    ensures { IfOk result (λ _. map tracked joined.new.items ≡ map tracked joined.old.items ++ map tracked kept.items) }
{
    let mut kept = kept;
    while let Some(entry) = kept.pop_front() {
        joined.push(entry)?;
    }
    Ok(())
}

/// The kept entries with those of an index among them that have a path. Each of these is put in behind what comes before it, and in place
/// of what stands where it does.
pub fn merged(
    alloc: Global,
    kept: VecDeque<Entry>,
    own: Vec<Entry>,
) -> Result<Vec<Entry>, AllocFailed<Entry>>
    ensures { IfOk result (λ joined. map tracked joined.items ≡ put_in (map tracked kept.items) (named_in (map tracked own.items))) }
{
    let mut joined = Vec::new(alloc);
    let mut kept = kept;
    let mut own = VecDeque::from_vec(own);
    while let Some(entry) = own.pop_front() {
        if !entry.path.is_empty() {
            move_before(&mut joined, &mut kept, &entry)?;
            joined.push(entry)?;
        }
    }
    move_all(&mut joined, kept)?;
    Ok(joined)
}
