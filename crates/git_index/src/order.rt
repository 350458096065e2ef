//! The order of entries: by their paths' bytes, and then by their stages.
ghost use Rattle.std.specs.Prelude.{◌≡◌, ◌↔◌, IsTrue, map};
ghost use Rattle.git_index.specs.Entries.{ComesBefore, InOrder, tracked};

use crate::entry::Entry;
use std::cmp::Ordering;

/// Whether an entry comes before another.
fn comes_before(first: &Entry, second: &Entry) -> bool
    ensures { IsTrue result ↔ ComesBefore (tracked first.now) (tracked second.now) }
{
    match first.path.as_slice().cmp(&second.path.as_slice()) {
        Ordering::Less => true,
        Ordering::Equal => first.stage > 0 && first.stage <= second.stage,
        Ordering::Greater => false,
    }
}

/// Whether each entry comes before the next.
pub fn is_ordered(entries: &[Entry]) -> bool
    ensures { IsTrue result ↔ InOrder (map tracked entries.now) }
{
    let mut rest = entries;
    while let [first, others @ ..] = rest {
        if let [second, ..] = others {
            if !comes_before(first, second) {
                return false;
            }
        }
        rest = others;
    }
    true
}
