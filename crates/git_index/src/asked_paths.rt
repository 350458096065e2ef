//! The search for an asked path, and for the submodule in which it lies.
ghost use Rattle.std.specs.Prelude.{◌≡◌, ◌↔◌, ◌<◌, ◌≤◌, IfNone, IfSome, IsTrue, List, ℕ, length, map};
ghost use Rattle.git_index.specs.Entries.{tracked};
ghost use Rattle.git_index.specs.Holding.{LiesIn};
ghost use Rattle.git_index.specs.Private.Parts.{EndsSubmodule, HasSubmodules, IsHeldByPath};

use crate::entry::{Entry, Kind};
use crate::index::Index;

/// Whether one of the entries is a submodule.
pub fn has_submodules(entries: &[Entry]) -> bool
    ensures { IsTrue result ↔ HasSubmodules (map tracked entries.now) }
{
    for entry in entries {
        if matches!(entry.kind, Kind::Submodule) {
            return true;
        }
    }
    false
}

/// Whether an entry holds an asked path that is no pattern.
pub fn holds_by_path(index: &Index, asked: &[u8]) -> bool
    ensures { IsTrue result ↔ IsHeldByPath index.now asked.now }
{
    if index.is_tracked(asked) {
        return true;
    }
    let Some(folder) = asked.strip_suffix(b"/") else {
        return index.has_below(asked);
    };
    if index.has_below(folder) {
        return true;
    }
    index.is_submodule(folder)
}

/// Whether a slash stands at a place of an asked path, and a submodule's path before it.
fn ends_submodule(index: &Index, asked: &[u8], place: usize) -> bool
    requires { place < length asked.now }
    ensures { IsTrue result ↔ EndsSubmodule index.now asked.now place }
{
    asked[place] == b'/' && index.is_submodule(&asked[..place])
}

/// The submodule with the shortest path in which an asked path lies.
pub fn submodule_above<'a>(index: &Index, asked: &'a [u8]) -> Option<&'a [u8]>
    ensures some { IfSome result (λ path. LiesIn index.now asked.now path.now
        × ((other : List ℕ) → LiesIn index.now asked.now other → length path.now ≤ length other)) }
    ensures none { IfNone result ((path : List ℕ) → ¬ (LiesIn index.now asked.now path)) }
{
    // a slash at the end has nothing below it
    for place in 0..asked.len().saturating_sub(1) {
        if ends_submodule(index, asked, place) {
            return Some(&asked[..place]);
        }
    }
    None
}
