//! Whether each path that one line matches another line matches too.
ghost use Rattle.std.specs.Prelude.{IsTrue};
ghost use Rattle.glob_lint.specs.Lines.{Covers};

use crate::line::Line;
use crate::reading::way_of;
use crate::running::runs_over;
use glob_lists::{Reading, Rules};

/// Whether the right line matches each path that the left one does, by Git's rules. A yes is right for all paths that a work tree can have;
/// a no says nothing.
///
/// The tokens of the right line are run over those of the left: a star takes stars and bytes, and any other token one that takes no more.
pub fn covers(left: &Line<'_>, right: &Line<'_>, rules: Rules) -> bool
    ensures { IsTrue result → Covers rules left.now right.now }
{
    let Reading::Git = rules.reading else {
        return false;
    };
    if right.is_for_folders() && !left.is_for_folders() {
        return false;
    }
    match (left.tokens(), right.tokens()) {
        (Some(left), Some(right)) => runs_over(left, right, way_of(rules.case)),
        _ => false,
    }
}
