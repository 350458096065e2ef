//! Which pattern of several lists, each with its folder, decides about a path in a work tree.
ghost use Rattle.std.specs.Prelude.{◌≡◌, ◌↔◌, ◌<◌, ◌≤◌, ℕ, All, IfSome, IsTrue, MatchOption, Some, false, length, map, slice_get, true};
ghost use Rattle.gix_glob.specs.Paths.{IsFolder};
ghost use Rattle.gix_glob.specs.Patterns.{is_negative};
ghost use Rattle.glob_lists.specs.Deciding.{AnswersAt};
ghost use Rattle.glob_trees.specs.Trees.{DecidesInTree};
ghost use Rattle.gix_glob_c.specs.Lists.{HasPatternAt, IsLawfulList, entry_list, pair_told, reading_of_lists};
ghost use Rattle.gix_glob_c.specs.Parsed.{IsPathOfFile, mode_of};
ghost use Rattle.gix_glob_c.specs.declared.parsed.GlobPattern.{GlobPattern};
ghost use Rattle.gix_glob_c.specs.Parts.{rules_of};

use crate::lists::{GlobList, last_match_under};
use crate::parsed::{GlobPattern, is_negative, path_of_file};
use crate::rules_of;
use glob_lists::{ListStack, Reading, RepositoryPath, Rules};
use glob_trees::decide_in_tree_by;

/// `struct gix_glob_decision`: the place of a list, and that of a pattern in it, both from 0.
#[repr(C)]
#[derive(Copy, Clone)]
pub struct GlobDecision {
    /// The place of the list.
    pub list: usize,
    /// The place of the pattern in its list.
    pub pattern: usize,
}

/// Which pattern decides about a path in a work tree, as [`decide_in_tree`](glob_trees::decide_in_tree) answers it: the one that
/// ignores the topmost ignored folder above the path, and where none is ignored, the last one that matches the path. The reading of the
/// lists' first pattern counts for all. `false` is answered, and `out` left as it was, where none decides, or the path is empty, has a slash
/// at its front or end, or two in a row.
#[unsafe(no_mangle)]
pub extern "C" fn gix_glob_decide_in_tree(
    lists: &[GlobList<'_>],
    path: &[u8],
    is_dir: bool,
    fold: bool,
    out: &mut GlobDecision,
) -> bool
    ensures kept { result ≡ false → out.new ≡ out.old }
    ensures inside { result ≡ true → HasPatternAt lists.now (out.new.list, out.new.pattern) }
    ensures other { ¬ IsPathOfFile path.now → result ≡ false }
    ensures exact { All IsLawfulList lists.now → IsPathOfFile path.now
        → DecidesInTree (map entry_list lists.now) path.now is_dir (rules_of (reading_of_lists lists.now) fold) (pair_told result out.new) }
{
    let Some(path) = path_of_file(path, is_dir) else {
        return false;
    };
    let rules = rules_of(reading_of_lists(lists), fold);
    let lists = HandedLists { lists };
    let Some((list, pattern)) = decide_in_tree_by(&lists, &path, rules) else {
        return false;
    };
    *out = GlobDecision { list, pattern };
    true
}

/// Whose reading counts for the lists of a call: that of their first pattern.
fn reading_of_lists(lists: &[GlobList<'_>]) -> Reading
    ensures { result ≡ reading_of_lists lists.now }
{
    for i in 0..lists.len() {
        if let [first, ..] = lists[i].patterns {
            return first.reading();
        }
    }
    Reading::Crate
}

/// The lists that C hands over.
#[derive(Copy, Clone)]
struct HandedLists<'a> {
    lists: &'a [GlobList<'a>],
}

impl<'a> ListStack for HandedLists<'a> {
    ghost Seen = { Unit {0} };

    ghost lists = { λ handed. map entry_list handed.lists.now };

    ghost can_decide = { λ _. Unit {0} };

    ghost is_lawful = { λ handed. All IsLawfulList handed.lists.now };

    fn decide(&self, path: &RepositoryPath<'_>, rules: Rules) -> Option<(usize, usize)> {
        for i in (0..self.lists.len()).rev() {
            if let Some(m) = last_match_under(&self.lists[i], path, rules) {
                return Some((i, m));
            }
        }
        None
    }

    fn is_negative(&self, pair: (usize, usize)) -> bool {
        is_negative_at(self.lists[pair.0].patterns, pair.1)
    }
}

/// Whether the line of the pattern at a place began with `!`.
fn is_negative_at(patterns: &[GlobPattern<'_>], place: usize) -> bool
    requires { place < length patterns.now }
    ensures { (pattern : GlobPattern) → slice_get patterns.now place ≡ Some pattern → result ≡ is_negative (mode_of pattern) }
{
    is_negative(&patterns[place])
}
