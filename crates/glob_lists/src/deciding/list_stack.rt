//! Lists that answer: which of their patterns decides about a path, and whether that pattern is negative.
use crate::path::RepositoryPath;
use crate::rules::Rules;

/// Lists of patterns in order, of which a later one decides over an earlier one: plain ones, prepared ones, or those of a caller.
///
/// A rule that asks nothing of lists but what decides about paths is written once, over this.
pub trait ListStack {
    ghost use Rattle.std.specs.Prelude.{◌≡◌, IfSome, List};
    ghost use Rattle.gix_glob.specs.Entries.{Entry};
    ghost use Rattle.gix_glob.specs.EntryLists.{EntryList};
    ghost use Rattle.gix_glob.specs.Patterns.{is_negative};
    ghost use Rattle.glob_lists.specs.Deciding.{Decides, HasEntryAt, IsEntryAt};

    // What a clause sees of a value.
    ghost Seen: { Type 0 };

    // The lists as plain data.
    ghost lists: { Self → List (EntryList Seen) };

    // When the lists may be asked.
    ghost can_decide: { Self → Type 0 };

    // When what they answer is the pattern that decides. Of other lists it is only said that some pattern stands at the places.
    ghost is_lawful: { Self → Type 0 };

    /// Which pattern decides about a path, as [`decide`](crate::decide) answers it: the place of the list and the place of the
    /// mapping in it, both from 0, or `None` where no pattern matches.
    fn decide(&self, path: &RepositoryPath<'_>, rules: Rules) -> Option<(usize, usize)>
        requires { can_decide self.now }
        ensures inside { IfSome result (HasEntryAt (lists self.now)) }
        ensures exact { is_lawful self.now → Decides (lists self.now) path.now.bytes path.now.is_dir rules result };

    /// Whether the pattern at a pair of places is negative.
    fn is_negative(&self, pair: (usize, usize)) -> bool
        requires { HasEntryAt (lists self.now) pair }
        ensures { (entry : Entry Seen) → IsEntryAt (lists self.now) pair entry → result ≡ is_negative entry.mode };
}
