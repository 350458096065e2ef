//! Laws of what lists say of a path: each is a call that does nothing, which a caller makes to know what it ensures.
ghost use Rattle.std.specs.Prelude.{◌≡◌, ℕ, Bool, List, Option};
ghost use Rattle.glob_lists.specs.declared.rules.Rules.{Rules};
ghost use Rattle.gix_glob.specs.declared.pattern.Mode as pattern;
ghost use Rattle.gix_glob.specs.Entries.{Entry};
ghost use Rattle.gix_glob.specs.EntryLists.{EntryList};
ghost use Rattle.gix_glob.specs.Loading.{IsLoaded};
ghost use Rattle.gix_glob.specs.Stripping.{RestOf};
ghost use Rattle.glob_lists.specs.Deciding.{AnswersFor, Decides, HasFolder};
ghost use Rattle.glob_lists.specs.declared.asks.probe.Probe.{Probe};
ghost use Rattle.glob_lists.specs.declared.asks.row.Row.{Row};
ghost use Rattle.glob_lists.specs.Private.Asks.Rows.{Asks};
ghost use Rattle.glob_lists.specs.Private.Asks.Showing.{Passes, Shows};

use gix_glob::laws::{
    bases_end_in_a_slash, matched_values_end_as_the_text, matched_values_have_the_literal_bytes,
    matched_values_have_the_literal_pairs,
};
use gix_glob::search;

/// At most one pattern of a stack of lists decides about a path: what decides is one pair of places, or none.
pub fn decides_one_pair<T: search::Pattern>()
    ensures { (lists : List (EntryList T.Seen)) (path : List ℕ) (is_dir : Bool) (rules : Rules) (pair other : Option (ℕ × ℕ)) →
        Decides lists path is_dir rules pair → Decides lists path is_dir rules other → pair ≡ other }
{}

/// The base of a list that was loaded is that of a folder: so lists that were loaded meet
/// [`bases_are_folders`](crate::bases_are_folders).
pub fn loaded_lists_have_folders<T: search::Pattern>()
    ensures { (meaning : List ℕ → List ℕ → List (Entry T.Seen)) (bytes source : List ℕ) (root : Option (List ℕ)) (list : EntryList T.Seen) →
        IsLoaded meaning bytes source root list → HasFolder list }
{
    bases_end_in_a_slash();
}

/// A pattern that answers for what a base leaves of a path asks for nothing that the path doesn't show.
pub(crate) fn answering_patterns_pass()
    ensures { (text : List ℕ) (mode : pattern.Mode) (base : Option (List ℕ)) (path rest : List ℕ) (is_dir : Bool) (rules : Rules)
        (row : Row) (probe : Probe) → Shows path probe → Asks text mode row → RestOf rules.case base path rest
        → AnswersFor text mode rest is_dir rules → Passes row probe }
{
    matched_values_end_as_the_text();
    matched_values_have_the_literal_bytes();
    matched_values_have_the_literal_pairs();
}
