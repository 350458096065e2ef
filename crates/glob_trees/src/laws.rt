//! Laws of decisions in work trees: each is a call that does nothing, which a caller makes to know what it ensures.
ghost use Rattle.std.specs.Prelude.{◌≡◌, ◌++◌, ◌∷◌, ℕ, Bool, true, false, List, Option, None, Some, take};
ghost use Rattle.gix_glob.specs.Bytes.{slash};
ghost use Rattle.glob_lists.specs.declared.rules.Rules.{Rules};
ghost use Rattle.gix_glob.specs.Entries.{Entry};
ghost use Rattle.gix_glob.specs.EntryLists.{EntryList};
ghost use Rattle.gix_glob.specs.Patterns.{is_for_directories};
ghost use Rattle.gix_glob.specs.Stripping.{NothingLeft};
ghost use Rattle.glob_lists.specs.Deciding.{IsEntryAt};
ghost use Rattle.glob_trees.specs.Laws.Emptying.{EmptiesList};
ghost use Rattle.glob_trees.specs.Laws.Kept.{ShowsOne};
ghost use Rattle.glob_trees.specs.Trees.{DecidesInTree, Ignores, IsAbove, HasNoneIgnored};
ghost use Rattle.glob_trees.specs.Ways.{AreOnTheWay};

use crate::folders::FolderLists;
use gix_glob::search;
use glob_lists::laws::decides_one_pair;

/// Each path has at most one answer in a work tree. [`decide_in_tree`](crate::decide_in_tree) gives it.
pub fn decides_one_pair_in_tree<T: search::Pattern>()
    ensures { (lists : List (EntryList T.Seen)) (path : List ℕ) (is_dir : Bool) (rules : Rules) (pair other : Option (ℕ × ℕ)) →
        DecidesInTree lists path is_dir rules pair → DecidesInTree lists path is_dir rules other → pair ≡ other }
{
    decides_one_pair::<T>();
}

/// What lies below an ignored folder is decided about by the pattern that decides about the folder.
pub fn ignored_folders_decide_below<T: search::Pattern>()
    ensures { (lists : List (EntryList T.Seen)) (folder path : List ℕ) (is_dir : Bool) (rules : Rules) (pair : ℕ × ℕ) →
        IsAbove folder path → HasNoneIgnored lists rules folder → Ignores lists rules folder pair
        → DecidesInTree lists path is_dir rules (Some pair) }
{}

/// A list whose base lies below an ignored folder changes no answer: so files there needn't be read.
pub fn lists_below_ignored_folders_say_nothing<T: search::Pattern>()
    ensures { (lists emptied : List (EntryList T.Seen)) (folder below path : List ℕ) (is_dir : Bool) (rules : Rules) (by : ℕ × ℕ)
        (pair : Option (ℕ × ℕ)) → EmptiesList lists (folder ++ slash ∷ below) emptied → Ignores emptied rules folder by
        → DecidesInTree emptied path is_dir rules pair → DecidesInTree lists path is_dir rules pair }
{}

/// A list whose base isn't above the path changes no answer about it: so only the lists on the way count.
pub fn lists_off_the_way_say_nothing<T: search::Pattern>()
    ensures { (lists emptied : List (EntryList T.Seen)) (base path : List ℕ) (is_dir : Bool) (rules : Rules)
        (pair : Option (ℕ × ℕ)) → EmptiesList lists base emptied → NothingLeft rules.case (Some base) path
        → DecidesInTree emptied path is_dir rules pair → DecidesInTree lists path is_dir rules pair }
{}

/// What decides about a path as a folder's decides about it as a file's too, unless its pattern is for directories only; and where nothing
/// does, nothing decides about the file. So a caller who asked as of a folder mostly needn't know what stands there.
pub fn folders_decide_as_files<T: search::Pattern>()
    ensures some { (lists : List (EntryList T.Seen)) (path : List ℕ) (rules : Rules) (pair : ℕ × ℕ) (entry : Entry T.Seen) → IsEntryAt lists pair entry
        → is_for_directories entry.mode ≡ false → DecidesInTree lists path true rules (Some pair) → DecidesInTree lists path false rules (Some pair) }
    ensures none { (lists : List (EntryList T.Seen)) (path : List ℕ) (rules : Rules) → DecidesInTree lists path true rules None
        → DecidesInTree lists path false rules None }
{}

/// No answer depends on what is kept, or was forgotten: where a source shows at most one list of each folder, the lists on the way to a
/// path are the same in each tree of it that has the same lists before those of all folders. [`Tree::find`](crate::Tree::find)
/// ensures that its lists are such ones, and each path has one answer over them.
pub fn no_answer_depends_on_what_is_kept<T: search::Pattern, S: FolderLists<T>>()
    ensures { (source : S) (front_count : ℕ) (lists other : List (EntryList T.Seen)) (rules : Rules) (path : List ℕ) →
        ShowsOne (S.shows T.Seen source) → take front_count lists ≡ take front_count other → AreOnTheWay (S.shows T.Seen source) front_count lists rules path
        → AreOnTheWay (S.shows T.Seen source) front_count other rules path → lists ≡ other }
{}
