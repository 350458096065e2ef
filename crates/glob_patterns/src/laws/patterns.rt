//! Laws of pattern lines and patterns.
ghost use Rattle.std.specs.Prelude.{◌≡◌, ◌≢◌, ◌↔◌, ◌+◌, ◌||◌, ◌++◌, ℕ, Bool, true, false, IsTrue, List, Option, Some, None, codes, nat_eq};
ghost use Rattle.std.specs.List.{list_any, starts_with};
ghost use Rattle.std.specs.Str.{IsUtf8};
ghost use Rattle.std.specs.declared.cmp.Ordering.TheVariants.{Equal, Less};
ghost use Rattle.glob_matcher.specs.declared.wildmatch.mode.Mode as wildmatch;
ghost use Rattle.glob_matcher.specs.declared.wildmatch.way.Folding.TheVariants.{Both, Exact};
ghost use Rattle.glob_matcher.specs.declared.wildmatch.way.Way.{Way};
ghost use Rattle.glob_patterns.specs.declared.mode.Mode as pattern;
ghost use Rattle.glob_patterns.specs.declared.pattern.Pattern.{Pattern};
ghost use Rattle.glob_patterns.specs.declared.pattern.case.Case.{Case};
ghost use Rattle.glob_patterns.specs.Laws.LiteralBytes.{AreAlike, EndsAlike, HasAlike, HasAlikePair, IsUnescapedUpTo, is_joining};
ghost use Rattle.glob_matcher.specs.Bytes.{HasByte, is_special, way_with};
ghost use Rattle.glob_matcher.specs.Matching.{Splits, SplitsBy};
ghost use Rattle.glob_patterns.specs.PatternParts.{text_of, SamePattern, pattern_cmp};
ghost use Rattle.glob_patterns.specs.Equations.GitLines.{git_reading_of};
ghost use Rattle.glob_patterns.specs.Equations.Readings.{reading_of};
ghost use Rattle.glob_patterns.specs.GitLines.{GitReads, begins_with_escaped_sign};
ghost use Rattle.glob_patterns.specs.GitPaths.{AnswersAsGit, FrontAndRest};
ghost use Rattle.glob_patterns.specs.Laws.Foldings.{FoldsAlike};
ghost use Rattle.glob_patterns.specs.Laws.Fronts.{StarsAreApart};
ghost use Rattle.glob_patterns.specs.RepositoryPaths.{Answers};
ghost use Rattle.glob_patterns.specs.Patterns.{HasReading, Reads, display_of, is_absolute, is_negative, shown_line};

use crate::pattern::{Case, Pattern};
use std::hash::Hash;

/// A text without `*`, `?`, `[` and `\` matches exactly the values that are equal to it, up to case where the mode folds.
pub fn literal_text_splits_itself()
    ensures { (text value : List ℕ) (way : Way) → list_any is_special text ≡ false
        → SplitsBy value text way ↔ AreAlike way value text }
{}

/// A value that is matched, whole or by front and rest, ends as the text does, up to case where the mode folds: as far back as the text
/// has none of `*`, `?`, `[`, `]`, `\` and `/`.
pub fn matched_values_end_as_the_text()
    ensures whole { (front end value : List ℕ) (way : Way) → list_any is_joining end ≡ false
        → SplitsBy value (front ++ end) way → EndsAlike way value end }
    ensures parted { (front end value : List ℕ) (way : Way) → list_any is_joining end ≡ false
        → FrontAndRest value (front ++ end) way → EndsAlike way value end }
{}

/// A value that is matched has each byte of the text that is none of `*`, `?`, `[`, `]`, `\` and `/`, and that stands
/// before the first `[` and the first `\`, up to case where the mode folds.
pub fn matched_values_have_the_literal_bytes()
    ensures whole { (text value : List ℕ) (way : Way) (i b : ℕ) → IsUnescapedUpTo text i → HasByte text i b → is_joining b ≡ false
        → SplitsBy value text way → HasAlike way value b }
    ensures parted { (text value : List ℕ) (way : Way) (i b : ℕ) → IsUnescapedUpTo text i → HasByte text i b → is_joining b ≡ false
        → FrontAndRest value text way → HasAlike way value b }
{}

/// A value that is matched has any two such bytes that stand side by side in the text side by side, too.
pub fn matched_values_have_the_literal_pairs()
    ensures whole { (text value : List ℕ) (way : Way) (i a b : ℕ) → IsUnescapedUpTo text (i + 1) → HasByte text i a → HasByte text (i + 1) b
        → is_joining a ≡ false → is_joining b ≡ false → SplitsBy value text way → HasAlikePair way value a b }
    ensures parted { (text value : List ℕ) (way : Way) (i a b : ℕ) → IsUnescapedUpTo text (i + 1) → HasByte text i a → HasByte text (i + 1) b
        → is_joining a ≡ false → is_joining b ≡ false → FrontAndRest value text way → HasAlikePair way value a b }
{}

/// Two answers that are each yes exactly if the text matches the value are the same. So [`Pattern::matches`] and
/// [`glob_matcher::wildmatch::wildmatch`] agree.
pub fn two_answers_agree()
    ensures { (text value : List ℕ) (way : Way) (first second : Bool)
        → IsTrue first ↔ SplitsBy value text way → IsTrue second ↔ SplitsBy value text way → first ≡ second }
{}

/// A line has at most one reading.
pub fn line_has_one_reading()
    ensures { (line : List ℕ) (may_alter : Bool) (text text' : List ℕ) (mode mode' : pattern.Mode) (place place' : Option ℕ)
        → Reads line may_alter text mode place → Reads line may_alter text' mode' place'
        → (text ≡ text') × (mode ≡ mode') × (place ≡ place') }
{}

/// A line has the reading that the equations of `reading_of` give, and no other.
pub fn readings_are_these()
    ensures some { (line : List ℕ) (may_alter : Bool) (text : List ℕ) (mode : pattern.Mode) (place : Option ℕ)
        → Reads line may_alter text mode place
        ↔ (reading_of may_alter line ≡ Some (record { text = text; mode = mode; place = place })) }
    ensures none { (line : List ℕ) (may_alter : Bool) → ¬ HasReading line may_alter ↔ (reading_of may_alter line ≡ None) }
{}

/// What is shown of a reading is read back, unless the text begins with `!` and no sign and no slash stands before it.
pub fn shown_line_is_read_back()
    ensures { (line text : List ℕ) (mode : pattern.Mode) (place : Option ℕ) → Reads line true text mode place
        → (IsTrue (starts_with nat_eq text (codes "!")) → IsTrue (is_negative mode || is_absolute mode))
        → Reads (shown_line mode text) true text mode place }
{}

/// As Git reads it, a line has the reading that the equations of `git_reading_of` give, and no other: each line has one.
pub fn git_readings_are_these()
    ensures { (line text : List ℕ) (mode : pattern.Mode) (place : Option ℕ)
        → GitReads line text mode place ↔ (git_reading_of line ≡ record { text = text; mode = mode; place = place }) }
{}

/// What is shown of a reading as Git's is the line, byte for byte.
pub fn git_line_is_shown()
    ensures { (line text : List ℕ) (mode : pattern.Mode) (place : Option ℕ) → GitReads line text mode place → shown_line mode text ≡ line }
{}

/// A line that has a reading, doesn't begin with `\!` or `\#`, and isn't a slash alone, with a sign or without, has the same reading
/// as Git reads it.
pub fn both_readings_of_a_line_agree()
    ensures { (line text : List ℕ) (mode : pattern.Mode) (place : Option ℕ) → begins_with_escaped_sign line ≡ false
        → line ≢ codes "/" → line ≢ codes "!/" → Reads line true text mode place → GitReads line text mode place }
{}

/// Where no two stars stand directly behind a text's front, or a slash or nothing stands before them, front and rest match what the whole
/// text matches.
pub fn a_front_without_stars_behind_it_changes_nothing()
    ensures { (text value : List ℕ) (way : Way) → StarsAreApart text → FrontAndRest value text way ↔ SplitsBy value text way }
{}

/// Where no capital stands behind a backslash, sets have none without its small letter, and ranges are ordinary (`AreOrdinaryEnds`), exact
/// folding matches what the usual one does.
pub fn exact_folding_changes_nothing_in_ordinary_texts()
    ensures { (path : Bool) (text value : List ℕ) → FoldsAlike text
        → SplitsBy value text (way_with path Both) ↔ SplitsBy value text (way_with path Exact) }
{}

/// So a text whose front has no such stars behind it answers for a path as Git reads it exactly where it does in path mode: where case
/// counts, and where it doesn't, if both foldings read the text alike.
pub fn both_answers_for_a_path_agree()
    ensures kept { (text : List ℕ) (mode : pattern.Mode) (path : List ℕ) (basename_start : Option ℕ) (is_dir : Option Bool)
        → StarsAreApart text
        → AnswersAsGit text mode path basename_start is_dir Case.Sensitive ↔ Answers text mode path basename_start is_dir Case.Sensitive (record { 0 = 1 }) }
    ensures folded { (text : List ℕ) (mode : pattern.Mode) (path : List ℕ) (basename_start : Option ℕ) (is_dir : Option Bool)
        → StarsAreApart text → FoldsAlike text
        → AnswersAsGit text mode path basename_start is_dir Case.Fold ↔ Answers text mode path basename_start is_dir Case.Fold (record { 0 = 1 }) }
{}

/// A text that is UTF-8 is displayed byte for byte.
pub fn utf8_is_displayed_as_it_is()
    ensures { (text : List ℕ) → IsUtf8 text → display_of text ≡ text }
{}

/// Patterns of equal text match the same values: what the line said of negation, of directories and of a leading slash
/// doesn't count in [`Pattern::matches`].
pub fn flags_do_not_count()
    ensures { (p q : Pattern) (value : List ℕ) (mode : wildmatch.Mode) → text_of p ≡ text_of q
        → Splits value (text_of p) mode ↔ Splits value (text_of q) mode }
{}

/// Patterns are ordered by the bytes of their texts, then by the bits of their modes, then by their places, `None`
/// first. They are equal exactly where they agree in all three, tie exactly where they are equal, and then hash alike.
pub fn order_agrees_with_equality()
    ensures order { (p q : Pattern) → ⟦<Pattern as Ord>⟧.cmp p q ≡ pattern_cmp p q }
    ensures ties { (p q : Pattern) → (⟦<Pattern as Ord>⟧.cmp p q ≡ Equal) ↔ IsTrue (⟦<Pattern as PartialEq>⟧.eq p q) }
    ensures equality { (p q : Pattern) → IsTrue (⟦<Pattern as PartialEq>⟧.eq p q) ↔ SamePattern p q }
    ensures hash { (p q : Pattern) → IsTrue (⟦<Pattern as PartialEq>⟧.eq p q)
        → ⟦<Pattern as Hash>⟧.hash_input p ≡ ⟦<Pattern as Hash>⟧.hash_input q }
{}

/// The case of letters counts where nothing else is said.
pub fn case_counts_by_default()
    ensures { (case : Case) → ⟦<Case as Default>⟧.is_default case → case ≡ Case.Sensitive }
{}

/// [`Case::Sensitive`] comes before [`Case::Fold`].
pub fn sensitive_comes_before_fold()
    ensures { ⟦<Case as Ord>⟧.cmp Case.Sensitive Case.Fold ≡ Less }
{}
