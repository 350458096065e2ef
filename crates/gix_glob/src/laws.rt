//! Laws over the definitions: each is a call that does nothing, or that only reads its pattern, which a caller makes to know
//! what it ensures.
ghost use Rattle.std.specs.Prelude.{◌≡◌, ◌≤◌, ℕ, List, length, Option, Some};
ghost use Rattle.std.specs.List.{join_with_byte};
ghost use Rattle.glob_matcher.specs.Bytes.{EndsInSlash, slash};
ghost use Rattle.glob_patterns.specs.declared.pattern.case.Case.{Case};
ghost use Rattle.gix_glob.specs.Paths.{pieces, Base, IsFolder};
ghost use Rattle.glob_patterns.specs.RepositoryPaths.{IsAfterLastSlash, IsBasenameStart};
ghost use Rattle.gix_glob.specs.Stripping.{Rest, stripped_place};

mod lists;

pub use glob_matcher::laws::{
    a_crossing_run_splits_from_before, a_double_star_splits_from_before,
    a_local_run_splits_from_before, a_pattern_has_one_reading, a_rest_is_a_pattern_of_its_own,
    each_pattern_has_a_reading, modes_never_fold_exactly,
    no_slash_is_special_in_ways_that_fold_alike, no_slash_is_special_where_the_value_has_none,
    one_more_star_changes_nothing_in_plain_mode, star_tokens_are_as_many_in_each_mode,
};
pub use glob_patterns::laws::{
    a_front_without_stars_behind_it_changes_nothing, both_answers_for_a_path_agree,
    both_readings_of_a_line_agree, case_counts_by_default,
    exact_folding_changes_nothing_in_ordinary_texts, flags_do_not_count, git_line_is_shown,
    git_readings_are_these, line_has_one_reading, literal_text_splits_itself,
    matched_values_end_as_the_text, matched_values_have_the_literal_bytes,
    matched_values_have_the_literal_pairs, order_agrees_with_equality, readings_are_these,
    sensitive_comes_before_fold, shown_line_is_read_back, two_answers_agree,
    utf8_is_displayed_as_it_is,
};
pub use lists::{list_order_agrees_with_equality, mapping_order_agrees_with_equality};

// ---- path texts and bases

/// The pieces of a path text, joined by slashes, are the text.
pub fn pieces_join_to_the_text()
    ensures { (text : List ℕ) → join_with_byte slash (pieces text) ≡ text }
{}

/// Each base ends in a slash.
pub fn bases_end_in_a_slash()
    ensures { (source : List ℕ) (root : Option (List ℕ)) (base : List ℕ) → Base source root (Some base) → EndsInSlash base }
{}

/// A stripped basename start is the rest's own: where it is the place after the path's last slash, what stripping answers is the
/// place after the rest's last slash, and no place where the rest has no slash.
pub fn stripped_basename_starts_are_the_rests_own()
    ensures { (case : Case) (base path rest : List ℕ) (basename_start : Option ℕ) →
        Rest case base path rest → IsBasenameStart path basename_start → IsBasenameStart rest (stripped_place (length base) basename_start) }
{}

/// The place after a path's last slash does not lie before the end of a base that is empty or ends in a slash.
pub fn basename_starts_lie_past_the_base()
    ensures { (case : Case) (base path rest : List ℕ) (at : ℕ) →
        IsFolder base → Rest case base path rest → IsAfterLastSlash path at → length base ≤ at }
{}
