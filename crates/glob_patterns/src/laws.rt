//! Laws of patterns.

mod patterns;

pub use patterns::{
    a_front_without_stars_behind_it_changes_nothing, both_answers_for_a_path_agree,
    both_readings_of_a_line_agree, case_counts_by_default,
    exact_folding_changes_nothing_in_ordinary_texts, flags_do_not_count, git_line_is_shown,
    git_readings_are_these, line_has_one_reading, literal_text_splits_itself,
    matched_values_end_as_the_text, matched_values_have_the_literal_bytes,
    matched_values_have_the_literal_pairs, order_agrees_with_equality, readings_are_these,
    sensitive_comes_before_fold, shown_line_is_read_back, two_answers_agree,
    utf8_is_displayed_as_it_is,
};
