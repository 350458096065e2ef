//! Laws of modes, of readings, of rests and of star tokens.

mod modes;
mod readings;
mod rests;
mod stars;

pub use modes::{
    modes_never_fold_exactly, no_slash_is_special_in_ways_that_fold_alike,
    no_slash_is_special_where_the_value_has_none,
};
pub use readings::{
    a_pattern_has_one_reading, each_pattern_has_a_reading, star_tokens_are_as_many_in_each_mode,
};
pub use rests::a_rest_is_a_pattern_of_its_own;
pub use stars::{
    a_crossing_run_splits_from_before, a_double_star_splits_from_before,
    a_local_run_splits_from_before, one_more_star_changes_nothing_in_plain_mode,
};
