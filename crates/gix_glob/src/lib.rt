//! Git's glob patterns: matching bytes, reading pattern lines, and lists of patterns with a base.
#![tactic(auto)]

pub mod laws;
pub mod search;

pub use glob_matcher::wildmatch;
pub use glob_patterns::pattern::{Pattern, basename_start};
pub use glob_patterns::{parse, pattern};
