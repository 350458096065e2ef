//! Patterns: their lines, and what they match.
#![tactic(auto)]

mod byte_tests;
pub mod laws;
mod mode;
pub mod parse;
pub mod pattern;
