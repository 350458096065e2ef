//! Matching of bytes against a glob pattern, and the laws of its tokens.
#![tactic(auto)]

pub mod laws;
pub mod wildmatch;
