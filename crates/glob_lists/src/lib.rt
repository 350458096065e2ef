//! What lists of patterns say of a path: the path, which pattern decides about it, and lists that are prepared, so that a path
//! tests few of their patterns.
#![tactic(auto)]

mod asks;
mod deciding;
pub mod laws;
mod link;
mod list;
mod path;
pub mod prepared;
mod rules;
mod stack;

pub use asks::row::Row;
pub use deciding::list_stack::ListStack;
pub use deciding::matching::matches_into;
pub use deciding::{bases_are_folders, decide, decide_by, decide_with_counts};
pub use list::prepared_list::PreparedList;
pub use path::{RepositoryPath, plain_path};
pub use rules::{Reading, Rules};
pub use stack::changing::decide_prepared;
pub use stack::prepared_stack::{CountedDecision, PreparedStack};
