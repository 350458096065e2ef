//! What is written about the paths of a work tree: the texts of `check-ignore` and of `check-attr`, and records that name paths.
#![tactic(auto)]

mod attributes;
mod form;
pub mod laws;
mod lines;
mod records;

pub use attributes::{append_answer, append_label, path_text};
pub use form::Form;
pub use lines::{DecidingLine, append_line};
pub use records::{NameFault, ToldPath};
