//! Line parsers and line engines over Git's glob patterns: from bytes to bytes.
#![tactic(auto)]

mod calls;
mod decisions;
mod entries;
mod fault;
mod git_line;
mod ignore;
mod ignore_line;
mod label;
pub mod laws;
mod lines;
mod list;
mod numbers;
mod path_lines;
mod plain;
mod transfer;
mod wild;

pub use calls::{decide, decide_with_counts};
pub use decisions::run_ignore;
pub use fault::EngineFault;
pub use git_line::next_git_line;
pub use glob_lists::{bases_are_folders, plain_path};
pub use ignore::{GitIgnoreLines, IgnoreLines};
pub use ignore_line::{IgnoreLine, next_ended_line, next_ignore_line, without_byte_order_mark};
pub use label::LabelLines;
pub use list::run_list;
pub use plain::PlainLines;
pub use wild::run_wild;
