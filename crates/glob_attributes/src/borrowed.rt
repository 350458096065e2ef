//! Attribute files in memory of a caller: what a line gives, and the state of an attribute, without an allocation.

mod head;
mod last_word;
mod line;
mod memory;
mod telling;
mod view;

pub use line::{LineParts, line_parts};
pub use telling::{Text, TextMacro, tell_state};
