//! What Git's attribute files say: the lines of a file, what each gives, and which state an attribute has for a path.
#![tactic(auto)]

mod assignment;
pub mod borrowed;
mod filling;
mod first_places;
mod head;
pub mod laws;
mod line;
mod macro_table;
mod macros;
mod marking;
mod name;
mod names;
mod narrowing;
mod parser;
mod pattern;
mod places;
mod silences;
mod states;
mod words;

pub use assignment::{Assignment, State, read_assignment, state_text};
pub use head::read_quoted;
pub use line::{LineReading, Silence, read_line};
pub use macro_table::MacroTable;
pub use macros::{Macro, macros_of};
pub use name::is_name;
pub use names::AttributeNames;
pub use narrowing::keep_named;
pub use parser::{AttributeLines, FILE_LIMIT};
pub use silences::{SilentLine, silent_lines};
pub use states::PathAttributes;
