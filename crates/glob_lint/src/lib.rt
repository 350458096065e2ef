//! Which lines of ignore files do nothing, and why; and for the others a path about which they change what Git says.
#![tactic(auto)]

mod apart;
mod asked;
mod asked_line;
mod beginnings;
mod below;
mod covering;
mod effects;
mod file_lines;
mod guesses;
mod line;
mod lints;
mod means;
mod messages;
mod nothing;
mod outside;
mod pairs;
mod reading;
mod real;
mod removable;
mod report;
mod running;
mod samples;
mod shared;
#[cfg(test)]
mod tests;
mod tokens;
mod trying;
mod verdicts;
mod why;

pub use apart::are_apart;
pub use covering::covers;
pub use effects::Effect;
pub use file_lines::shown_line;
pub use guesses::{Guess, guesses_at};
pub use line::Line;
pub use lints::{Level, Lint};
pub use means::MOST_MATCHES;
pub use messages::{IgnoreFile, Looked, Message, TrackedFiles, messages_of, without_idle_lines};
pub use nothing::matches_nothing;
pub use real::is_real;
pub use report::{Finding, Report, report_on};
pub use samples::{Sample, samples_of};
pub use why::Why;
