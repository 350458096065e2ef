//! Git's pathspecs: what words spell, where that leads, and which paths a list of them is about.
#![tactic(auto)]

mod asked;
mod elements;
mod faults;
mod heads;
mod leading;
mod lists;
mod magic;
mod manner;
mod reading;
mod settings;
mod spelling;
mod texts;

pub use elements::Element;
pub use faults::{ReadFault, WordFault};
pub use lists::{PathspecList, no_path_is_lost};
pub use magic::Magic;
pub use manner::Manner;
pub use settings::Settings;
pub use spelling::{Pathspec, is_path};
