//! Paths as they are told and shown: where a told path leads, what leads to a path from a folder, and names in quotes.
#![tactic(auto)]

mod fronts;
mod paths;
mod quoting;
mod standpoint;
mod unusual;
mod usual;

pub use fronts::folder_of;
pub use paths::{append_seen, below_folder, enter, joined, last_name, leave, walk};
pub use quoting::{Quoting, append_quoted};
pub use standpoint::{LeadFault, Standpoint};
pub use unusual::has_unusual;
pub use usual::are_usual_names;
