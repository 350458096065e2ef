//! Commands over a work tree, from the bytes that are read to the bytes that are written. What the tree has comes from sources that the
//! caller gives, and contracts speak of what these show.
#![tactic(auto)]

pub mod check_attr;
pub mod check_ignore;
pub mod files;
pub mod tracked_files;
