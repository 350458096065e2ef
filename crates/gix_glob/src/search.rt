//! Lists of patterns: where they come from, and what is left of a path under their base.
mod base;
mod fault;
mod files;
mod parser;
mod parts;
pub mod pattern;
mod reading;

pub use base::has_file_part;
pub use byte_streams::Watched;
pub use fault::LoadFault;
pub use files::add_patterns_file;
pub use parser::Pattern;
