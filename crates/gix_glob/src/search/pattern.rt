//! Lists of patterns with a base, and paths as such a list sees them.
mod list;
mod loading;
mod mapping;
mod stripping;

pub use list::List;
pub use mapping::Mapping;
pub use stripping::{strip_base_handle_recompute_basename_pos, strip_base_with_counts};
