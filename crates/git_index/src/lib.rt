//! Git's index file: which paths are tracked, from the bytes of the file, and which of them hold an asked path.
#![tactic(auto)]

mod asked_paths;
mod bitmaps;
mod entries;
mod entry;
mod entry_path;
mod extensions;
mod fault;
mod fields;
mod file;
mod folded_paths;
mod folding;
mod fronts;
mod header;
mod index;
mod kept;
mod link;
mod merge;
mod object_format;
mod order;
mod paths;
mod patterns;
mod place;
mod search;
mod sorted;
mod split;
mod tracked_paths;

pub use entry::{Entry, Kind};
pub use entry_path::EntryPath;
pub use fault::IndexFault;
pub use folded_paths::FoldedPaths;
pub use index::Index;
pub use object_format::ObjectFormat;
pub use tracked_paths::TrackedPaths;

#[cfg(test)]
mod tests;
