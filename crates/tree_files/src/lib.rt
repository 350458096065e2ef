//! The files of the operating system, as the commands over a work tree ask for them. What can't be read is told on the standard
//! error, and how far a long listing is.
#![tactic(auto)]

mod attribute_files;
mod closed_folders;
mod fault;
mod file_kinds;
mod files;
mod folder_names;
mod indexed_files;
mod narrowed;
mod nested;
mod progress;
mod seen_files;
mod sources;
mod standing;
mod telling;
mod tracked_folders;

pub use attribute_files::AttributeFiles;
pub use fault::CheckFault;
pub use file_kinds::FileKinds;
pub use files::TreeFiles;
pub use indexed_files::IndexedFiles;
pub use narrowed::{AskedPaths, Narrowed, folder_path};
pub use nested::NestedRepositories;
pub use seen_files::{file_list, named_list};
pub use sources::FolderFiles;
pub use standing::path_text;
pub use telling::{append_shown, tell_line};
pub use tracked_folders::TrackedFolders;
