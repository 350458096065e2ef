//! The files and the environment of the operating system, as `git_repository` and `git_config` ask for them.
#![tactic(auto)]

mod config_files;
mod disk_files;
mod fault;
mod parts;
mod reading;
mod real_path;
mod sight;
mod user;
mod users;
mod variables;

pub use disk_files::DiskFiles;
pub use fault::{ConfigFileFault, WrongFile};
pub use reading::{OpenedFile, Unread, open_seen};
pub use sight::Sight;
pub use user::User;
pub use users::surroundings;
pub use variables::{is_true, read_variables, variable};
