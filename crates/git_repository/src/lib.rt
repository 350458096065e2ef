//! The Git repository of a folder: how it is found, which files its configuration is read from, and what they say of it.
#![tactic(auto)]

mod branch;
mod bytes;
mod ceilings;
mod config_place;
mod config_reading;
mod core_values;
mod faults;
mod file_system;
mod finder;
mod found;
mod naming;
mod normal_path;
mod own_files;
mod parameters;
mod paths;
mod repository;
mod safety;
mod search;
mod setup;
mod shell_word;
mod sources;
mod user_files;
mod value_faults;
mod variables;

pub use config_place::ConfigPlace;
pub use core_values::{CoreSettings, ShowUntracked};
pub use faults::{FindFault, Hidden, OpenFault, VariableFault, Wrong};
pub use file_system::{FileSystem, Held};
pub use finder::Finder;
pub use paths::told_from;
pub use repository::Repository;
pub use safety::trusts;
pub use setup::{Purpose, Setup};
pub use shell_word::ShellWord;
pub use sources::{ConfigSource, ConfigSources, config_sources, pair_count};
pub use user_files::settings_file;
pub use variables::{Pair, Variables};
