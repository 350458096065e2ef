//! Git's configuration files: from their bytes to what they say.
#![tactic(auto)]

mod alone;
mod answer;
mod booleans;
mod bytes;
mod conditions;
mod config;
mod entry;
mod entry_place;
mod fault;
mod file;
mod files;
mod head;
mod includes;
mod item;
mod keys;
pub mod laws;
mod no_key;
mod number;
mod origin;
mod path;
mod quoting;
mod scope;
mod section;
mod setting;
mod shown;
mod sources;
mod surroundings;
#[cfg(test)]
mod tests;
mod text;
mod value;
mod words;

pub use answer::{Answer, Question, has_answer};
pub use booleans::boolean;
pub use bytes::is_blank;
pub use config::Config;
pub use fault::{ConfigFault, Wrong};
pub use files::{ConfigFiles, FoundFile};
pub use includes::ReadFault;
pub use item::{Entry, Item};
pub use no_key::{KeyFault, key_fault};
pub use number::integer;
pub use origin::Manner;
pub use path::{ConfigPath, config_path};
pub use quoting::quoted;
pub use setting::{ReadSetting, Setting, SettingFault, WrongSetting};
pub use sources::Source;
pub use surroundings::{Surroundings, UserFolder, expanded, folder_of};
pub use words::{canonical_key, split_word};
