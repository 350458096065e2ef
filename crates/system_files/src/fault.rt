//! Why a file of a configuration isn't read.

use bstr::BStr;
use std::alloc::AllocError;
use thiserror::Error;

/// Why the file at a path isn't read, in Git's words, where it has any: of a folder it warns by these.
#[derive(Debug, PartialEq, Eq, Drop, Error)]
pub enum WrongFile {
    /// A folder stands there.
    #[error("Is a directory")]
    Folder,
    /// A pipe, a socket or a device stands there, which isn't read.
    #[error("it is no regular file")]
    NoFile,
    /// Another file took its place while it was opened.
    #[error("another file took its place")]
    Replaced,
    /// With it the files of the configuration have more than 16 MiB.
    #[error("with it the configuration has more than 16 MiB")]
    TooLarge,
    /// The system's words, as `Permission denied`.
    #[error("{0}")]
    Refused(String),
    /// The path is no UTF-8, so that the kit can't open it.
    #[error("its name is no UTF-8")]
    Unnamed,
}

/// Why a file of a configuration isn't read.
#[derive(Debug, PartialEq, Eq, Drop, Error)]
pub enum ConfigFileFault {
    /// Memory was refused.
    #[error("no memory")]
    Memory,
    /// More than 10,000 files were asked for.
    #[error("more than 10000 files of configuration")]
    TooMany,
    /// Something is wrong with the file at this path.
    #[error("unable to access '{path}': {0}", path = BStr::new(.1))]
    At(WrongFile, Vec<u8>),
}

impl From<AllocError> for ConfigFileFault {
    fn from(_refused: AllocError) -> ConfigFileFault {
        ConfigFileFault::Memory
    }
}
