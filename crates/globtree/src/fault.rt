//! Why a command gets no further, told whole.

use git_repository::{OpenFault, VariableFault};
use std::alloc::AllocError;
use std::io;
use system_files::ConfigFileFault;
use thiserror::Error;
use tree_files::CheckFault;

/// What ends well, or with a fault of the command.
pub(crate) type Result<T, E = Fault> = std::result::Result<T, E>;

/// Why a command gets no further.
#[derive(Debug, Drop, Error)]
pub(crate) enum Fault {
    /// Memory was refused.
    #[error("no memory")]
    Memory(#[from(alloc)] AllocError),
    /// A path was asked about that needs a work tree.
    #[error("there is no work tree")]
    NoWorkTree,
    /// The configuration was asked about of a top that has none.
    #[error("with --top no configuration is read")]
    NoConfiguration,
    /// The configuration was asked about, and no key was told.
    #[error("one key is asked for")]
    NoKey,
    /// A git folder is told without a work tree, and GIT_IMPLICIT_WORK_TREE isn't true.
    #[error("the variable GIT_IMPLICIT_WORK_TREE isn't read")]
    ImplicitWorkTree,
    /// GIT_CONFIG is set, which names the one file that counts for Git then.
    #[error("the variable GIT_CONFIG isn't read")]
    ConfigFile,
    /// A tree has more folders than a listing can count.
    #[error("a tree without an end")]
    EndlessTree,
    /// The input has more records than can be counted.
    #[error("records without an end")]
    EndlessRecords,
    /// An earlier write failed.
    #[error("writing")]
    Unwritten,
    /// What is told in words of its own.
    #[error("{0}")]
    Text(String),
    /// A read of the input failed.
    #[error("reading records: {0}")]
    Read(io::Error),
    /// A write of the answers, or a flush, failed.
    #[error("writing answers: {0}")]
    Write(io::Error),
    /// A path got no answer.
    #[error("{0}")]
    Check(#[from] CheckFault),
    /// A variable of the environment is wrong.
    #[error("{0}")]
    Variable(#[from] VariableFault),
    /// The repository can't be opened.
    #[error("{0}")]
    Open(#[from] OpenFault<ConfigFileFault>),
}

impl Fault {
    /// A fault that is told by this text, or that there was no memory for it.
    pub(crate) fn told(text: Result<String, AllocError>) -> Fault {
        match text {
            Ok(text) => Fault::Text(text),
            Err(refused) => Fault::Memory(refused),
        }
    }
}
