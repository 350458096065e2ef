//! Why a repository can't be found or opened, in Git's words.

use bstr::BStr;
use git_config::{ReadFault, SettingFault, WrongSetting};
use std::alloc::{AllocError, AllocFailed};
use std::fmt;
use std::fmt::Display;
use std::rc::Rc;
use thiserror::Error;

/// What is wrong with a path.
#[derive(Debug, Clone, Copy, PartialEq, Eq)]
pub enum Wrong {
    /// The file `.git` can't be read.
    Unreadable,
    /// The file `.git` has more than 1 MiB.
    TooLarge,
    /// The file `.git` doesn't begin with `gitdir: `.
    Format,
    /// Nothing stands behind `gitdir: `.
    NoPath,
    /// A file `.git` leads to this path, where no git folder is.
    NoGitFolder,
    /// `GIT_DIR` tells this path, where no git folder is.
    NotNamed,
    /// `GIT_DIR` tells this path, which leads nowhere.
    NamedNowhere,
    /// The file `commondir` can't be read, is empty or has more than 1 MiB.
    CommonFolder,
    /// The path leads nowhere.
    LeadsNowhere,
    /// `core.worktree` tells this path from the git folder, and no folder is there that can be entered.
    NotEntered,
    /// This folder above lies on another file system.
    Border,
    /// The folder belongs to another user, and isn't named as safe.
    Owner,
    /// It isn't known whether the folder belongs to the user, who isn't known, and it isn't named as safe.
    User,
    /// The bare repository was found by the search, and only one that is named may be taken.
    Bare,
}

/// A path of which can't be told what stands there, so that a repository may.
#[derive(Debug, Drop, Error)]
#[error("unable to access '{path}': {reason}", path = BStr::new(.path), reason = BStr::new(.reason))]
pub struct Hidden {
    /// `GIT_DIR`, where the repository is looked for there.
    pub named: Option<Vec<u8>>,
    /// The path.
    pub path: Vec<u8>,
    /// The system's words, as `Permission denied`.
    pub reason: Vec<u8>,
}

/// Why no repository was found.
#[derive(Debug, Drop, Error)]
pub enum FindFault {
    /// Memory was refused.
    #[error("no memory")]
    Memory,
    /// None is in the current folder or above it.
    #[error("not a git repository (or any of the parent directories): .git")]
    NotFound,
    /// The same, or none is where `GIT_DIR` tells one, but one may be.
    #[error("{}", At::of_hidden(.0))]
    Hidden(Hidden),
    /// Something is wrong with this path, and the search ended there.
    #[error("{}", At {words: words_of(*.0), path: .1})]
    At(Wrong, Vec<u8>),
}

/// What is wrong with the variables of the environment.
#[derive(Debug, Drop, Error)]
pub enum VariableFault {
    /// Memory was refused.
    #[error("no memory")]
    Memory,
    /// The variable of this name is set to this text, which is no boolean.
    #[error("bad boolean config value '{value}' for '{0}'", value = BStr::new(.1))]
    NoBoolean(&'static str, Vec<u8>),
    /// `GIT_CONFIG_SYSTEM` tells this path, over which Git writes while it reads it, so that it is read as another one.
    #[error("GIT_CONFIG_SYSTEM is '{path}', a path that leads above its front behind other folders: this isn't read", path = BStr::new(.0))]
    SystemPath(Vec<u8>),
    /// `GIT_CONFIG_COUNT` is no number.
    #[error("bogus count in GIT_CONFIG_COUNT")]
    Count,
    /// `GIT_CONFIG_COUNT` is larger than 2,147,483,647.
    #[error("too many entries in GIT_CONFIG_COUNT")]
    TooMany,
    /// The key of this number is missing.
    #[error("missing config key GIT_CONFIG_KEY_{0}")]
    NoKey(usize),
    /// The value of this number is missing.
    #[error("missing config value GIT_CONFIG_VALUE_{0}")]
    NoValue(usize),
    /// `GIT_CONFIG_PARAMETERS` spells no words.
    #[error("bogus format in GIT_CONFIG_PARAMETERS")]
    Parameters,
}

/// Why a repository can't be opened. `F` is the fault of the source of its files. A file is `None` where a word is told in place of a line; the
/// line is from 1, and a word's its place among the sources, from 1.
#[derive(Debug, Drop, Error)]
#[error_bound(F: Display)]
pub enum OpenFault<F> {
    /// Memory was refused.
    #[error("no memory")]
    Memory,
    /// A file of configuration can't be read.
    #[error("{0}")]
    File(F),
    /// A line or a word of the configuration is wrong.
    #[error("{}", SettingText(.0))]
    Setting(SettingFault<Rc<Vec<u8>>, Vec<u8>>),
    /// The variables are wrong that tell of configuration.
    #[error("{}", VariableText(.0))]
    Variable(VariableFault),
    /// There is none, or it may not be taken, or one of its paths is wrong.
    #[error("{0}")]
    Find(FindFault),
    /// The value of a key, which is in lower case, is no boolean.
    #[error("bad boolean config value '{value}' for '{key}'", value = BStr::new(.value), key = BStr::new(.key))]
    Boolean {
        key: Vec<u8>,
        value: Vec<u8>,
    },
    /// An entry of a key, which is in lower case, says what it can't: a path has no value, or a word is none of those that Git knows there.
    #[error("{}", EntryText {key: .key, file: .file, line: *.line})]
    Entry {
        key: Vec<u8>,
        file: Option<Vec<u8>>,
        line: usize,
    },
    /// This path begins with a folder that isn't known.
    #[error("failed to expand user dir in: '{value}'", value = BStr::new(.0))]
    NoFolder(Vec<u8>),
    /// This line of the repository's own file can't be read, or says what it can't: `core.worktree` without a value, or an unknown
    /// `extensions.objectFormat`.
    #[error("bad config line {line} in file {file}", file = BStr::new(bytes_of(.file)))]
    Line {
        file: Option<Vec<u8>>,
        line: usize,
    },
    /// The version of the repository's format is no number.
    #[error("bad numeric config value '{value}' for 'core.repositoryformatversion' in file {file}: invalid unit", value = BStr::new(.value), file = BStr::new(bytes_of(.file)))]
    Number {
        value: Vec<u8>,
        file: Option<Vec<u8>>,
    },
    /// The version of the repository's format is above 1.
    #[error("Expected git repo version <= 1, found {0}")]
    Version(u32),
    /// This extension isn't known, and with version 1 each has to be.
    #[error("unknown repository extension found: {name}", name = BStr::new(.0))]
    Unknown(Vec<u8>),
    /// This extension counts with version 1 alone, and the version is 0.
    #[error("repo version is 0, but v1-only extension found: {name}", name = BStr::new(.0))]
    OnlyVersion1(Vec<u8>),
    /// There is no work tree, and the command needs one.
    #[error("this operation must be run in a work tree")]
    NoWorkTree,
    /// The URL of a remote stands in a file that is included under a condition, while a condition asks for the URLs.
    #[error("remote URLs cannot be configured in file directly or indirectly included by includeIf.hasconfig:remote.*.url")]
    RemoteUrl,
    /// A condition asks for the branch, but Git may refuse this reference that `HEAD` names, or follow it to another: this isn't read.
    #[error("HEAD names '{reference}', which isn't followed: no condition 'onbranch' can be answered", reference = BStr::new(.0))]
    Branch(Vec<u8>),
    /// This file of configuration is told by a relative path, and Git works in another folder than the current one: this isn't read.
    #[error("'{path}' is a relative path of a file of configuration, which isn't followed to the top of the work tree", path = BStr::new(.0))]
    RelativeFile(Vec<u8>),
    /// `GIT_COMMON_DIR` is this relative path, and Git works in another folder than the current one: this isn't read.
    #[error("GIT_COMMON_DIR is a relative path, '{path}', which isn't followed to the top of the work tree", path = BStr::new(.0))]
    RelativeFolder(Vec<u8>),
}

impl From<AllocError> for FindFault {
    fn from(_refused: AllocError) -> FindFault {
        FindFault::Memory
    }
}

impl From<AllocError> for VariableFault {
    fn from(_refused: AllocError) -> VariableFault {
        VariableFault::Memory
    }
}

impl<F> From<AllocError> for OpenFault<F> {
    fn from(_refused: AllocError) -> OpenFault<F> {
        OpenFault::Memory
    }
}

impl<T: Drop, F> From<AllocFailed<T>> for OpenFault<F> {
    fn from(_refused: AllocFailed<T>) -> OpenFault<F> {
        OpenFault::Memory
    }
}

impl<F> From<FindFault> for OpenFault<F> {
    fn from(fault: FindFault) -> OpenFault<F> {
        match fault {
            FindFault::Memory => OpenFault::Memory,
            other => OpenFault::Find(other),
        }
    }
}

impl<F> From<ReadFault<F>> for OpenFault<F> {
    fn from(fault: ReadFault<F>) -> OpenFault<F> {
        match fault {
            ReadFault::Memory => OpenFault::Memory,
            ReadFault::File(fault) => OpenFault::File(fault),
            ReadFault::Setting(fault) => OpenFault::Setting(fault),
        }
    }
}

/// A path, with what is said before it and behind it.
#[derive(Clone, Copy)]
struct At<'a> {
    words: (&'static str, &'static str),
    path: &'a [u8],
}

impl<'a> At<'a> {
    /// What is told of a path that can't be looked at.
    fn of_hidden(hidden: &'a Hidden) -> At<'a> {
        match &hidden.named {
            Some(path) => At {
                words: words_of(Wrong::NotNamed),
                path,
            },
            None => At {
                words: (
                    "not a git repository (or any of the parent directories): .git",
                    "",
                ),
                path: b"",
            },
        }
    }
}

impl<'a> Display for At<'a> {
    fn fmt<W: fmt::Write>(&self, f: &mut fmt::Formatter<W>) -> fmt::Result {
        let ((front, back), path) = (self.words, BStr::new(self.path));
        write!(f, "{front}{path}{back}")
    }
}

/// What is said before a path and behind it.
fn words_of(wrong: Wrong) -> (&'static str, &'static str) {
    match wrong {
        Wrong::Unreadable => ("error reading ", ""),
        Wrong::TooLarge => ("too large to be a .git file: '", "'"),
        Wrong::Format => ("invalid gitfile format: ", ""),
        Wrong::NoPath => ("no path in gitfile: ", ""),
        Wrong::NoGitFolder => ("not a git repository: ", ""),
        Wrong::NotNamed | Wrong::NamedNowhere => ("not a git repository: '", "'"),
        Wrong::CommonFolder => ("failed to read ", ""),
        Wrong::LeadsNowhere => ("Invalid path '", "'"),
        Wrong::NotEntered => ("cannot chdir to '", "'"),
        Wrong::Border => (
            "not a git repository (or any parent up to mount point ",
            ")",
        ),
        Wrong::Owner => ("detected dubious ownership in repository at '", "'"),
        Wrong::User => (
            "the user isn't known, to whom the repository has to belong at '",
            "'",
        ),
        Wrong::Bare => (
            "cannot use bare repository '",
            "' (safe.bareRepository is 'explicit')",
        ),
    }
}

/// What is told of variables. What is wrong with pairs and parameters Git tells in a line before.
#[derive(Clone, Copy)]
struct VariableText<'a>(&'a VariableFault);

impl<'a> Display for VariableText<'a> {
    fn fmt<W: fmt::Write>(&self, f: &mut fmt::Formatter<W>) -> fmt::Result {
        match self.0 {
            VariableFault::Memory | VariableFault::NoBoolean(..) | VariableFault::SystemPath(_) => {
                write!(f, "{}", self.0)
            }
            _ => write!(f, "unable to parse command-line config"),
        }
    }
}

/// What is told of a line or a word of the configuration.
#[derive(Clone, Copy)]
struct SettingText<'a>(&'a SettingFault<Rc<Vec<u8>>, Vec<u8>>);

impl<'a> Display for SettingText<'a> {
    fn fmt<W: fmt::Write>(&self, f: &mut fmt::Formatter<W>) -> fmt::Result {
        let fault = self.0;
        let file = fault.file.as_ref().map(|file| BStr::new(file));
        match file {
            _ if fault.what == WrongSetting::TooDeep => {
                let path = BStr::new(bytes_of(&fault.path));
                let file = file.unwrap_or(BStr::new(b"the command line"));
                write!(
                    f,
                    "exceeded maximum include depth (10) while including\n\t{path}\nfrom\n\t{file}\nThis might be due to circular includes."
                )
            }
            Some(file) => write!(f, "bad config line {} in file {file}", fault.line),
            None => write!(f, "unable to parse command-line config"),
        }
    }
}

/// What is told of an entry.
#[derive(Clone, Copy)]
struct EntryText<'a> {
    key: &'a [u8],
    file: &'a Option<Vec<u8>>,
    line: usize,
}

impl<'a> Display for EntryText<'a> {
    fn fmt<W: fmt::Write>(&self, f: &mut fmt::Formatter<W>) -> fmt::Result {
        let (key, line) = (BStr::new(self.key), self.line);
        match self.file {
            Some(file) => {
                let file = BStr::new(file);
                write!(
                    f,
                    "bad config variable '{key}' in file '{file}' at line {line}"
                )
            }
            None => write!(f, "unable to parse '{key}' from command-line config"),
        }
    }
}

/// The bytes of a path; none where it isn't there.
fn bytes_of(path: &Option<Vec<u8>>) -> &[u8] {
    match path {
        Some(bytes) => bytes.as_slice(),
        None => b"",
    }
}
