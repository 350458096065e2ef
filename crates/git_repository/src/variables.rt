//! The variables of the environment that say where a repository is, and what configuration is read.

use std::alloc::Global;

/// A pair of the environment.
#[derive(Debug, Drop)]
pub struct Pair {
    /// The value of `GIT_CONFIG_KEY_n`.
    pub key: Vec<u8>,
    /// That of `GIT_CONFIG_VALUE_n`, where it is set.
    pub value: Option<Vec<u8>>,
}

/// The variables; `None` where one isn't set. One that is set to an empty text is set, as Git takes it.
#[derive(Debug, Drop)]
pub struct Variables {
    /// `GIT_DIR`: the git folder, which then isn't searched for.
    pub git_dir: Option<Vec<u8>>,
    /// `GIT_WORK_TREE`: the work tree.
    pub work_tree: Option<Vec<u8>>,
    /// `GIT_COMMON_DIR`: the common folder.
    pub common_dir: Option<Vec<u8>>,
    /// `GIT_INDEX_FILE`: the index.
    pub index_file: Option<Vec<u8>>,
    /// `GIT_OBJECT_DIRECTORY`: the folder that stands for `objects`.
    pub object_directory: Option<Vec<u8>>,
    /// `GIT_CEILING_DIRECTORIES`: folders with colons between, at which the search upward ends.
    pub ceiling_directories: Option<Vec<u8>>,
    /// Whether `GIT_DISCOVERY_ACROSS_FILESYSTEM` is true: the search goes on beyond the border of a file system.
    pub across_file_systems: bool,
    /// `GIT_IMPLICIT_WORK_TREE`.
    pub implicit_work_tree: Option<Vec<u8>>,
    /// `PWD`, which counts where it leads to the folder in which Git works.
    pub pwd: Option<Vec<u8>>,
    /// `HOME`.
    pub home: Option<Vec<u8>>,
    /// `XDG_CONFIG_HOME`: the folder of settings in place of `.config` in the home folder.
    pub config_home: Option<Vec<u8>>,
    /// `GIT_CONFIG_NOSYSTEM`: whether the system's file is left out.
    pub no_system: Option<Vec<u8>>,
    /// `GIT_CONFIG_SYSTEM`, or else the system's file of the installation, often `/etc/gitconfig`.
    pub system: Option<Vec<u8>>,
    /// `GIT_CONFIG_GLOBAL`: the file that stands for both of the user's.
    pub global: Option<Vec<u8>>,
    /// `GIT_CONFIG_COUNT`: how many pairs the environment tells.
    pub count: Option<Vec<u8>>,
    /// The pairs from number 0 on, up to the first that has no key, or at least as many as are told.
    pub pairs: Vec<Pair>,
    /// `GIT_CONFIG_PARAMETERS`: words of `-c` that another Git hands on.
    pub parameters: Option<Vec<u8>>,
}

impl Variables {
    /// None of them is set.
    pub fn none(alloc: Global) -> Variables {
        Variables {
            git_dir: None,
            work_tree: None,
            common_dir: None,
            index_file: None,
            object_directory: None,
            ceiling_directories: None,
            across_file_systems: false,
            implicit_work_tree: None,
            pwd: None,
            home: None,
            config_home: None,
            no_system: None,
            system: None,
            global: None,
            count: None,
            pairs: Vec::new(alloc),
            parameters: None,
        }
    }
}
