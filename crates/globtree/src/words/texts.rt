//! The help of the program and of each command. Its lines that begin with a dash are the options that there are.

pub(crate) mod check_attr;
pub(crate) mod check_ignore;
pub(crate) mod config;
pub(crate) mod explain;
pub(crate) mod files;
pub(crate) mod lint;
pub(crate) mod match_pathspec;
pub(crate) mod program;
pub(crate) mod status;
