//! The words of `check-ignore`.

use crate::words::command_name::CommandName;
use crate::words::command_words::CommandWords;
use crate::words::fault::WordFault;
use std::alloc::Global;

/// What the words behind `check-ignore` ask for.
#[derive(Drop)]
pub(crate) struct CheckIgnore<'a> {
    /// `-v`: the line that decides is told with each path.
    pub(crate) verbose: bool,
    /// `-n`: paths that no line decides about are told, too.
    pub(crate) non_matching: bool,
    /// `-z`: records end in a NUL, and no name is quoted.
    pub(crate) nul: bool,
    /// `-q`: nothing is told.
    pub(crate) quiet: bool,
    /// `--stdin`: the paths are read.
    pub(crate) stdin: bool,
    /// `--no-index`: Git wouldn't look into the index either.
    pub(crate) no_index: bool,
    /// The paths.
    pub(crate) paths: Vec<&'a str>,
}

impl<'a> CheckIgnore<'a> {
    /// Reads the words behind the command.
    pub(crate) fn read(
        alloc: Global,
        words: &'a [String],
    ) -> Result<CheckIgnore<'a>, WordFault<'a>> {
        let told = CommandWords::read(alloc, CommandName::CheckIgnore, words)?;
        let mut asked = CheckIgnore {
            verbose: false,
            non_matching: false,
            nul: false,
            quiet: false,
            stdin: false,
            no_index: false,
            paths: Vec::new(alloc),
        };
        'options: for option in &told.options {
            match option.name {
                "--verbose" => asked.verbose = true,
                "--non-matching" => asked.non_matching = true,
                "-z" => asked.nul = true,
                "--quiet" => asked.quiet = true,
                "--stdin" => asked.stdin = true,
                _ => asked.no_index = true,
            }
        }
        asked.paths = told.all_operands()?;
        Ok(asked)
    }

    /// Why these don't go together; `None` where they do.
    pub(crate) fn disagreement(&self) -> Option<&'static str> {
        let path_count = self.paths.len();
        if self.stdin && path_count > 0 {
            return Some("cannot specify pathnames with --stdin");
        }
        if !self.stdin && self.nul {
            return Some("-z only makes sense with --stdin");
        }
        if !self.stdin && path_count == 0 {
            return Some("no path specified");
        }
        if self.quiet && path_count > 1 {
            return Some("--quiet is only valid with a single pathname");
        }
        if self.quiet && self.verbose {
            return Some("cannot have both --quiet and --verbose");
        }
        if self.non_matching && !self.verbose {
            return Some("--non-matching is only valid with --verbose");
        }
        None
    }
}
