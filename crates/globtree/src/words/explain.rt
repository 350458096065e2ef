//! The words of `explain`.

use crate::words::command_name::CommandName;
use crate::words::command_words::CommandWords;
use crate::words::fault::WordFault;
use std::alloc::Global;

/// What the words behind `explain` ask for.
#[derive(Drop)]
pub(crate) struct Explain<'a> {
    /// `-z`: records end in a NUL, and no name is quoted.
    pub(crate) nul: bool,
    /// `--stdin`: the paths are read.
    pub(crate) stdin: bool,
    /// `--no-index`: tracked paths are as others.
    pub(crate) no_index: bool,
    /// The paths.
    pub(crate) paths: Vec<&'a str>,
}

impl<'a> Explain<'a> {
    /// Reads the words behind the command.
    pub(crate) fn read(alloc: Global, words: &'a [String]) -> Result<Explain<'a>, WordFault<'a>> {
        let told = CommandWords::read(alloc, CommandName::Explain, words)?;
        let mut asked = Explain {
            nul: false,
            stdin: false,
            no_index: false,
            paths: Vec::new(alloc),
        };
        'options: for option in &told.options {
            match option.name {
                "-z" => asked.nul = true,
                "--stdin" => asked.stdin = true,
                _ => asked.no_index = true,
            }
        }
        asked.paths = told.all_operands()?;
        Ok(asked)
    }

    /// Why these don't go together; `None` where they do.
    pub(crate) fn disagreement(&self) -> Option<&'static str> {
        if self.stdin && !self.paths.is_empty() {
            return Some("cannot specify pathnames with --stdin");
        }
        if !self.stdin && self.nul {
            return Some("-z only makes sense with --stdin");
        }
        if !self.stdin && self.paths.is_empty() {
            return Some("no path specified");
        }
        None
    }
}
