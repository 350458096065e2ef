//! The words of `match-pathspec`.

use crate::words::command_name::CommandName;
use crate::words::command_words::CommandWords;
use crate::words::fault::WordFault;
use std::alloc::Global;

/// What the words behind `match-pathspec` ask for.
#[derive(Drop)]
pub(crate) struct MatchPathspec<'a> {
    /// `-v`: the pathspec that decides is told before each path.
    pub(crate) verbose: bool,
    /// `-z`: records end in a NUL, and no name is quoted.
    pub(crate) nul: bool,
    /// The pathspecs.
    pub(crate) pathspecs: Vec<&'a str>,
}

impl<'a> MatchPathspec<'a> {
    /// Reads the words behind the command.
    pub(crate) fn read(
        alloc: Global,
        words: &'a [String],
    ) -> Result<MatchPathspec<'a>, WordFault<'a>> {
        let command = CommandName::MatchPathspec;
        let told = CommandWords::read(alloc, command, words)?;
        let mut asked = MatchPathspec {
            verbose: false,
            nul: false,
            pathspecs: Vec::new(alloc),
        };
        'options: for option in &told.options {
            match option.name {
                "--verbose" => asked.verbose = true,
                _ => asked.nul = true,
            }
        }
        asked.pathspecs = told.all_operands()?;
        if asked.pathspecs.is_empty() {
            let why = "a pathspec is missing";
            return Err(WordFault::Misuse { command, why });
        }
        Ok(asked)
    }
}
