//! The words of `config`.

use crate::words::command_name::CommandName;
use crate::words::command_words::CommandWords;
use crate::words::fault::WordFault;
use std::alloc::Global;

/// What the words behind `config` ask for.
#[derive(Clone, Copy, Debug)]
pub(crate) struct ShowConfig<'a> {
    /// The key; `None` where all keys are told (`--list`).
    pub(crate) key: Option<&'a str>,
    /// `--get-all`: all values of the key are told, and not the last one alone.
    pub(crate) get_all: bool,
    /// `--show-origin`: it is told from where each was read.
    pub(crate) show_origin: bool,
    /// `-z`: a NUL ends each, and no name is quoted.
    pub(crate) nul: bool,
}

impl<'a> ShowConfig<'a> {
    /// Reads the words behind the command. The first that is no option ends the options, as in Git.
    pub(crate) fn read(
        alloc: Global,
        words: &'a [String],
    ) -> Result<ShowConfig<'a>, WordFault<'a>> {
        let told = CommandWords::read(alloc, CommandName::Config, words)?;
        let mut asked = ShowConfig {
            key: None,
            get_all: false,
            show_origin: false,
            nul: false,
        };
        let mut lists = false;
        let mut gets = false;
        'options: for option in &told.options {
            match option.name {
                "--list" => lists = true,
                "--get" => gets = true,
                "--get-all" => asked.get_all = true,
                "--show-origin" => asked.show_origin = true,
                _ => asked.nul = true,
            }
        }
        let why = match told.all_operands()?.as_slice() {
            _ if (lists && gets) || (asked.get_all && (lists || gets)) => {
                "only one action at a time"
            }
            [] if lists => return Ok(asked),
            [key] if !lists => {
                asked.key = Some(*key);
                return Ok(asked);
            }
            _ if lists => "wrong number of arguments, should be 0",
            _ => "wrong number of arguments, should be 1",
        };
        Err(WordFault::Misuse {
            command: CommandName::Config,
            why,
        })
    }
}
