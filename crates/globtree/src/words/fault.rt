//! What is wrong with words.

use crate::words::command_name::CommandName;
use std::alloc::{AllocError, AllocFailed};
use std::fmt;
use std::fmt::Display;

/// What is wrong with the words of the command line.
#[derive(Clone, Copy, Debug)]
pub(crate) enum WordFault<'a> {
    /// Memory was refused.
    Memory,
    /// No command stands behind the options.
    NoCommand,
    /// The last word is an option, and its value is missing.
    NoValue {
        option: &'a str,
    },
    /// This word stands where a command has to, and is none.
    UnknownCommand {
        word: &'a str,
    },
    /// This option stands before the command, and the program hasn't it.
    UnknownOption {
        word: &'a str,
    },
    /// This option stands behind a command that hasn't it.
    UnknownOptionOf {
        command: CommandName,
        word: &'a str,
    },
    /// An option of a command has no such value.
    UnknownValue {
        command: CommandName,
        name: &'static str,
        value: &'a str,
    },
    /// This word stands behind a command that takes no word more.
    Surplus {
        command: CommandName,
        word: &'a str,
    },
    /// The words of a command don't go together.
    Misuse {
        command: CommandName,
        why: &'static str,
    },
}

impl<'a> From<AllocError> for WordFault<'a> {
    fn from(_refused: AllocError) -> WordFault<'a> {
        WordFault::Memory
    }
}

impl<'a, T: Drop> From<AllocFailed<T>> for WordFault<'a> {
    fn from(_refused: AllocFailed<T>) -> WordFault<'a> {
        WordFault::Memory
    }
}

impl<'a> WordFault<'a> {
    /// The command behind which the wrong word stands, where it stands behind one.
    pub(crate) fn command(self) -> Option<CommandName> {
        match self {
            WordFault::UnknownOptionOf { command, .. }
            | WordFault::UnknownValue { command, .. }
            | WordFault::Surplus { command, .. }
            | WordFault::Misuse { command, .. } => Some(command),
            _ => None,
        }
    }
}

impl<'a> Display for WordFault<'a> {
    fn fmt<W: fmt::Write>(&self, f: &mut fmt::Formatter<W>) -> fmt::Result {
        match *self {
            WordFault::Memory => f.write_str("no memory"),
            WordFault::NoCommand => f.write_str("a command is missing"),
            WordFault::NoValue { option } => write!(f, "the value of '{option}' is missing"),
            WordFault::UnknownCommand { word } => write!(f, "'{word}' is no command"),
            WordFault::UnknownOption { word } => write!(f, "there is no option '{word}'"),
            WordFault::UnknownOptionOf { command, word } => {
                let name = command.as_str();
                write!(f, "{name} has no option '{word}'")
            }
            WordFault::UnknownValue {
                command,
                name,
                value,
            } => {
                let command = command.as_str();
                write!(f, "{command} has no option '{name}={value}'")
            }
            WordFault::Surplus { command, word } => {
                let name = command.as_str();
                write!(f, "'{word}' is a word too much for {name}")
            }
            WordFault::Misuse { why, .. } => f.write_str(why),
        }
    }
}
