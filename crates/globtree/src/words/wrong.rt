//! Which word is wrong, and where help is found.
ghost use Rattle.std.specs.Prelude.{◌≡◌};

use crate::words::command_name::CommandName;
use crate::words::fault::WordFault;
use crate::words::meant::meant_by;
use crate::words::table::option_of;
use crate::words::texts;
use std::alloc::{AllocError, Global};
use tree_files::tell_line;

/// What the program ends with where the words don't fit together.
const WRONG_WORDS: u8 = 129;

/// Tells which word is wrong and why, which one may have been meant, and where help is found. Where memory is refused, the last alone is told.
pub(crate) fn tell_word_fault<R: Eprint>(rt: &R, alloc: Global, fault: WordFault<'_>) -> u8
    ensures { result ≡ 129 }
{
    let _ = tell_fault_line(rt, alloc, fault);
    tell_help(rt, fault.command())
}

/// Tells that a word is no text.
pub(crate) fn tell_no_text<R: Eprint>(rt: &R) -> u8
    ensures { result ≡ 129 }
{
    let _ = eprintln!(rt; "error: a word is no UTF-8 text");
    tell_help(rt, None)
}

/// Tells what is wrong with the words, in a line.
fn tell_fault_line<R: Eprint>(
    rt: &R,
    alloc: Global,
    fault: WordFault<'_>,
) -> Result<(), AllocError> {
    match fault {
        WordFault::UnknownOptionOf { command, word } if stands_first(word) => {
            let name = command.as_str();
            let line = format_args!("error: {fault}; that stands before {name}");
            tell_line(rt, alloc, line)
        }
        _ => match meant_by(alloc, fault)? {
            Some(name) => tell_line(
                rt,
                alloc,
                format_args!("error: {fault}; did you mean '{name}'?"),
            ),
            None => tell_line(rt, alloc, format_args!("error: {fault}")),
        },
    }
}

/// Whether a word is an option that stands before a command.
fn stands_first(word: &str) -> bool {
    let name = match word.split_once('=') {
        Some((name, _value)) => name,
        None => word,
    };
    option_of(texts::program::HELP, name.as_bytes()).is_some()
}

/// Tells where help on a command is found, or else on the program, and answers what the program ends with.
fn tell_help<R: Eprint>(rt: &R, command: Option<CommandName>) -> u8
    ensures { result ≡ 129 }
{
    let _ = match command {
        Some(command) => {
            let name = command.as_str();
            eprintln!(rt; "usage: 'globtree {name} --help' tells the words of {name}")
        }
        None => eprintln!(rt; "usage: 'globtree --help' tells the commands and options"),
    };
    WRONG_WORDS
}
