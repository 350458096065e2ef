//! What the words of the command line ask for. The options that there are stand in the help texts, which are read as tables.

pub(crate) mod check_attr;
pub(crate) mod check_ignore;
mod command_name;
mod command_words;
pub(crate) mod config;
pub(crate) mod explain;
pub(crate) mod fault;
pub(crate) mod files;
pub(crate) mod lint;
pub(crate) mod match_pathspec;
mod meant;
mod option_words;
mod options;
pub(crate) mod status;
mod table;
mod texts;
mod wrong;

use crate::words::check_attr::CheckAttr;
use crate::words::check_ignore::CheckIgnore;
use crate::words::command_name::CommandName;
use crate::words::config::ShowConfig;
use crate::words::explain::Explain;
use crate::words::fault::WordFault;
use crate::words::files::ListFiles;
use crate::words::lint::LintFiles;
use crate::words::match_pathspec::MatchPathspec;
pub(crate) use crate::words::options::Options;
use crate::words::options::{Asked, Front, front_of};
use crate::words::status::ShowStatus;
pub(crate) use crate::words::wrong::{tell_no_text, tell_word_fault};
use std::alloc::Global;

/// What is to be done.
#[derive(Drop)]
pub(crate) enum Command<'a> {
    /// Write this text: a help, or the version.
    Write(&'static str),
    /// Tell which paths are ignored.
    CheckIgnore(CheckIgnore<'a>),
    /// Tell which states attributes have for paths.
    CheckAttr(CheckAttr<'a>),
    /// Tell what the configuration says.
    Config(ShowConfig<'a>),
    /// Tell why paths are ignored or not.
    Explain(Explain<'a>),
    /// List files.
    Files(ListFiles<'a>),
    /// Tell which lines of ignore files do nothing.
    Lint(LintFiles<'a>),
    /// Tell which paths pathspecs match.
    MatchPathspec(MatchPathspec<'a>),
    /// Tell which files aren't tracked, and which are ignored.
    Status(ShowStatus),
}

const VERSION: &str = "globtree 0.4.0\n";

/// The options and the command of the words.
///
/// # Errors
/// Where the words ask for nothing that the program does: what is wrong with them. Then nothing else is done.
pub(crate) fn asked_by(
    alloc: Global,
    words: &[String],
) -> Result<(Options<'_>, Command<'_>), WordFault<'_>> {
    let Front {
        options,
        asks,
        rest,
    } = front_of(alloc, words)?;
    let command = match asks {
        Some(Asked::Help) => Command::Write(texts::program::HELP),
        Some(Asked::Version) => Command::Write(VERSION),
        None => command_of(alloc, rest)?,
    };
    Ok((options, command))
}

/// The command of the words behind the options.
fn command_of(alloc: Global, words: &[String]) -> Result<Command<'_>, WordFault<'_>> {
    let Some((word, rest)) = words.split_first() else {
        return Err(WordFault::NoCommand);
    };
    let word = word.as_str();
    let Some(command) = CommandName::of(word) else {
        return Err(WordFault::UnknownCommand { word });
    };
    if asks_help(rest) {
        return Ok(Command::Write(command.help()));
    }
    match command {
        CommandName::CheckIgnore => Ok(Command::CheckIgnore(CheckIgnore::read(alloc, rest)?)),
        CommandName::CheckAttr => Ok(Command::CheckAttr(CheckAttr::read(alloc, rest)?)),
        CommandName::Config => Ok(Command::Config(ShowConfig::read(alloc, rest)?)),
        CommandName::Explain => Ok(Command::Explain(Explain::read(alloc, rest)?)),
        CommandName::Files => Ok(Command::Files(ListFiles::read(alloc, rest)?)),
        CommandName::Lint => Ok(Command::Lint(LintFiles::read(alloc, rest)?)),
        CommandName::MatchPathspec => Ok(Command::MatchPathspec(MatchPathspec::read(alloc, rest)?)),
        CommandName::Status => Ok(Command::Status(ShowStatus::read(alloc, rest)?)),
    }
}

/// Whether the words behind a command ask for its help: `--help` stands among them before any `--`, or `-h` alone.
fn asks_help(words: &[String]) -> bool {
    if let [word] = words {
        if word.as_str() == "-h" {
            return true;
        }
    }
    'words: for word in words {
        match word.as_str() {
            "--" => return false,
            "--help" => return true,
            _ => {}
        }
    }
    false
}
