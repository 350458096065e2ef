//! The options before the command.

use crate::words::fault::WordFault;
use crate::words::option_words::{NoOption, OptionWord, add_options, is_option};
use crate::words::texts;
use pathspecs::Settings;
use std::alloc::{AllocError, Global};

/// What is asked for before the command. Where an option stands there twice, the last one counts.
#[derive(Drop)]
pub(crate) struct Options<'a> {
    /// `-C DIR`: the folders that are gone to, each from the one before it.
    pub(crate) folders: Vec<&'a str>,
    /// `-c KEY=VALUE`: the words that are of the configuration, in order.
    pub(crate) settings: Vec<&'a str>,
    /// `--git-dir DIR`: the git folder.
    pub(crate) git_dir: Option<&'a str>,
    /// `--work-tree DIR`: the top of the work tree of the repository that was found.
    pub(crate) work_tree: Option<&'a str>,
    /// `--top DIR`: the top of the work tree.
    pub(crate) top: Option<&'a str>,
    /// `--excludes FILE`: the file of excludes.
    pub(crate) excludes: Option<&'a str>,
    /// `--ignore-case`: the case of letters doesn't count.
    pub(crate) ignore_case: bool,
    /// `--system FILE`: the system's attribute file.
    pub(crate) system: Option<&'a str>,
    /// `--attributes FILE`: the user's attribute file.
    pub(crate) attributes: Option<&'a str>,
    /// `--literal-pathspecs` and so on: what counts for all pathspecs.
    pub(crate) pathspecs: Settings,
}

/// What stands before the command.
#[derive(Drop)]
pub(crate) struct Front<'a> {
    pub(crate) options: Options<'a>,
    /// Whether the last of them asks for the program's help or its version, and which of the two.
    pub(crate) asks: Option<Asked>,
    /// The words from the command on.
    pub(crate) rest: &'a [String],
}

/// What is asked of the program itself.
#[derive(Clone, Copy, Debug)]
pub(crate) enum Asked {
    /// `-h`, `--help`
    Help,
    /// `--version`
    Version,
}

/// The options before the command, up to one that asks for help or the version.
///
/// # Errors
/// At a word that is no option of the program, and where the value of the last one is missing.
pub(crate) fn front_of(alloc: Global, words: &[String]) -> Result<Front<'_>, WordFault<'_>> {
    let mut front = Front {
        options: Options::none(alloc),
        asks: None,
        rest: words,
    };
    let mut told = Vec::new(alloc);
    'words: while let Some((word, behind)) = front.rest.split_first() {
        let word = word.as_str();
        if front.asks.is_some() || !is_option(word) {
            break;
        }
        front.rest = match add_options(texts::program::HELP, &mut told, word, behind) {
            Ok(rest) => rest,
            Err(NoOption::Memory) => return Err(WordFault::Memory),
            Err(NoOption::Unknown) => return Err(WordFault::UnknownOption { word }),
            Err(NoOption::NoValue) => return Err(WordFault::NoValue { option: word }),
        };
        front.asks = asked_by(&told);
    }
    front.options.set_all(&told)?;
    Ok(front)
}

/// What the last option asks of the program itself.
fn asked_by(told: &[OptionWord<'_>]) -> Option<Asked> {
    match told.last()?.name {
        "--help" => Some(Asked::Help),
        "--version" => Some(Asked::Version),
        _ => None,
    }
}

impl<'a> Options<'a> {
    /// None of them.
    fn none(alloc: Global) -> Options<'a> {
        Options {
            folders: Vec::new(alloc),
            settings: Vec::new(alloc),
            git_dir: None,
            work_tree: None,
            top: None,
            excludes: None,
            ignore_case: false,
            system: None,
            attributes: None,
            pathspecs: Settings::default(),
        }
    }

    /// Sets what these ask for.
    fn set_all(&mut self, told: &[OptionWord<'a>]) -> Result<(), AllocError> {
        'options: for option in told {
            match (option.name, option.value) {
                ("-C", Some(folder)) => self.folders.push(folder)?,
                ("-c", Some(setting)) => self.settings.push(setting)?,
                ("--git-dir", value) => self.git_dir = value,
                ("--work-tree", value) => self.work_tree = value,
                ("--top", value) => self.top = value,
                ("--excludes", value) => self.excludes = value,
                ("--system", value) => self.system = value,
                ("--attributes", value) => self.attributes = value,
                ("--ignore-case", _) => self.ignore_case = true,
                ("--literal-pathspecs", _) => self.pathspecs.literal = true,
                ("--glob-pathspecs", _) => self.pathspecs.glob = true,
                ("--noglob-pathspecs", _) => self.pathspecs.noglob = true,
                ("--icase-pathspecs", _) => self.pathspecs.icase = true,
                // the others have no effect
                _ => {}
            }
        }
        Ok(())
    }
}
