//! The words of `status`.

use crate::words::command_name::CommandName;
use crate::words::command_words::CommandWords;
use crate::words::fault::WordFault;
use crate::words::option_words::OptionWord;
use git_repository::ShowUntracked;
use std::alloc::Global;

/// Which files are told that are ignored.
#[derive(Clone, Copy, Debug, PartialEq, Eq)]
pub(crate) enum IgnoredFiles {
    /// `--ignored=no`: none.
    No,
    /// `--ignored=traditional`: those that are ignored as the others are told.
    Traditional,
    /// `--ignored=matching`: what a pattern matches, a folder by its name.
    Matching,
}

/// What the words behind `status` ask for. Where an option stands there twice, the last one counts.
#[derive(Clone, Copy, Debug)]
pub(crate) struct ShowStatus {
    /// `-u`, `--untracked-files`: which files are told that aren't tracked; `None` where the configuration says so.
    pub(crate) untracked: Option<ShowUntracked>,
    /// `--ignored`.
    pub(crate) ignored: IgnoredFiles,
    /// `-z`: a NUL ends each line, and no name is quoted.
    pub(crate) nul: bool,
    /// `--short`, unless `--porcelain` follows: paths are told from the current folder.
    pub(crate) short: bool,
    /// Whether a path stands among the words.
    pub(crate) has_path: bool,
}

impl ShowStatus {
    /// Reads the words behind the command.
    pub(crate) fn read(alloc: Global, words: &[String]) -> Result<ShowStatus, WordFault<'_>> {
        let told = CommandWords::read(alloc, CommandName::Status, words)?;
        let mut asked = ShowStatus {
            untracked: None,
            ignored: IgnoredFiles::No,
            nul: false,
            short: false,
            has_path: false,
        };
        'options: for option in &told.options {
            asked.set(*option)?;
        }
        asked.has_path = !told.all_operands()?.is_empty();
        Ok(asked)
    }

    /// Why these don't go together, where the configuration says which files are told that aren't tracked if no option does; `None` where
    /// they do.
    pub(crate) fn disagreement(self, untracked: ShowUntracked) -> Option<&'static str> {
        if self.has_path {
            return Some("status is about the whole work tree, and takes no paths");
        }
        match (self.ignored, untracked) {
            (IgnoredFiles::Matching, ShowUntracked::No) => {
                Some("Unsupported combination of ignored and untracked-files arguments")
            }
            _ => None,
        }
    }

    /// Sets what an option asks for.
    fn set<'a>(&mut self, option: OptionWord<'a>) -> Result<(), WordFault<'a>> {
        match (option.name, option.value) {
            ("--untracked-files", None | Some("all")) => self.untracked = Some(ShowUntracked::All),
            ("--untracked-files", Some("normal")) => self.untracked = Some(ShowUntracked::Normal),
            ("--untracked-files", Some("no")) => self.untracked = Some(ShowUntracked::No),
            ("--ignored", None | Some("traditional")) => self.ignored = IgnoredFiles::Traditional,
            ("--ignored", Some("matching")) => self.ignored = IgnoredFiles::Matching,
            ("--ignored", Some("no")) => self.ignored = IgnoredFiles::No,
            ("--null", _) => self.nul = true,
            ("--short", _) => self.short = true,
            // no other form is known
            ("--porcelain", None | Some("v1")) => self.short = false,
            (name, Some(value)) => {
                return Err(WordFault::UnknownValue {
                    command: CommandName::Status,
                    name,
                    value,
                });
            }
            _ => {}
        }
        Ok(())
    }
}
