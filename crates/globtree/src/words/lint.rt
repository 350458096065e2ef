//! The words of `lint`.

use crate::words::command_name::CommandName;
use crate::words::command_words::CommandWords;
use crate::words::fault::WordFault;
use crate::words::option_words::OptionWord;
use glob_lint::Lint;
use std::alloc::Global;

/// What the words behind `lint` ask for.
#[derive(Drop)]
pub(crate) struct LintFiles<'a> {
    /// `--all`: lines are told, too, that a line of another file covers, and `!` lines that take nothing back.
    pub(crate) all: bool,
    /// `--json`: each finding is told as an object.
    pub(crate) json: bool,
    /// `--fixed FILE`: this file is written without the lines that may go, and no finding is.
    pub(crate) fixed: Option<&'a str>,
    /// `--allow NAME`: findings of these names aren't told.
    pub(crate) allowed: Vec<Lint>,
    /// The folder whose files are looked at; `None` where it is the current one.
    pub(crate) folder: Option<&'a str>,
}

impl<'a> LintFiles<'a> {
    /// Reads the words behind the command.
    pub(crate) fn read(alloc: Global, words: &'a [String]) -> Result<LintFiles<'a>, WordFault<'a>> {
        let command = CommandName::Lint;
        let told = CommandWords::read(alloc, command, words)?;
        let mut asked = LintFiles {
            all: false,
            json: false,
            fixed: None,
            allowed: Vec::new(alloc),
            folder: None,
        };
        'options: for option in &told.options {
            asked.set(*option)?;
        }
        let operands = told.all_operands()?;
        asked.folder = operands.first().copied();
        if let Some(word) = operands.get(1) {
            return Err(WordFault::Surplus { command, word });
        }
        if asked.json && asked.fixed.is_some() {
            let why = "--fixed and --json don't go together";
            return Err(WordFault::Misuse { command, why });
        }
        Ok(asked)
    }

    /// Sets what an option asks for.
    fn set(&mut self, option: OptionWord<'a>) -> Result<(), WordFault<'a>> {
        match (option.name, option.value) {
            ("--all", _) => self.all = true,
            ("--json", _) => self.json = true,
            ("--fixed", value) => self.fixed = value,
            (name, Some(value)) => match Lint::of(value.as_bytes()) {
                Some(lint) => self.allowed.push(lint)?,
                None => {
                    return Err(WordFault::UnknownValue {
                        command: CommandName::Lint,
                        name,
                        value,
                    });
                }
            },
            _ => {}
        }
        Ok(())
    }
}
