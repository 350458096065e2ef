//! The words of `check-attr`, of which some are names of attributes and the others paths.

use crate::words::command_name::CommandName;
use crate::words::command_words::CommandWords;
use crate::words::fault::WordFault;
use std::alloc::Global;

/// What the words behind `check-attr` ask for.
#[derive(Drop)]
pub(crate) struct CheckAttr<'a> {
    /// `-a`: all attributes are told that have a state.
    pub(crate) all: bool,
    /// `-z`: records end in a NUL, and no name is quoted.
    pub(crate) nul: bool,
    /// `--stdin`: the paths are read.
    pub(crate) stdin: bool,
    /// The names of the attributes that are asked for, where not all are.
    pub(crate) names: Vec<&'a str>,
    /// The paths.
    pub(crate) paths: Vec<&'a str>,
}

/// A fault of the command's words.
fn misuse<'a>(why: &'static str) -> WordFault<'a> {
    WordFault::Misuse {
        command: CommandName::CheckAttr,
        why,
    }
}

impl<'a> CheckAttr<'a> {
    /// Reads the words behind the command.
    pub(crate) fn read(alloc: Global, words: &'a [String]) -> Result<CheckAttr<'a>, WordFault<'a>> {
        let told = CommandWords::read(alloc, CommandName::CheckAttr, words)?;
        let mut asked = CheckAttr {
            all: false,
            nul: false,
            stdin: false,
            names: Vec::new(alloc),
            paths: Vec::new(alloc),
        };
        'options: for option in &told.options {
            match option.name {
                "--all" => asked.all = true,
                "-z" => asked.nul = true,
                _ => asked.stdin = true,
            }
        }
        asked.take_operands(told)?;
        if asked.stdin && !asked.paths.is_empty() {
            return Err(misuse("Can't specify files with --stdin"));
        }
        if !asked.stdin && asked.paths.is_empty() {
            return Err(misuse("No file specified"));
        }
        Ok(asked)
    }

    /// Takes the operands: names stand before `--`; without it the first is a name, or all are where paths are read.
    fn take_operands(&mut self, told: CommandWords<'a>) -> Result<(), WordFault<'a>> {
        let CommandWords {
            operands,
            behind,
            ..
        } = told;
        match behind {
            Some(_paths) if self.all && !operands.is_empty() => {
                return Err(misuse("Attributes and --all both specified"));
            }
            None if self.all => self.paths = operands,
            _ if !self.all && operands.is_empty() => {
                return Err(misuse("No attribute specified"));
            }
            Some(paths) => {
                self.names = operands;
                self.paths = paths;
            }
            None if self.stdin => self.names = operands,
            None => self.take_first(&operands)?,
        }
        Ok(())
    }

    /// Takes the first operand as a name, and the others as paths.
    fn take_first(&mut self, operands: &[&'a str]) -> Result<(), WordFault<'a>> {
        if let Some((name, paths)) = operands.split_first() {
            self.names.push(*name)?;
            self.paths.extend_from_slice(paths)?;
        }
        Ok(())
    }
}
