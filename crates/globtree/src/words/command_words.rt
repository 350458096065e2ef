//! The words behind a command: its options, and its operands before `--` and behind it.

use crate::words::command_name::CommandName;
use crate::words::fault::WordFault;
use crate::words::option_words::{NoOption, OptionWord, add_options, is_option};
use std::alloc::{AllocError, Global};

/// The words behind a command. Options may stand behind operands, unless the first operand ends them; behind `--` there is none.
#[derive(Drop)]
pub(crate) struct CommandWords<'a> {
    /// The options, in order.
    pub(crate) options: Vec<OptionWord<'a>>,
    /// The operands before `--`.
    pub(crate) operands: Vec<&'a str>,
    /// The operands behind `--`, where that is among the words.
    pub(crate) behind: Option<Vec<&'a str>>,
}

impl<'a> CommandWords<'a> {
    /// Tells the words apart by the options of the command's help.
    pub(crate) fn read(
        alloc: Global,
        command: CommandName,
        words: &'a [String],
    ) -> Result<CommandWords<'a>, WordFault<'a>> {
        let mut told = CommandWords {
            options: Vec::new(alloc),
            operands: Vec::new(alloc),
            behind: None,
        };
        let mut left = words;
        'words: while let Some((word, rest)) = left.split_first() {
            let word = word.as_str();
            if word == "--" {
                told.behind = Some(texts_of(alloc, rest)?);
                break;
            }
            if is_option(word) {
                left = match add_options(command.help(), &mut told.options, word, rest) {
                    Ok(left) => left,
                    Err(wrong) => return Err(fault_of(command, word, wrong)),
                };
            } else if command.ends_options_at_operand() {
                told.operands = texts_of(alloc, left)?;
                break;
            } else {
                told.operands.push(word)?;
                left = rest;
            }
        }
        Ok(told)
    }

    /// All operands, in order.
    pub(crate) fn all_operands(self) -> Result<Vec<&'a str>, AllocError> {
        let mut all = self.operands;
        if let Some(behind) = &self.behind {
            all.extend_from_slice(behind)?;
        }
        Ok(all)
    }
}

/// What is wrong with a word behind a command.
fn fault_of<'a>(command: CommandName, word: &'a str, wrong: NoOption) -> WordFault<'a> {
    match wrong {
        NoOption::Memory => WordFault::Memory,
        NoOption::Unknown => WordFault::UnknownOptionOf { command, word },
        NoOption::NoValue => WordFault::NoValue { option: word },
    }
}

/// The texts of words.
pub(crate) fn texts_of(alloc: Global, words: &[String]) -> Result<Vec<&str>, AllocError> {
    let mut texts = Vec::with_capacity(alloc, words.len())?;
    'words: for word in words {
        texts.push(word.as_str())?;
    }
    Ok(texts)
}
