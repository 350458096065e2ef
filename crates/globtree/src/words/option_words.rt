//! Options among words, by the lines of a help text.
ghost use Rattle.std.specs.Prelude.{◌≤◌, IfOk, length};

use crate::words::table::{OptionLine, Takes, option_of};
use std::alloc::AllocFailed;

/// An option among words.
#[derive(Clone, Copy, Debug)]
pub(crate) struct OptionWord<'a> {
    /// Its name, as its line in the help text has it.
    pub(crate) name: &'static str,
    pub(crate) value: Option<&'a str>,
}

/// Why a word is no option.
#[derive(Clone, Copy, Debug)]
pub(crate) enum NoOption {
    /// Memory was refused.
    Memory,
    /// The help text lists no such option.
    Unknown,
    /// It takes a value, and no word follows.
    NoValue,
}

impl<T: Drop> From<AllocFailed<T>> for NoOption {
    fn from(_refused: AllocFailed<T>) -> NoOption {
        NoOption::Memory
    }
}

/// Whether a word is an option: a dash stands at its front, and more behind it.
pub(crate) fn is_option(word: &str) -> bool {
    word.len() > 1 && word.starts_with('-')
}

/// Adds the options of a word, which a help text lists. It answers what is left of the words behind, of which the first may be a value.
pub(crate) fn add_options<'a>(
    help: &'static str,
    options: &mut Vec<OptionWord<'a>>,
    word: &'a str,
    behind: &'a [String],
) -> Result<&'a [String], NoOption>
    ensures { IfOk result (λ left. length left.now ≤ length behind.entry.now) }
{
    let (name, value) = match word.split_once('=') {
        Some((name, value)) if name.starts_with("--") => (name, Some(value)),
        _ => (word, None),
    };
    if let Some(option) = option_of(help, name.as_bytes()) {
        return add_option(options, option, value, behind);
    }
    let letters = word.strip_prefix('-').unwrap_or(word);
    let Some(first) = letters.bytes().next() else {
        return Err(NoOption::Unknown);
    };
    match option_of(help, &[b'-', first]) {
        Some(option) if option.takes != Takes::Nothing => {
            // (a letter that takes a value is one byte)
            let value = letters.strip_prefix(char::from(first));
            add_option(options, option, value, behind)
        }
        _ => {
            add_letters(help, options, letters)?;
            Ok(behind)
        }
    }
}

/// Adds an option, with the next word as its value where it needs one and has none.
fn add_option<'a>(
    options: &mut Vec<OptionWord<'a>>,
    option: OptionLine,
    value: Option<&'a str>,
    behind: &'a [String],
) -> Result<&'a [String], NoOption>
    ensures { IfOk result (λ left. length left.now ≤ length behind.entry.now) }
{
    let name = option.name;
    match (option.takes, value) {
        (Takes::Nothing, Some(_value)) => Err(NoOption::Unknown),
        (Takes::Value, None) => {
            let (value, left) = behind.split_first().ok_or(NoOption::NoValue)?;
            let value = Some(value.as_str());
            options.push(OptionWord { name, value })?;
            Ok(left)
        }
        (_, value) => {
            options.push(OptionWord { name, value })?;
            Ok(behind)
        }
    }
}

/// Adds the options of letters, none of which takes a value.
fn add_letters<'a>(
    help: &'static str,
    options: &mut Vec<OptionWord<'a>>,
    letters: &str,
) -> Result<(), NoOption> {
    for letter in letters.bytes() {
        match option_of(help, &[b'-', letter]) {
            Some(
                OptionLine {
                    name,
                    takes: Takes::Nothing,
                    ..
                },
            ) => options.push(OptionWord { name, value: None })?,
            _ => return Err(NoOption::Unknown),
        }
    }
    Ok(())
}
