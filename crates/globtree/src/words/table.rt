//! The options that a help text lists: each line that begins with a dash is one, with its letter, its name and what it takes.

use std::alloc::{AllocError, Global};

/// What an option takes.
#[derive(Clone, Copy, Debug, PartialEq, Eq)]
pub(crate) enum Takes {
    /// Nothing.
    Nothing,
    /// A value, as in `--top DIR`: it follows an equals sign, or it is the next word.
    Value,
    /// A value that may be missing, as in `-u[MODE], --untracked-files[=MODE]`: it follows the letter or an equals sign.
    MaybeValue,
}

/// A line of a help text: `  -v, --verbose  print ..`.
#[derive(Clone, Copy, Debug)]
pub(crate) struct OptionLine {
    /// The name with its dashes; of an option that has a letter alone, the dash and the letter.
    pub(crate) name: &'static str,
    pub(crate) takes: Takes,
}

impl OptionLine {
    /// The option that a line of a help text tells, where it tells one.
    fn read(line: &'static str) -> Option<OptionLine> {
        let line = line.strip_prefix("  ")?;
        if !line.starts_with('-') {
            return None;
        }
        let spelled = match line.split_once("  ") {
            Some((spelled, _help)) => spelled,
            None => line,
        };
        let last = match spelled.split_once(", ") {
            Some((_letter, name)) => name,
            None => spelled,
        };
        let (name, takes) = name_and_value(last);
        Some(OptionLine { name, takes })
    }
}

/// The name of an option and what it takes.
fn name_and_value(spelled: &'static str) -> (&'static str, Takes) {
    if let Some((name, _value)) = spelled.split_once('[') {
        return (name, Takes::MaybeValue);
    }
    match spelled.split_once(' ') {
        Some((name, _value)) => (name, Takes::Value),
        None => (spelled, Takes::Nothing),
    }
}

/// The option that a help text lists by this name, or by this dash and letter.
pub(crate) fn option_of(help: &'static str, word: &[u8]) -> Option<OptionLine> {
    for line in help.lines() {
        if tells(line.as_bytes(), word) {
            return OptionLine::read(line);
        }
    }
    None
}

/// Whether a line of a help text tells the option of a word: in front, or behind a letter.
fn tells(line: &[u8], word: &[u8]) -> bool {
    let [b' ', b' ', spelled @ ..] = line else {
        return false;
    };
    match spelled {
        [b'-', _letter, b',', b' ', name @ ..] => begins_with(spelled, word)
            || begins_with(name, word),
        _ => begins_with(spelled, word),
    }
}

/// Whether a word stands in front of bytes, and ends there.
fn begins_with(bytes: &[u8], word: &[u8]) -> bool {
    match bytes.strip_prefix(word) {
        Some([] | [b' ' | b',' | b'[', ..]) => true,
        _ => false,
    }
}

/// The names that have more than a letter of all options that a help text lists.
pub(crate) fn option_names(
    alloc: Global,
    help: &'static str,
) -> Result<Vec<&'static str>, AllocError> {
    let mut names = Vec::new(alloc);
    for line in help.lines() {
        match OptionLine::read(line) {
            Some(option) if option.name.starts_with("--") => names.push(option.name)?,
            _ => {}
        }
    }
    Ok(names)
}
