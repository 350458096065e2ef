//! A finding as an object, for programs. Bytes that are no UTF-8 are told as U+FFFD.

use crate::lint::telling::Teller;
use glob_lint::Message;
use serde::Serialize;
use std::alloc::AllocError;

/// A finding.
#[derive(Drop, Serialize)]
struct Object {
    /// The file, as it is seen from the current folder.
    file: String,
    /// The number of the line, from 1.
    line: usize,
    /// Where what is meant begins, in bytes from 1.
    column: usize,
    /// The column behind it.
    end: usize,
    level: &'static str,
    name: &'static str,
    message: String,
    /// The line.
    text: String,
    /// What to do.
    #[serde(rename = "try", skip_serializing_if = "Option::is_none")]
    advice: Option<String>,
    #[serde(skip_serializing_if = "Option::is_none")]
    because: Option<Because>,
}

/// The line that is the reason.
#[derive(Drop, Serialize)]
struct Because {
    file: String,
    line: usize,
    text: String,
}

/// Appends a finding as an object, in a line.
pub(crate) fn append_object(
    teller: &Teller<'_>,
    text: &mut Vec<u8>,
    message: &Message,
) -> Result<(), AllocError> {
    let object = object_of(teller, message)?;
    // nothing but want of memory keeps texts and numbers from being written
    let bytes = serde_json::to_vec(teller.alloc, &object).map_err(|_refused| AllocError)?;
    text.extend_from_slice(&bytes)?;
    text.push(b'\n')?;
    Ok(())
}

/// The object of a finding.
fn object_of(teller: &Teller<'_>, message: &Message) -> Result<Object, AllocError> {
    let column = message.from.saturating_add(1);
    let advice = match &message.advice {
        Some(advice) => Some(String::from_utf8_lossy(teller.alloc, advice)?),
        None => None,
    };
    let because = match message.because {
        Some((file, line)) => Some(Because {
            file: name_of(teller, file)?,
            line,
            text: line_of(teller, file, line)?,
        }),
        None => None,
    };
    Ok(Object {
        file: name_of(teller, message.file)?,
        line: message.line,
        column,
        end: column.saturating_add(message.length),
        level: message.level.as_str(),
        name: message.lint.as_str(),
        message: message.text.clone()?,
        text: line_of(teller, message.file, message.line)?,
        advice,
        because,
    })
}

/// The name of a file, as text.
fn name_of(teller: &Teller<'_>, file: usize) -> Result<String, AllocError> {
    String::from_utf8_lossy(teller.alloc, &teller.name_of(file)?)
}

/// A line of a file, as text.
fn line_of(teller: &Teller<'_>, file: usize, line: usize) -> Result<String, AllocError> {
    String::from_utf8_lossy(teller.alloc, teller.line_of(file, line))
}
