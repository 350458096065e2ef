//! Rows of lines: what ignore files and files with labels say.

use crate::answer::Answer;
use crate::row::Row;
use anyhow::{Result, bail};
use gix_glob::search::pattern::Mapping;
use gix_glob::search::{self, Pattern as _};
use glob_lines::{IgnoreLine, LabelLines, without_byte_order_mark};
use std::alloc::AllocError;

/// The patterns of an ignore file, each as it is shown behind the number of its line.
pub(crate) fn files<P: search::Pattern>(row: &Row, parser: &P, answer: &mut Answer) -> Result<()> {
    let mut text = String::new(answer.alloc);
    for mapping in &parser.bytes_to_patterns(answer.alloc, row.bytes(0), "")? {
        let (number, pattern) = (mapping.sequence_number, &mapping.pattern);
        text.push_str(format!(in answer.alloc; "{number}:{pattern}\n")?.as_str())?;
    }
    Ok(answer.push(text.into_bytes())?)
}

/// What the first line of an ignore file gives, and what follows it.
pub(crate) fn line(line: Option<IgnoreLine<'_>>, answer: &mut Answer) -> Result<()> {
    let Some(line) = line else {
        bail!("no line");
    };
    answer.copy_some(line.text)?;
    Ok(answer.copy(line.rest)?)
}

/// What follows a byte order mark.
pub(crate) fn marks(row: &Row, answer: &mut Answer) -> Result<()> {
    Ok(answer.copy(without_byte_order_mark(row.bytes(0)))?)
}

/// The pattern and the label of a line.
pub(crate) fn labels(row: &Row, answer: &mut Answer) -> Result<()> {
    match LabelLines
        .bytes_to_patterns(answer.alloc, row.bytes(0), "")?
        .as_slice()
    {
        [] => Ok(label(None, answer)?),
        [mapping] => Ok(label(Some(mapping), answer)?),
        _ => bail!("more than one line"),
    }
}

/// A pattern and its label, where there is one.
fn label(mapping: Option<&Mapping<Vec<u8>>>, answer: &mut Answer) -> Result<(), AllocError> {
    match mapping {
        Some(mapping) => {
            answer.show(&mapping.pattern)?;
            answer.copy(&mapping.value)
        }
        None => {
            answer.skip()?;
            answer.skip()
        }
    }
}
