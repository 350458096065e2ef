//! Rows of matching: by each engine, by the engine of lines, and by attempts of the recursive one.

use crate::answer::{Answer, room};
use crate::attributes::push_number;
use crate::row::Row;
use anyhow::{Result, bail};
use gix_glob::search::Watched;
use gix_glob::wildmatch::{Mode, attempt, is_start, recursive, wildmatch};
use glob_lines::run_wild;
use std::alloc::Global;

/// With more stars than these the recursive engine may give up.
const MOST_STARS: usize = 63;

/// How many stars a pattern has, where those side by side are one.
fn stars(pattern: &[u8]) -> usize {
    let mut count = 0usize;
    let mut before = 0;
    for byte in pattern {
        if *byte == b'*' && before != b'*' {
            count = count.saturating_add(1);
        }
        before = *byte;
    }
    count
}

/// Whether a pattern matches a value in a mode. Both engines and that of lines have to agree.
pub(crate) fn matching(row: &Row, answer: &mut Answer) -> Result<()> {
    let (mode, pattern, value) = (row.mode(0), row.bytes(1), row.bytes(2));
    let is_matched = wildmatch(pattern, value, mode);
    let is_found = recursive(pattern, value, mode);
    if is_found != is_matched && (is_found || stars(pattern) <= MOST_STARS) {
        bail!("the engines differ");
    }
    if !value.contains(&b'\n') && line_answer(answer.alloc, pattern, mode, value)? != is_matched {
        bail!("the engine of lines differs");
    }
    Ok(answer.tell(is_matched)?)
}

/// What the engine of lines answers for a value as its one line.
fn line_answer(alloc: Global, pattern: &[u8], mode: Mode, value: &[u8]) -> Result<bool> {
    let mut line = Vec::from_slice(alloc, value)?;
    line.push(b'\n')?;
    match wild(alloc, pattern, mode, &line)?.as_slice() {
        b"yes\n" => Ok(true),
        b"no\n" => Ok(false),
        _ => bail!("neither yes nor no"),
    }
}

/// What is written for the lines of values.
pub(crate) fn answered(row: &Row, answer: &mut Answer) -> Result<()> {
    let text = wild(answer.alloc, row.bytes(1), row.mode(0), row.bytes(2))?;
    Ok(answer.push(text)?)
}

/// What the engine of lines writes.
fn wild(alloc: Global, pattern: &[u8], mode: Mode, values: &[u8]) -> Result<Vec<u8>> {
    let (mut reader, mut writer) = (Watched::new(values), Watched::new(room(alloc)?));
    run_wild(alloc, pattern, mode, &mut reader, &mut writer)?;
    Ok(writer.into_inner())
}

/// The places of a pattern from which an attempt may begin, with a space between each two.
pub(crate) fn starts(row: &Row, answer: &mut Answer) -> Result<()> {
    let (mode, pattern) = (row.mode(0), row.bytes(1));
    let mut text = String::new(answer.alloc);
    for place in 0..=pattern.len() {
        if is_start(pattern, place, mode) {
            push_number(answer.alloc, &mut text, place)?;
        }
    }
    Ok(answer.push(text.into_bytes())?)
}

/// What an attempt answers from a place of a pattern and one of a value, at a depth.
pub(crate) fn attempts(row: &Row, answer: &mut Answer) -> Result<()> {
    let (mode, pattern, value) = (row.mode(0), row.bytes(1), row.bytes(3));
    let (Some(place), Some(at), Some(depth)) = (row.number(2), row.number(4), row.number(5)) else {
        bail!("no places");
    };
    if !is_start(pattern, place, mode) || at > value.len() || depth > 64 {
        bail!("no place where an attempt may begin");
    }
    let found = attempt(pattern, place, value, at, mode, depth);
    let text = format!(in answer.alloc; "{found:?}")?;
    Ok(answer.push(text.into_bytes())?)
}
