//! Rows of patterns: what is read of lines, how it is shown, and what it matches.
ghost use Rattle.std.specs.Prelude.{◌↔◌, IfOk, IsTrue};
ghost use Rattle.std.specs.Option.{ForSome};
ghost use Rattle.gix_glob.specs.Bytes.{HasByte, slash};
ghost use Rattle.gix_glob.specs.RepositoryPaths.{IsAfterLastSlash};

use crate::answer::Answer;
use crate::row::Row;
use anyhow::{Result, bail};
use bitflags::Flags;
use gix_glob::parse;
use gix_glob::pattern::{Mode, Pattern, PatternView, basename_start};
use std::alloc::{AllocError, Global};

/// What is read of a line, or of a text in which a sign at the front has no meaning.
pub(crate) fn reading(row: &Row, answer: &mut Answer) -> Result<()> {
    let (line, is_line) = (row.bytes(1), row.is(0, b"line"));
    let read = parse::pattern(line, is_line);
    let is_same = match (read, &pattern_read(answer.alloc, line, is_line)?) {
        (None, None) => true,
        (Some(read), Some(pattern)) => is_reading(pattern.view(), read),
        _ => false,
    };
    if !is_same {
        bail!("both readings differ");
    }
    Ok(put_reading(read, answer)?)
}

/// The pattern of a line or of a text.
fn pattern_read(alloc: Global, line: &[u8], is_line: bool) -> Result<Option<Pattern>, AllocError> {
    if is_line {
        parse::parse(alloc, line)
    } else {
        Pattern::from_bytes_without_negation(alloc, line)
    }
}

/// The text of a pattern, its bits, and the place of its first special byte.
type Reading<'a> = (&'a [u8], Mode, Option<usize>);

/// Whether a pattern is of a reading.
fn is_reading(view: PatternView<'_>, (text, mode, wildcard): Reading<'_>) -> bool {
    view.text == text && view.mode == mode && view.first_wildcard_pos == wildcard
}

/// The fields of a reading, or of none.
fn put_reading(read: Option<Reading<'_>>, answer: &mut Answer) -> Result<(), AllocError> {
    let Some((text, mode, wildcard)) = read else {
        answer.skip()?;
        answer.skip()?;
        return answer.skip();
    };
    answer.copy(text)?;
    answer.show(&mode.bits())?;
    answer.number(wildcard)
}

/// What is read of a line as Git reads it.
pub(crate) fn git_reading(row: &Row, answer: &mut Answer) -> Result<()> {
    let line = row.bytes(0);
    let read = parse::git_pattern(line);
    let is_same = is_reading(Pattern::from_git_line(answer.alloc, line)?.view(), read);
    if !is_same || !is_reading(PatternView::from_git_line(line), read) {
        bail!("both readings differ");
    }
    Ok(put_reading(Some(read), answer)?)
}

/// The pattern of a line.
fn pattern_of(alloc: Global, line: &[u8]) -> Result<Pattern> {
    match Pattern::from_bytes(alloc, line)? {
        Some(pattern) => Ok(pattern),
        None => bail!("a line without a pattern"),
    }
}

/// Whether the pattern of a line has a wildcard, and where its first special byte stands.
pub(crate) fn wildcards(row: &Row, answer: &mut Answer) -> Result<()> {
    let pattern = pattern_of(answer.alloc, row.bytes(0))?;
    answer.tell(pattern.has_wildcard())?;
    Ok(answer.number(pattern.first_wildcard_pos())?)
}

/// Whether parts make a pattern.
pub(crate) fn parts(row: &Row, answer: &mut Answer) -> Result<()> {
    let mode = Mode::from_bits_retain(row.text(1).unwrap_or("").parse::<u32>()?);
    let text = Vec::from_slice(answer.alloc, row.bytes(0))?;
    let is_one = Pattern::from_parts(text, mode, row.number(2)).is_ok();
    Ok(answer.tell(is_one)?)
}

/// How the pattern of a line is shown.
pub(crate) fn shown_line(row: &Row, answer: &mut Answer) -> Result<()> {
    let pattern = pattern_of(answer.alloc, row.bytes(0))?;
    Ok(answer.show(&pattern)?)
}

/// Whether the pattern of a line matches a value. Its view has to agree.
pub(crate) fn values(row: &Row, answer: &mut Answer) -> Result<()> {
    let (mode, line, value) = (row.mode(0), row.bytes(1), row.bytes(2));
    let is_matched = pattern_of(answer.alloc, line)?.matches(value, mode);
    match PatternView::from_bytes(line) {
        Some(view) if view.matches(value, mode) == is_matched => {}
        _ => bail!("the pattern and its view differ"),
    }
    Ok(answer.tell(is_matched)?)
}

/// Where the last part of a path begins.
pub(crate) fn basenames(row: &Row, answer: &mut Answer) -> Result<()> {
    Ok(answer.number(basename_start(row.bytes(0)))?)
}

/// Whether a path has no leading slash.
fn is_relative(path: &[u8]) -> bool
    ensures { IsTrue result ↔ ¬ HasByte path.now 0 slash }
{
    !path.starts_with(b"/")
}

/// Where the last part of a path begins, by a field that tells it where it is told.
fn told_start(path: &[u8], told: Option<usize>) -> Result<Option<usize>>
    ensures { IfOk result (λ start. ForSome start (IsAfterLastSlash path.now)) }
{
    if told.is_none() {
        return Ok(None);
    }
    let found = basename_start(path);
    if found != told {
        bail!("the last part begins elsewhere");
    }
    Ok(found)
}

/// Whether a path is a folder's, where that is known.
fn kind(row: &Row, place: usize) -> Option<bool> {
    match row.bytes(place) {
        b"file" => Some(false),
        b"folder" => Some(true),
        _ => None,
    }
}

/// Whether the pattern of a line matches the path of a repository.
pub(crate) fn repository_paths(row: &Row, answer: &mut Answer) -> Result<()> {
    let path = row.bytes(3);
    if !is_relative(path) {
        bail!("a path with a slash in front");
    }
    let start = told_start(path, row.number(4))?;
    let pattern = pattern_of(answer.alloc, row.bytes(2))?;
    let is_matched = pattern.matches_repo_relative_path(
        path,
        start,
        kind(row, 5),
        row.case(),
        row.mode(1),
    );
    Ok(answer.tell(is_matched)?)
}

/// Whether the pattern of a line matches a path, as Git reads it.
pub(crate) fn git_paths(row: &Row, answer: &mut Answer) -> Result<()> {
    let path = row.bytes(2);
    let start = told_start(path, row.number(3))?;
    let pattern = Pattern::from_git_line(answer.alloc, row.bytes(1))?;
    let is_matched = pattern.matches_path_as_git(path, start, kind(row, 4), row.case());
    Ok(answer.tell(is_matched)?)
}
