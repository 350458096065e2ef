//! Asks the libraries what rows of data ask, and tells each row whose answer is another one.
#![tactic(auto)]

mod answer;
mod attributes;
mod config;
mod index;
mod lines;
mod lists;
mod matching;
mod others;
mod pathspec_lists;
mod patterns;
mod row;

use crate::answer::Answer;
use crate::row::{Field, Row};
use anyhow::{Context, Result, bail};
use glob_lines::{GitIgnoreLines, IgnoreLines, next_git_line, next_ignore_line};
use std::alloc::{AllocError, Global};
use std::fs;
use std::process::ExitCode;
use std::rt::Files;

/// The subjects of the rows that are asked, each of which has a file.
const SUBJECTS: &[&str] = &[
    "matching",
    "starts",
    "attempts",
    "reading",
    "wildcards",
    "parts",
    "shown",
    "values",
    "basenames",
    "repository_paths",
    "git_reading",
    "git_paths",
    "file_parts",
    "bases",
    "stripping",
    "ignore_files",
    "ignore_lines",
    "git_files",
    "git_lines",
    "marks",
    "labels",
    "answered",
    "listed",
    "decided",
    "folders",
    "pathspecs",
    "pathspec_lists",
    "attribute_names",
    "attribute_folders",
    "attributes_kept",
    "names_read",
    "records",
    "index_files",
    "index_paths",
    "folded_paths",
    "safe_directories",
    "config_sources",
];

/// What the libraries answer to a row of a subject. (The proof of a long `match` costs more than those of its parts.)
fn ask(subject: &str, row: &Row, answer: &mut Answer) -> Result<()> {
    match subject {
        "matching" => matching::matching(row, answer),
        "starts" => matching::starts(row, answer),
        "attempts" => matching::attempts(row, answer),
        "answered" => matching::answered(row, answer),
        "reading" => patterns::reading(row, answer),
        "git_reading" => patterns::git_reading(row, answer),
        "wildcards" => patterns::wildcards(row, answer),
        "parts" => patterns::parts(row, answer),
        "shown" => patterns::shown_line(row, answer),
        "values" => patterns::values(row, answer),
        "basenames" => patterns::basenames(row, answer),
        "repository_paths" => patterns::repository_paths(row, answer),
        "git_paths" => patterns::git_paths(row, answer),
        _ => ask_lists(subject, row, answer),
    }
}

/// The same of lines, lists and what follows.
fn ask_lists(subject: &str, row: &Row, answer: &mut Answer) -> Result<()> {
    match subject {
        "file_parts" => lists::file_parts(row, answer),
        "bases" => lists::bases(row, answer),
        "stripping" => lists::stripping(row, answer),
        "listed" => lists::listed(row, answer),
        "decided" => lists::decided(row, answer),
        "folders" => lists::folders(row, answer),
        "ignore_files" => lines::files(row, &IgnoreLines, answer),
        "git_files" => lines::files(row, &GitIgnoreLines, answer),
        "ignore_lines" => lines::line(next_ignore_line(row.bytes(0)), answer),
        "git_lines" => lines::line(next_git_line(row.bytes(0)), answer),
        "marks" => lines::marks(row, answer),
        "labels" => lines::labels(row, answer),
        _ => ask_files(subject, row, answer),
    }
}

/// The same of attributes, records, the index and configuration.
fn ask_files(subject: &str, row: &Row, answer: &mut Answer) -> Result<()> {
    match subject {
        "pathspecs" => others::spelt_words(row, answer),
        "pathspec_lists" => pathspec_lists::pathspec_lists(row, answer),
        "attribute_names" => attributes::attribute_names(row, answer),
        "attribute_folders" => attributes::attribute_folders(row, answer),
        "attributes_kept" => attributes::attributes_kept(row, answer),
        "names_read" => attributes::names_read(row, answer),
        "records" => others::records(row, answer),
        "index_files" => index::index_files(row, answer),
        "index_paths" => index::index_paths(row, answer),
        "folded_paths" => index::folded_paths(row, answer),
        "safe_directories" => others::safe_directories(row, answer),
        "config_sources" => config::config_sources(row, answer),
        _ => bail!("no subject"),
    }
}

/// Asks all rows. The status is 1 where an answer is another one.
fn main(rt: HostRuntime) -> Result<ExitCode> {
    let mut wrong = 0usize;
    for subject in SUBJECTS {
        wrong = wrong.saturating_add(ask_file(&rt, subject)?);
    }
    Ok(if wrong == 0 {
        ExitCode::SUCCESS
    } else {
        ExitCode::FAILURE
    })
}

/// Asks the rows of a file, and tells how many they are and how many of them have another answer. It answers the second number.
fn ask_file<R: Files + Print + AllocGlobal>(rt: &R, subject: &str) -> Result<usize> {
    let name = format!(in rt.alloc(); "{subject}.tsv")?;
    let bytes = fs::read(rt, name.as_str())?;
    let (mut rows, mut wrong) = (0usize, 0usize);
    for (place, line) in bytes.split(|byte| *byte == b'\n').enumerate() {
        if line.is_empty() || line.starts_with(b"#") {
            continue;
        }
        rows = rows.saturating_add(1);
        if !is_right(rt, subject, line, place.saturating_add(1))? {
            wrong = wrong.saturating_add(1);
        }
    }
    println!(rt; "{subject}: {rows} rows, {wrong} wrong")?;
    Ok(wrong)
}

/// Whether the answer of a row is the one that the libraries give. If not, the row is told by its line.
fn is_right<R: Print + AllocGlobal>(
    rt: &R,
    subject: &str,
    line: &[u8],
    number: usize,
) -> Result<bool> {
    let row = Row::of_line(rt.alloc(), line)?;
    let mut answer = Answer::none(rt.alloc());
    if let Err(fault) = ask(subject, &row, &mut answer) {
        bail!("{subject}.tsv:{number}: {fault}");
    }
    if row.ends_with(answer.fields()) {
        return Ok(true);
    }
    let given = text_of(rt.alloc(), answer.fields())?;
    println!(rt; "{subject}.tsv:{number}: answered{given}")?;
    Ok(false)
}

/// What is shown of an answer.
fn text_of(alloc: Global, answer: &[Field]) -> Result<String, AllocError> {
    let mut text = String::new(alloc);
    for field in answer {
        text.push('\t')?;
        let bytes = field.as_deref().unwrap_or(b"\\N");
        text.push_str(String::from_utf8_lossy(alloc, bytes)?.as_str())?;
    }
    Ok(text)
}
