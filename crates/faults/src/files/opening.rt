//! Opening a file: by which name it is done, and what each error of it comes to.
use super::one_file::{OneFile, Opening};
use super::{add_list, list_of};
use crate::compare::same;
use crate::told::{count_of, same_words};
use gix_glob::search::pattern::List;
use glob_lines::LabelLines;
use std::fs;
use std::io::ErrorKind;
use std::process::Abort;
use std::rt::Files;
use std::test::Fail;

/// Compares what an error of opening comes to with words: as a list of its own, of which no bytes are left.
fn check_list<F: Abort + AllocGlobal + Files>(
    rt: &F,
    kind: ErrorKind,
    words: &str,
    row: usize,
) -> Result<(), Fail> {
    let files = OneFile::new(rt, "d/ig", Opening::Fails(kind));
    let (answer, buf) = list_of(&files, rt.alloc(), "d/ig")?;
    same(rt, buf.is_empty(), "no bytes are left", row);
    Ok(same_words(rt, count_of(answer), words, row)?)
}

/// The same behind no list, which none is added to.
fn check_added<F: Abort + AllocGlobal + Files>(
    rt: &F,
    kind: ErrorKind,
    words: &str,
    row: usize,
) -> Result<(), Fail> {
    let files = OneFile::new(rt, "d/ig", Opening::Fails(kind));
    let mut lists = Vec::new(rt.alloc());
    let (answer, buf) = add_list(&files, rt.alloc(), &mut lists, "d/ig")?;
    let is_left = !lists.is_empty() || !buf.is_empty();
    same(rt, !is_left, "nothing is left", row);
    let added = answer.map(|is_added| is_added.then_some(0));
    Ok(same_words(rt, added, words, row)?)
}

/// What each error of opening comes to: want of memory is no failed read, and only what isn't there is no fault.
const ERRORS: &[(ErrorKind, &str)] = &[
    (ErrorKind::NotFound, "none"),
    (ErrorKind::IsADirectory, "none"),
    (ErrorKind::NotADirectory, "none"),
    (
        ErrorKind::OutOfMemory,
        "out of memory while loading patterns",
    ),
    (
        ErrorKind::PermissionDenied,
        "reading patterns: told at opening",
    ),
    (ErrorKind::Interrupted, "reading patterns: told at opening"),
    (ErrorKind::Other, "reading patterns: told at opening"),
];

#[test]
fn each_error_of_opening_is_told(rt: HostRuntime) -> Result<(), Fail> {
    for (row, (kind, words)) in ERRORS.iter().enumerate() {
        check_list(&rt, *kind, words, row)?;
        check_added(&rt, *kind, words, row)?;
    }
    Ok(())
}

#[test]
fn a_file_is_opened_by_its_source_alone(rt: HostRuntime) -> Result<(), Fail> {
    let path = super::real::path_of(&rt, "rooted")?;
    let source = String::from_str(rt.alloc(), "r/d/ig")?;
    let mut buf = Vec::new(rt.alloc());
    fs::write(&rt, path.as_str(), "*.rs")?;
    let files = OneFile::new(&rt, "r/d/ig", Opening::Opens(path.as_str()));
    let list = List::from_file(&files, rt.alloc(), source, Some("r"), &mut buf, LabelLines);
    fs::remove_file(&rt, path.as_str())?;
    let list = list?.ok_or("no list")?;
    let base = list.base.as_ref().map(|base| base.as_slice());
    let source = list.source.as_ref().map(|source| source.as_str());
    same(&rt, base == Some(b"d/".as_slice()), "the base", 0);
    same(&rt, source == Some("r/d/ig"), "the source", 0);
    Ok(())
}

/// Catches a call that answers want of memory for a file with a long name.
#[test]
fn files_with_long_names_are_read(rt: HostRuntime) -> Result<(), Fail> {
    let name = "a".repeat(rt.alloc(), 1_200_000)?;
    let name = name.as_str();
    let files = OneFile::new(&rt, name, Opening::Opens("/dev/null"));
    let (answer, _) = list_of(&files, rt.alloc(), name)?;
    let list = answer?.ok_or("no list")?;
    let source = list.source.as_ref().map(|source| source.as_str());
    same(&rt, source == Some(name), "the source", 0);
    let mut lists = Vec::new(rt.alloc());
    let (answer, _) = add_list(&files, rt.alloc(), &mut lists, name)?;
    let is_added = lists.pop().is_some_and(|added| added == list);
    same(&rt, answer? && is_added, "the list that is added", 0);
    Ok(())
}
