//! Real files: long ones, linked ones, closed ones, and names that are no file.
use super::one_file::{OneFile, Opening};
use super::{add_list, list_of};
use crate::compare::same;
use crate::told::{count_of, same_words};
use gix_glob::search::pattern::List;
use glob_lines::LabelLines;
use std::alloc::{AllocError, Global};
use std::os::unix::fs::{PermissionsExt, symlink};
use std::process::Abort;
use std::rt::Files;
use std::test::Fail;
use std::{env, fs, process};

/// A name of this run's own in the folder for files that don't last.
pub(crate) fn path_of(rt: &HostRuntime, name: &str) -> Result<String, Fail> {
    let number = process::id(rt.process());
    let folder = env::temp_dir(rt)?;
    let folder = folder.as_str();
    Ok(format!(in rt.alloc(); "{folder}/faults-{name}-{number}")?)
}

/// The file system in which this name is that of the real one.
pub(crate) fn real<'a, F: Files>(rt: &'a F, name: &'a str) -> OneFile<'a, F> {
    OneFile::new(rt, name, Opening::Opens(name))
}

/// A list of this pattern.
fn list_with(alloc: Global, pattern: &[u8]) -> Result<List<LabelLines>, AllocError> {
    let source = String::from_str(alloc, "d/ig")?;
    List::from_bytes(alloc, pattern, source, None, LabelLines)
}

/// Two lists, each of a pattern.
fn two_lists(alloc: Global) -> Result<Vec<List<LabelLines>>, AllocError> {
    let mut lists = Vec::new(alloc);
    lists.push(list_with(alloc, b"a*")?)?;
    lists.push(list_with(alloc, b"!b")?)?;
    Ok(lists)
}

/// Whether the lists begin with those two, behind which there are none or empty ones.
fn are_kept(alloc: Global, lists: &[List<LabelLines>]) -> Result<bool, AllocError> {
    let (front, rest) = lists.split_at(lists.len().min(2));
    let are_empty = rest.iter().all(|list| list.patterns.is_empty());
    Ok(are_empty && front == two_lists(alloc)?.as_slice())
}

/// Compares what the file of this name comes to as a list of its own.
fn check_list<F: Abort + AllocGlobal + Files>(
    rt: &F,
    name: &str,
    words: &str,
    row: usize,
) -> Result<(), Fail> {
    let (answer, buf) = list_of(&real(rt, name), rt.alloc(), name)?;
    same(rt, buf.is_empty(), "no bytes are left", row);
    Ok(same_words(rt, count_of(answer), words, row)?)
}

/// Compares what it comes to behind two lists, which are left as they were.
fn check_added<F: Abort + AllocGlobal + Files>(
    rt: &F,
    name: &str,
    words: &str,
    row: usize,
) -> Result<(), Fail> {
    let mut lists = two_lists(rt.alloc())?;
    let (answer, buf) = add_list(&real(rt, name), rt.alloc(), &mut lists, name)?;
    same(rt, buf.is_empty(), "no bytes are left", row);
    let is_added = lists.len() == 3;
    same(rt, is_added == (words == "0 patterns"), "it is added", row);
    same(rt, are_kept(rt.alloc(), &lists)?, "the lists before", row);
    let told = answer.map(|is_added| is_added.then_some(0));
    Ok(same_words(rt, told, words, row)?)
}

/// Catches a call that always answers a fault, also for a file of no bytes, which is a list of no patterns.
#[test]
fn file_always_fails(rt: HostRuntime) -> Result<(), Fail> {
    let long = "a".repeat(rt.alloc(), 300)?;
    // a directory, a missing file, a path through what is no directory, an empty file, and a name that is refused
    let rows = [
        ("/", "none"),
        ("/no/such/patterns", "none"),
        ("/dev/null/x", "none"),
        ("/dev/null", "0 patterns"),
        (
            long.as_str(),
            "reading patterns: File name too long (os error 36)",
        ),
    ];
    for (row, (name, words)) in rows.into_iter().enumerate() {
        check_list(&rt, name, words, row)?;
        check_added(&rt, name, words, row)?;
    }
    Ok(())
}

/// Whether the list of the file of this name has this text as its pattern, and the buffer has it as it was read.
fn is_read_whole<F: AllocGlobal + Files>(rt: &F, name: &str, text: &[u8]) -> Result<bool, Fail> {
    let (answer, buf) = list_of(&real(rt, name), rt.alloc(), name)?;
    let list = answer?.ok_or("no list")?;
    let mapping = list.patterns.first().ok_or("no mapping")?;
    Ok(mapping.pattern.text() == text && buf.as_slice() == text && list.base.is_none())
}

/// Catches a call that always answers that there is no file: a file, a link to it, and one of more than 64 KiB are read whole.
#[test]
fn files_and_links_are_read_whole(rt: HostRuntime) -> Result<(), Fail> {
    let path = path_of(&rt, "linked")?;
    let link = path_of(&rt, "link")?;
    symlink(&rt, path.as_str(), link.as_str())?;
    for (row, count) in [3, 70_003].into_iter().enumerate() {
        let text = "a".repeat(rt.alloc(), count)?;
        fs::write(&rt, path.as_str(), text.as_str())?;
        let by_name = is_read_whole(&rt, path.as_str(), text.as_bytes())?;
        let by_link = is_read_whole(&rt, link.as_str(), text.as_bytes())?;
        same(&rt, by_name && by_link, "the list", row);
    }
    fs::remove_file(&rt, link.as_str())?;
    fs::remove_file(&rt, path.as_str())?;
    Ok(())
}

#[test]
fn a_file_without_permission_is_no_missing_one(rt: HostRuntime) -> Result<(), Fail> {
    let path = path_of(&rt, "closed")?;
    fs::write(&rt, path.as_str(), "a\n")?;
    fs::set_permissions(&rt, path.as_str(), fs::Permissions::from_mode(0))?;
    // whoever may read every file may read this one
    let is_open = fs::open(&rt, path.as_str()).is_ok();
    let (answer, _) = list_of(&real(&rt, path.as_str()), rt.alloc(), path.as_str())?;
    fs::remove_file(&rt, path.as_str())?;
    let words = if is_open {
        "1 patterns"
    } else {
        "reading patterns: Permission denied (os error 13)"
    };
    Ok(same_words(&rt, count_of(answer), words, 0)?)
}

/// Of three lines the second has no pattern.
#[test]
fn lines_of_a_file_are_numbered(rt: HostRuntime) -> Result<(), Fail> {
    let path = path_of(&rt, "lines")?;
    fs::write(&rt, path.as_str(), "*.rs\n\nsrc/\n")?;
    let (answer, _) = list_of(&real(&rt, path.as_str()), rt.alloc(), path.as_str())?;
    fs::remove_file(&rt, path.as_str())?;
    let list = answer?.ok_or("no list")?;
    let [first, third] = list.patterns.as_slice() else {
        return Err("not two patterns")?;
    };
    let are_numbered = first.sequence_number == 1 && third.sequence_number == 3;
    same(&rt, are_numbered, "the numbers", 0);
    let are_read = first.pattern.text() == b"*.rs".as_slice()
        && third.pattern.text() == b"src".as_slice();
    same(&rt, are_read, "the texts", 0);
    Ok(())
}

#[test]
fn a_list_is_added_behind_many(rt: HostRuntime) -> Result<(), Fail> {
    let path = path_of(&rt, "many")?;
    fs::write(&rt, path.as_str(), "a\n\nb\n")?;
    let mut lists = Vec::new(rt.alloc());
    for count in 1..80 {
        let files = real(&rt, path.as_str());
        let (answer, _) = add_list(&files, rt.alloc(), &mut lists, path.as_str())?;
        let is_added = answer? && lists.len() == count;
        let patterns = lists.last().map_or(0, |added| added.patterns.len());
        same(&rt, is_added && patterns == 2, "a list is added", count);
    }
    fs::remove_file(&rt, path.as_str())?;
    Ok(())
}
