//! Lists that are read from readers and from files.
use crate::fakes::Source;
use crate::files::real::{path_of, real};
use crate::{files, lists_from_readers};
use gix_glob::search::pattern::{List, Mapping};
use glob_lines::LabelLines;
use std::alloc::{AllocError, Global};
use std::fs;
use std::test::Fail;

const LINES: &[u8] = b"*.rs\n\n!src/\n";

/// Whether the mappings are those of the lines.
fn are_read(mappings: &[Mapping<Vec<u8>>]) -> bool {
    let [first, second] = mappings else {
        return false;
    };
    first.sequence_number == 1
        && first.pattern.text() == b"*.rs".as_slice()
        && second.sequence_number == 3
        && second.pattern.text() == b"src".as_slice()
        && second.pattern.is_negative()
}

#[test]
fn a_list_is_read(rt: HostRuntime) -> Result<(), Fail> {
    let source = Source::new(LINES, usize::MAX, usize::MAX);
    let (read, buf, _) = lists_from_readers::list_of(rt.alloc(), source)?;
    assert!(rt; LINES.starts_with(&buf));
    assert!(rt; read?.is_some_and(|list| are_read(&list.patterns)));
    Ok(())
}

#[test]
fn a_list_is_read_from_a_file(rt: HostRuntime) -> Result<(), Fail> {
    let path = path_of(&rt, "refused")?;
    fs::write(&rt, path.as_str(), LINES)?;
    let loaded = files::list_of(&real(&rt, path.as_str()), rt.alloc(), path.as_str());
    fs::remove_file(&rt, path.as_str())?;
    let (read, buf) = loaded?;
    assert!(rt; LINES.starts_with(&buf));
    assert!(rt; read?.is_some_and(|list| are_read(&list.patterns)));
    Ok(())
}

/// Two lists, with room for no third one.
fn two_lists(alloc: Global) -> Result<Vec<List<LabelLines>>, AllocError> {
    let mut lists = Vec::with_capacity(alloc, 2)?;
    let source = String::from_str(alloc, "d/ig")?;
    lists.push(List::from_bytes(alloc, LINES, source, Some(""), LabelLines)?)?;
    lists.push(List::empty(alloc))?;
    Ok(lists)
}

/// Whether the lists begin with those two.
fn are_kept(lists: &[List<LabelLines>]) -> bool {
    match lists {
        [first, second, ..] => {
            are_read(&first.patterns) && first.base.is_some() && second.patterns.is_empty()
        }
        _ => false,
    }
}

#[test]
fn a_refusal_leaves_two_lists(rt: HostRuntime) -> Result<(), Fail> {
    let mut lists = two_lists(rt.alloc())?;
    let path = path_of(&rt, "refused")?;
    fs::write(&rt, path.as_str(), LINES)?;
    let files = real(&rt, path.as_str());
    let loaded = files::add_list(&files, rt.alloc(), &mut lists, path.as_str());
    fs::remove_file(&rt, path.as_str())?;
    let (added, _) = loaded?;
    assert!(rt; are_kept(&lists) && (lists.len() == 3) == added.is_ok());
    assert!(rt; added?);
    Ok(())
}
