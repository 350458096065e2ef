//! Patterns, mappings and lists as values: taken apart, copied, empty, and ordered.
use crate::compare::same;
use crate::lists::list_of;
use bitflags::Flags;
use gix_glob::pattern::{Case, Pattern};
use gix_glob::search::pattern::{List, Mapping};
use glob_lines::LabelLines;
use std::alloc::{AllocError, Global};
use std::cmp::Ordering;
use std::test::Fail;

#[test]
fn values_are_taken_apart_and_copied(rt: HostRuntime) -> Result<(), Fail> {
    let alloc = rt.alloc();
    let negated = Pattern::from_bytes(alloc, b"!a/*.c")?.ok_or("a pattern")?;
    assert!(rt; negated.is_negative() && negated.clone()? == negated);
    let (text, mode, place) = negated.into_parts();
    assert!(rt; text.as_slice() == b"a/*.c".as_slice() && mode.bits() == 8 && place == Some(2));
    let back = Pattern::from_parts(text, mode, None)
        .err()
        .ok_or("no pattern")?;
    assert!(rt; back.as_slice() == b"a/*.c".as_slice());
    let list: List<LabelLines> = List::empty(alloc);
    assert!(rt; list.patterns.is_empty() && list.source.is_none() && list.base.is_none());
    let left = list.strip_base_handle_recompute_basename_pos(b"a", Some(0), Case::Sensitive);
    assert!(rt; left == Some((b"a".as_slice(), Some(0))));
    assert!(rt; list.clone()? == list);
    Ok(())
}

/// Whether the first of two values is the lesser, by all comparisons.
fn ascend<T: Ord>(first: &T, second: &T) -> bool {
    let is_less = first.cmp(second) == Ordering::Less && first != second;
    is_less && second.cmp(first) == Ordering::Greater && first.cmp(first) == Ordering::Equal
}

/// A pattern line, a value and a number.
type Line = (&'static str, &'static str, usize);

/// Such a mapping.
fn mapping(alloc: Global, (line, value, sequence_number): Line) -> Result<Mapping<Vec<u8>>, Fail> {
    let pattern = Pattern::from_bytes(alloc, line.as_bytes())?.ok_or("a pattern")?;
    Ok(Mapping {
        pattern,
        value: Vec::from_slice(alloc, value.as_bytes())?,
        sequence_number,
    })
}

/// The pattern lines of a list, its source and its base.
type Parts = (&'static str, Option<&'static str>, Option<&'static str>);

/// Such a list.
fn list(alloc: Global, (lines, source, base): Parts) -> Result<List<LabelLines>, AllocError> {
    let mut list = list_of(alloc, lines.as_bytes())?;
    list.source = match source {
        Some(text) => Some(String::from_str(alloc, text)?),
        None => None,
    };
    list.base = match base {
        Some(text) => Some(Vec::from_slice(alloc, text.as_bytes())?),
        None => None,
    };
    Ok(list)
}

/// Mappings of which each second one is greater: by pattern, value and number.
const MAPPINGS: &[(Line, Line)] = &[
    (("/", "b", 2), ("a", "a", 1)),
    (("a", "b", 2), ("b", "a", 1)),
    (("a", "b", 2), ("!a", "a", 1)),
    (("!a", "b", 2), ("/a", "a", 1)),
    (("a", "a", 1), ("a", "b", 0)),
    (("a", "a", 1), ("a", "a", 2)),
];

/// Lists of which each second one is greater: by mappings, source and base.
const LISTS: &[(Parts, Parts)] = &[
    (("", Some("b"), Some("b")), ("a", None, None)),
    (("a", Some("b"), None), ("a\nb", None, None)),
    (("a\nb", None, None), ("b", None, None)),
    (("a", None, Some("")), ("a", Some(""), None)),
    (("", None, Some("")), ("", Some(""), None)),
    (("", Some("a"), Some("")), ("", Some("b"), None)),
    (("", Some("a"), None), ("", Some("a"), Some(""))),
];

#[test]
fn mappings_ascend(rt: HostRuntime) -> Result<(), Fail> {
    for (row, (low, high)) in MAPPINGS.iter().enumerate() {
        let (first, second) = (mapping(rt.alloc(), *low)?, mapping(rt.alloc(), *high)?);
        same(&rt, ascend(&first, &second), "mappings", row);
    }
    Ok(())
}

#[test]
fn lists_ascend(rt: HostRuntime) -> Result<(), Fail> {
    for (row, (low, high)) in LISTS.iter().enumerate() {
        let (first, second) = (list(rt.alloc(), *low)?, list(rt.alloc(), *high)?);
        same(&rt, ascend(&first, &second), "lists", row);
    }
    Ok(())
}
