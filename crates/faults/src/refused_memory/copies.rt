//! Copies of lists, which want memory for each pattern and each value.
use gix_glob::search::Pattern as _;
use gix_glob::search::pattern::List;
use glob_lines::LabelLines;
use std::alloc::AllocError;
use std::test::Fail;

/// A copy of a list of labels.
fn copy_of(list: &List<LabelLines>) -> Result<List<LabelLines>, AllocError> {
    list.clone()
}

#[test]
fn lists_are_copied(rt: HostRuntime) -> Result<(), Fail> {
    let mut lines = Vec::from_slice(rt.alloc(), b"*.rs\trust\n!x\n")?;
    // a long pattern and a long label: no contract says that there is memory for them
    lines.resize(1_200_000, b'a')?;
    lines.push(b'\t')?;
    lines.resize(2_400_000, b'b')?;
    let mut list = List::empty(rt.alloc());
    list.patterns = LabelLines.bytes_to_patterns(rt.alloc(), &lines, "labels")?;
    assert!(rt; list.patterns.len() == 3 && copy_of(&list)? == list);
    Ok(())
}
