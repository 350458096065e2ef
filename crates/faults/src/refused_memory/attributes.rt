//! Tables of attribute files, which want memory for what their lines assign: what is left of a file that was refused some.
use gix_glob::pattern::Case;
use gix_glob::search::pattern::List;
use glob_attributes::{AttributeLines, AttributeNames, MacroTable, PathAttributes, State};
use glob_lists::{RepositoryPath, Rules, bases_are_folders};
use std::test::Fail;

const FILE: &[u8] = b"[attr]m a=1 -b\n\"x y\" m c\n!z d\n";

#[test]
fn a_table_answers_after_a_refusal(rt: HostRuntime) -> Result<(), Fail> {
    let mut macros = MacroTable::new(rt.alloc())?;
    let first = macros.add_file(rt.alloc(), FILE);
    let path = RepositoryPath::new(b"x", false).ok_or("a path")?;
    let lists: [List<AttributeLines>; 0] = [];
    assert!(rt; bases_are_folders(&lists));
    let attributes = PathAttributes::new(
        rt.alloc(),
        &lists,
        &macros,
        &path,
        Rules::by_crate(Case::Sensitive),
    )?;
    assert!(rt; attributes.state_of(b"a") == State::Unspecified);
    Ok(first?)
}

/// The names that are built in, one that is added, and those of the file behind it.
const NAMES: [&[u8]; 8] = [
    b"binary", b"diff", b"merge", b"text", b"m", b"a", b"b", b"c",
];

/// Whether the names are so many, the first ones of these.
fn are_first(names: &AttributeNames, count: usize) -> bool {
    let names = names.as_slice();
    names.len() == count
        && names
            .iter()
            .zip(NAMES)
            .all(|(name, wanted)| name.as_slice() == wanted)
}

#[test]
fn a_name_that_was_refused_is_added_anew(rt: HostRuntime) -> Result<(), Fail> {
    let mut names = AttributeNames::new(rt.alloc())?;
    let first = names.add_name(rt.alloc(), b"m");
    assert!(rt; are_first(&names, if first.is_ok() { 5 } else { 4 }));
    names.add_name(rt.alloc(), b"m")?;
    assert!(rt; are_first(&names, 5));
    Ok(first?)
}

#[test]
fn names_stay_where_some_are_refused(rt: HostRuntime) -> Result<(), Fail> {
    let mut names = AttributeNames::new(rt.alloc())?;
    let first = names.add_file(rt.alloc(), FILE, true);
    let count = names.as_slice().len();
    assert!(rt; are_first(&names, count) && count >= 4 && (first.is_err() || count == 8));
    names.add_file(rt.alloc(), FILE, true)?;
    assert!(rt; are_first(&names, 8));
    Ok(first?)
}
