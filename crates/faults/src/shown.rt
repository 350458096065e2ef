//! What is shown of faults, and by `Debug`.
use crate::compare::same;
use bitflags::Flags;
use gix_glob::Pattern;
use gix_glob::pattern::{Case, Mode, PatternView};
use gix_glob::search::pattern::List;
use gix_glob::search::{LoadFault, Watched};
use gix_glob::wildmatch::{self, Answer};
use glob_lines::{EngineFault, GitIgnoreLines, IgnoreLines, LabelLines, PlainLines};
use std::io;
use std::test::Fail;

#[test]
fn texts_of_faults(rt: HostRuntime) -> Result<(), Fail> {
    let faults = (EngineFault::Memory, EngineFault::Read, EngineFault::Write);
    let (memory, read, write) = &faults;
    let shown = format!(in rt.alloc();
        "{memory}, {read}, {write}: {memory:?}, {read:?}, {write:?}"
    )?;
    let wanted = "no memory, read failed, write failed: Memory, Read, Write";
    same(&rt, shown.as_str() == wanted, "of engines", 0);
    let (memory, gone) = (LoadFault::Memory, LoadFault::Read(io::Error::other("gone")));
    let shown = format!(in rt.alloc(); "{memory}, {gone}: {memory:?}, {gone:?}")?;
    let wanted = "out of memory while loading patterns, reading patterns: gone: \
         Memory, Read(Custom { kind: Other, error: \"gone\" })";
    same(&rt, shown.as_str() == wanted, "of loading", 0);
    Ok(())
}

#[test]
fn texts_of_values(rt: HostRuntime) -> Result<(), Fail> {
    let modes = (
        wildmatch::Mode::from_bits_retain(3),
        Mode::from_bits_retain(31),
    );
    let (case, answer) = (Case::Fold, Answer::AbortToStarStar);
    let shown = format!(in rt.alloc(); "{modes:?} {case:?} {answer:?}")?;
    let wanted = "(Mode(3), Mode(31)) Fold AbortToStarStar";
    same(&rt, shown.as_str() == wanted, "of modes", 0);
    let parsers = (PlainLines, IgnoreLines, GitIgnoreLines, LabelLines);
    let watched = Watched::new(b"a".as_slice());
    let shown = format!(in rt.alloc(); "{parsers:?} {watched:?}")?;
    let wanted =
        "(PlainLines, IgnoreLines, GitIgnoreLines, LabelLines) Watched { inner: [97], failed: false }";
    same(&rt, shown.as_str() == wanted, "of parsers", 0);
    Ok(())
}

#[test]
fn texts_of_patterns_and_lists(rt: HostRuntime) -> Result<(), Fail> {
    let pattern = Pattern::from_bytes(rt.alloc(), b"!a*")?.ok_or("a pattern")?;
    let view = PatternView::from_bytes(b"/a").ok_or("a view")?;
    let shown = format!(in rt.alloc(); "{pattern:?} {view:?}")?;
    let wanted = "Pattern { text: [97, 42], mode: Mode(9), first_wildcard_pos: Some(1) } \
         PatternView { text: [97], mode: Mode(17), first_wildcard_pos: None }";
    same(&rt, shown.as_str() == wanted, "of patterns", 0);
    let source = String::from_str(rt.alloc(), "d/ig")?;
    let list = List::from_bytes(rt.alloc(), b"\na", source, Some(""), LabelLines)?;
    let shown = format!(in rt.alloc(); "{list:?}")?;
    let wanted =
        "List { patterns: [Mapping { pattern: Pattern { text: [97], mode: Mode(1), first_wildcard_pos: None }, \
         value: [], sequence_number: 2 }], source: Some(\"d/ig\"), base: Some([100, 47]) }";
    same(&rt, shown.as_str() == wanted, "of a list", 0);
    Ok(())
}
