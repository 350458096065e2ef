//! Each public item as a caller writes it: its name, the types and the order of its arguments, its answer and its traits. What it answers
//! is proved and asked elsewhere; where one of these forms changes, this no longer compiles.
use crate::Whole;
use bitflags::Flags;
use gix_glob::pattern::{self, Case};
use gix_glob::search::pattern::{List, Mapping, strip_base_handle_recompute_basename_pos};
use gix_glob::search::{self, LoadFault, Pattern as _, Watched, add_patterns_file, has_file_part};
use gix_glob::wildmatch::{self, Answer};
use gix_glob::{Pattern, basename_start, parse};
use glob_lines::{
    EngineFault, IgnoreLines, LabelLines, PlainLines, bases_are_folders, decide, plain_path,
    run_ignore, run_list, run_wild,
};
use std::alloc::AllocError;
use std::error::Error;
use std::fmt::{Debug, Display};
use std::hash::Hash;
use std::io::{self, Read, Write};
use std::test::Fail;

/// The functions from here on are called with each type that has to have their traits.
fn is_flag_set<T: Flags + Debug + PartialEq + Eq + Copy + Clone>() {}

fn has_default<T: Copy + Clone + Default>() {}

fn is_answer<T: Debug + PartialEq + Eq>() {}

fn is_compared<T: Debug + PartialEq + Eq + PartialOrd + Ord + Hash>() {}

fn is_parser<T: Clone + Default + Drop>() {}

fn is_value<T: Clone + Drop>() {}

fn is_fault<T: Error + Debug + Display>() {}

/// What a parser and its values are known by.
fn has_parents<T: search::Pattern>() {
    is_compared::<T>();
    is_parser::<T>();
    is_compared::<T::Value>();
    is_value::<T::Value>();
}

#[test]
fn traits() {
    is_flag_set::<wildmatch::Mode>();
    is_flag_set::<pattern::Mode>();
    has_default::<wildmatch::Mode>();
    has_default::<Case>();
    is_answer::<Answer>();
    is_compared::<pattern::Mode>();
    is_compared::<Case>();
    is_compared::<Pattern>();
    is_compared::<Mapping<Vec<u8>>>();
    is_compared::<List<LabelLines>>();
    is_fault::<LoadFault>();
    is_fault::<EngineFault>();
    has_parents::<PlainLines>();
    has_parents::<IgnoreLines>();
    has_parents::<LabelLines>();
}

#[test]
fn modes(rt: HostRuntime) {
    let (slash, case) = (
        wildmatch::Mode::NO_MATCH_SLASH_LITERAL,
        wildmatch::Mode::IGNORE_CASE,
    );
    let bits: [u8; 3] = [slash.bits(), case.bits(), slash.union(case).bits()];
    assert!(rt; bits == [1, 2, 3] && !slash.contains(case));
    assert!(rt; wildmatch::Mode::empty() == wildmatch::Mode::default());
    assert!(rt; wildmatch::Mode::from_bits_retain(255u8).bits() == 255);
    let bits: [u32; 5] = [
        pattern::Mode::NO_SUB_DIR.bits(),
        pattern::Mode::ENDS_WITH.bits(),
        pattern::Mode::MUST_BE_DIR.bits(),
        pattern::Mode::NEGATIVE.bits(),
        pattern::Mode::ABSOLUTE.bits(),
    ];
    assert!(rt; bits == [1, 2, 4, 8, 16]);
    let whole = pattern::Mode::from_bits_retain(255u32).union(pattern::Mode::empty());
    assert!(rt; whole.contains(pattern::Mode::NEGATIVE));
    assert!(rt; Case::default() == Case::Sensitive && Case::Sensitive < Case::Fold);
}

#[test]
fn matching(rt: HostRuntime) {
    let (pattern, value): (&[u8], &[u8]) = (b"*b", b"ab");
    let mode: wildmatch::Mode = wildmatch::Mode::empty();
    let matched: bool = wildmatch::wildmatch(pattern, value, mode);
    let found: bool = wildmatch::recursive(pattern, value, mode);
    assert!(rt; matched && found);
    let (from, at, depth): (usize, usize, usize) = (1, 1, 0);
    let is_start: bool = wildmatch::is_start(pattern, from, mode);
    assert!(rt; is_start);
    let answer: Answer = wildmatch::attempt(pattern, from, value, at, mode, depth);
    assert!(rt; answer == Answer::Match);
    let others = [
        Answer::NoMatch,
        Answer::AbortAll,
        Answer::AbortToStarStar,
        Answer::RecursionLimitReached,
    ];
    assert!(rt; !others.contains(&answer));
}

#[test]
fn patterns(rt: HostRuntime) -> Result<(), Fail> {
    let (alloc, text): (_, &[u8]) = (rt.alloc(), b"/a/*b");
    let mode = wildmatch::Mode::NO_MATCH_SLASH_LITERAL;
    let read: Result<Option<Pattern>, AllocError> = parse::parse(alloc, text);
    let pattern: Pattern = read?.ok_or("no pattern")?;
    let pat: Option<(&[u8], pattern::Mode, Option<usize>)> = parse::pattern(text, true);
    let parts = (pattern.text(), pattern.mode(), pattern.first_wildcard_pos());
    assert!(rt; pat == Some(parts));
    let read: Result<Option<Pattern>, AllocError> = Pattern::from_bytes(alloc, text);
    assert!(rt; read?.ok_or("no pattern")? == pattern);
    let read = Pattern::from_bytes_without_negation(alloc, text);
    let copy: Result<Pattern, AllocError> = pattern.clone();
    assert!(rt; read?.ok_or("no pattern")? == copy?);
    let flags: (bool, bool) = (pattern.is_negative(), pattern.has_wildcard());
    assert!(rt; flags == (false, true) && pattern.matches(b"a/b", mode));
    let (path, is_dir): (&[u8], Option<bool>) = (b"a/b", Some(false));
    let start: Option<usize> = basename_start(path);
    let matched: bool = pattern.matches_repo_relative_path(path, start, is_dir, Case::Fold, mode);
    assert!(rt; matched);
    let (text, mode, place): (Vec<u8>, pattern::Mode, Option<usize>) = pattern.into_parts();
    let made: Result<Pattern, Vec<u8>> = Pattern::from_parts(text, mode, place);
    let shown = format!(in alloc; "{}", made.map_err(|_| "no pattern")?)?;
    assert!(rt; shown.as_str() == "/a/*b");
    Ok(())
}

#[test]
fn lists(rt: HostRuntime) -> Result<(), Fail> {
    let (alloc, bytes): (_, &[u8]) = (rt.alloc(), b"\n*.rs");
    let (name, root): (&str, Option<&str>) = ("d/ig", Some(""));
    let has_part: bool = has_file_part(name);
    assert!(rt; has_part);
    let empty: List<IgnoreLines> = List::empty(alloc);
    let source_file = String::from_str(alloc, name)?;
    let read: Result<List<IgnoreLines>, AllocError> = List::from_bytes(
        alloc,
        bytes,
        source_file,
        root,
        IgnoreLines,
    );
    let list = read?;
    let copy: Result<List<IgnoreLines>, AllocError> = list.clone();
    assert!(rt; copy? == list && empty != list);
    let read = PlainLines.bytes_to_patterns(alloc, bytes, name);
    let mappings: Vec<Mapping<()>> = read?;
    let mapping: &Mapping<()> = mappings.first().ok_or("no mapping")?;
    let copy: Result<Mapping<()>, AllocError> = mapping.clone();
    let Mapping {
        pattern,
        value: (),
        sequence_number,
    } = copy?;
    let number: usize = sequence_number;
    assert!(rt; number == 2 && pattern.text() == b"*.rs".as_slice());
    let List {
        patterns,
        source,
        base,
    } = list;
    let fields: (Vec<Mapping<()>>, Option<String>, Option<Vec<u8>>) = (patterns, source, base);
    assert!(rt; fields.0 == mappings && fields.1.is_some() && fields.2.is_some());
    Ok(())
}

#[test]
fn files(rt: HostRuntime) -> Result<(), Fail> {
    let (alloc, bytes): (_, &[u8]) = (rt.alloc(), b"*.rs");
    let (name, root): (&str, Option<&str>) = ("/dev/null", None);
    let mut buf: Vec<u8> = Vec::new(alloc);
    let source = String::from_str(alloc, name)?;
    let mut reader = Watched::new(bytes);
    let read: Result<Option<List<Whole>>, LoadFault> = List::from_reader(
        alloc,
        &mut reader,
        source,
        root,
        &mut buf,
        Whole,
    );
    assert!(rt; read?.is_some() && buf.as_slice() == bytes);
    let source = String::from_str(alloc, name)?;
    let read: Result<Option<List<Whole>>, LoadFault> = List::from_file(
        &rt, alloc, source, root, &mut buf, Whole,
    );
    assert!(rt; read?.is_some() && buf.is_empty());
    let mut patterns: Vec<List<Whole>> = Vec::new(alloc);
    let source = String::from_str(alloc, name)?;
    let is_added: Result<bool, LoadFault> = add_patterns_file::<Whole, _>(
        &rt,
        alloc,
        &mut patterns,
        source,
        root,
        &mut buf,
        Whole,
    );
    assert!(rt; is_added? && patterns.len() == 1);
    let fault = LoadFault::Read(io::Error::other("gone"));
    assert!(rt;
        matches!(fault, LoadFault::Read(_)) && matches!(LoadFault::Memory, LoadFault::Memory)
    );
    Ok(())
}

#[test]
fn stripping(rt: HostRuntime) -> Result<(), Fail> {
    let (base, relative_path): (&[u8], &[u8]) = (b"a/", b"a/b/c");
    let basename_pos: Option<usize> = Some(4);
    let left: Option<(&[u8], Option<usize>)> = strip_base_handle_recompute_basename_pos(
        base,
        relative_path,
        basename_pos,
        Case::Sensitive,
    );
    assert!(rt; left == Some((b"b/c".as_slice(), Some(2))));
    let list: List<IgnoreLines> = List::empty(rt.alloc());
    let left: Option<(&[u8], Option<usize>)> = list.strip_base_handle_recompute_basename_pos(
        relative_path,
        basename_pos,
        Case::Fold,
    );
    assert!(rt; left == Some((relative_path, basename_pos)));
    Ok(())
}

#[test]
fn watched(rt: HostRuntime) -> Result<(), Fail> {
    let mut reader: Watched<&[u8]> = Watched::new(b"a".as_slice());
    let mut writer: Watched<Vec<u8>> = Watched::new(Vec::new(rt.alloc()));
    let mut piece = [0u8; 2];
    let (read, written) = (reader.read(&mut piece)?, writer.write(b"a")?);
    let failed: bool = reader.failed();
    assert!(rt; read == 1 && written == 1 && !failed);
    let text: Vec<u8> = writer.into_inner();
    assert!(rt; text.as_slice() == b"a".as_slice());
    Ok(())
}

#[test]
fn lines(rt: HostRuntime) -> Result<(), Fail> {
    let alloc = rt.alloc();
    let mode = wildmatch::Mode::NO_MATCH_SLASH_LITERAL;
    let mut writer = Watched::new(Vec::new(alloc));
    let mut reader = Watched::new(b"a\n".as_slice());
    let run: Result<(), EngineFault> = run_wild(alloc, b"?", mode, &mut reader, &mut writer);
    assert!(rt; run.is_ok() && writer.into_inner().as_slice() == b"yes\n".as_slice());
    let (source, root): (&str, Option<&str>) = ("d/ig", Some(""));
    let mut writer = Watched::new(Vec::new(alloc));
    let (mut patterns, mut paths) = (
        Watched::new(b"x\n".as_slice()),
        Watched::new(b"d/x\n".as_slice()),
    );
    let run: Result<(), EngineFault> = run_list(
        alloc,
        &mut patterns,
        source,
        root,
        Case::Fold,
        &mut paths,
        &mut writer,
    );
    assert!(rt; run.is_ok() && writer.into_inner().as_slice() == b"1\n".as_slice());
    let numbers = [
        EngineFault::Memory as u8,
        EngineFault::Read as u8,
        EngineFault::Write as u8,
    ];
    assert!(rt; numbers == [1, 2, 3]);
    Ok(())
}

#[test]
fn decisions(rt: HostRuntime) -> Result<(), Fail> {
    let (alloc, path): (_, &[u8]) = (rt.alloc(), b"d/x.o");
    let source = String::from_str(alloc, ".gitignore")?;
    let list = List::from_bytes(alloc, b"*.o\n", source, None, IgnoreLines)?;
    let lists: [List<IgnoreLines>; 1] = [list];
    let (is_plain, are_folders): (bool, bool) = (plain_path(path), bases_are_folders(&lists));
    assert!(rt; is_plain);
    assert!(rt; are_folders);
    let pair: Option<(usize, usize)> = decide(&lists, path, false, Case::Sensitive);
    assert!(rt; pair == Some((0, 0)));
    let (mut paths, mut writer) = (
        Watched::new(b"x.o\n".as_slice()),
        Watched::new(Vec::new(alloc)),
    );
    let run: Result<(), EngineFault> = run_ignore(
        alloc,
        &lists,
        Case::Sensitive,
        &mut paths,
        &mut writer,
    );
    assert!(rt; run.is_ok() && writer.into_inner().as_slice() == b"ignored 1:1\n".as_slice());
    Ok(())
}
