//! Lines and pairs of lines, and what is said of them.
use crate::{Line, Lint, are_apart, covers, guesses_at, matches_nothing, samples_of};
use gix_glob::pattern::Case;
use gix_glob::search::pattern::List;
use glob_lines::GitIgnoreLines;
use glob_lists::Rules;
use std::alloc::{AllocError, Global};
use std::test::Fail;

/// What is said of two lines.
#[derive(Clone, Copy, PartialEq, Eq, Debug)]
enum Said {
    Covered,
    Apart,
    Neither,
}

/// The list of one line.
fn list_of(alloc: Global, line: &str) -> Result<List<GitIgnoreLines>, AllocError> {
    List::from_bytes(
        alloc,
        line.as_bytes(),
        String::new(alloc),
        None,
        GitIgnoreLines,
    )
}

/// What is said of the first lines of two texts.
fn said_of(alloc: Global, left: &str, right: &str) -> Result<Option<Said>, AllocError> {
    let left = list_of(alloc, left)?;
    let right = list_of(alloc, right)?;
    if left.patterns.is_empty() || right.patterns.is_empty() {
        return Ok(None);
    }
    let rules = Rules::by_git(Case::Sensitive);
    let (left, right) = (Line::at(&left, 0), Line::at(&right, 0));
    if covers(&left, &right, rules) {
        return Ok(Some(Said::Covered));
    }
    if are_apart(&left, &right, rules) {
        return Ok(Some(Said::Apart));
    }
    Ok(Some(Said::Neither))
}

#[test]
fn pairs_of_lines(rt: HostRuntime) -> Result<(), Fail> {
    let alloc = rt.alloc();
    for (left, right) in [
        ("src/*.o", "*.o"),
        ("[568vq].out", "*.out"),
        ("a/*/b", "a/**/b"),
        ("**foo", "*foo"),
    ] {
        assert_eq!(rt;
            said_of(alloc, left, right)?,
            Some(Said::Covered),
            "{left} {right}"
        );
    }
    for (left, right) in [("*.o", "keep.c"), ("build*", "keep")] {
        assert_eq!(rt;
            said_of(alloc, left, right)?,
            Some(Said::Apart),
            "{left} {right}"
        );
    }
    for (left, right) in [("*.o", "src/*.o"), ("a", "a/"), ("a*", "a?")] {
        assert_eq!(rt;
            said_of(alloc, left, right)?,
            Some(Said::Neither),
            "{left} {right}"
        );
    }
    Ok(())
}

#[test]
fn lines_alone(rt: HostRuntime) -> Result<(), Fail> {
    let alloc = rt.alloc();
    let rules = Rules::by_git(Case::Fold);
    for (line, nothing, samples) in [
        ("./a", true, 0),
        ("[a-z", true, 0),
        ("a//b", true, 0),
        ("*.o", false, 6),
        ("a/", false, 2),
    ] {
        let list = list_of(alloc, line)?;
        if list.patterns.is_empty() {
            continue;
        }
        let line = Line::at(&list, 0);
        assert_eq!(rt; matches_nothing(&line, rules), nothing);
        assert_eq!(rt; samples_of(alloc, &line, rules)?.len(), samples);
    }
    Ok(())
}

/// A line, the one guess at it with its place and length, and the line that is told as advice.
type GuessRow = (&'static str, Option<(Lint, usize, usize)>, &'static str);

const GUESSES: [GuessRow; 26] = [
    ("*.o", None, ""),
    ("# \"a\"", None, ""),
    ("foo.txt ", None, ""),
    ("baz.txt\t", Some((Lint::TabAtEnd, 7, 1)), "baz.txt"),
    ("!a\t\t", Some((Lint::TabAtEnd, 2, 2)), "!a"),
    ("a\\\t", None, ""),
    ("\t", None, ""),
    (" a", Some((Lint::BlankInFront, 0, 1)), "a"),
    ("!  a", Some((Lint::BlankInFront, 1, 2)), "!a"),
    ("\\ a", None, ""),
    ("  # a", Some((Lint::BlankInFront, 0, 2)), "# a"),
    (
        "*.pyc # bytecode",
        Some((Lint::CommentBehind, 5, 11)),
        "*.pyc",
    ),
    ("!a \t#b", Some((Lint::CommentBehind, 2, 4)), "!a"),
    ("a\\ #b", None, ""),
    (".#*", None, ""),
    ("*.{o,a}", Some((Lint::Braces, 2, 5)), ""),
    ("{o}", None, ""),
    ("[{,}]", None, ""),
    ("\"a b\"", Some((Lint::Quotes, 0, 5)), "a b"),
    ("!'a'", Some((Lint::Quotes, 1, 3)), "!a"),
    ("'a", None, ""),
    (
        "build\\output",
        Some((Lint::Backslash, 5, 1)),
        "build/output",
    ),
    ("[\\a]\\[", None, ""),
    ("a\\b\\*", Some((Lint::Backslash, 1, 1)), ""),
    ("^build$", Some((Lint::Regex, 0, 1)), "/build"),
    ("!^a.*", Some((Lint::Regex, 1, 1)), ""),
];

#[test]
fn guesses(rt: HostRuntime) -> Result<(), Fail> {
    let alloc = rt.alloc();
    for (line, wanted, advice) in GUESSES {
        let told = guesses_at(alloc, line.as_bytes())?;
        let first = told.first();
        let place = first.map(|guess| (guess.lint, guess.from, guess.length));
        assert_eq!(rt; place, wanted, "{line}");
        let tried = match first.map(|guess| &guess.advice) {
            Some(Some(tried)) => tried.as_slice(),
            _ => b"",
        };
        assert_eq!(rt; tried, advice.as_bytes(), "{line}");
        assert!(rt; told.len() < 2, "{line}");
    }
    Ok(())
}
