//! What the program answers to its words: the status, the output and what is told.

use super::{run_words, without_words};
use byte_streams::Watched;
use std::alloc::{AllocError, Global};
use std::fs;
use std::io::ErrorKind;
use std::process::Abort;
use std::rt::Files;
use std::test::Fail;

/// Words, the lines of the input, and the lines that answer them.
type Row = (&'static [&'static str], &'static str, &'static str);

const USAGE: &str = "usage: globline wild plain|fold|path|path-fold PATTERN
       globline list sensitive|fold FILE ROOT
       globline ignore sensitive|fold ROOT FILE..
";

const WRONG_WORDS: [&[&str]; 37] = [
    // another count
    &[],
    &["wild"],
    &["wild", "plain"],
    &["wild", "plain", "a", "b"],
    &["list"],
    &["list", "sensitive", "f"],
    &["list", "sensitive", "f", "-", "-"],
    &["ignore"],
    &["ignore", "sensitive", "-"],
    // another command
    &[""],
    &["", "", ""],
    &["a"],
    &["wlid", "plain", "a"],
    &["Wild", "plain", "a"],
    &["plain", "wild", "a"],
    &["Ignore", "sensitive", "-", "f"],
    // another MODE or CASE
    &["wild", "", "a"],
    &["wild", "Plain", "a"],
    &["wild", "sensitive", "a"],
    &["list", "upper", "f", "-"],
    &["list", "path", "f", "-"],
    &["ignore", "upper", "-", "f"],
    // a FILE without a file part
    &["list", "sensitive", "", "-"],
    &["list", "sensitive", "/", "-"],
    &["list", "sensitive", "//", ""],
    &["ignore", "sensitive", "-", "/"],
    &["ignore", "sensitive", "-", "f", "//"],
    // options
    &["--help"],
    &["-h"],
    &["--version"],
    &["--help", "wild"],
    &["wild", "--help"],
    &["wild", "-h"],
    &["list", "--help"],
    &["list", "-h"],
    &["ignore", "--help"],
    &["ignore", "-h"],
];

const FILES: [(&str, &str); 3] = [
    ("rows/first", "x\n*.o\n"),
    ("rows/second", "#\n!keep.o \r\n"),
    ("rows/third", "*.rs\n\nsrc/\n"),
];

const PATHS: &str = "x\nA.O\nd/keep.o\n/x\na\n";

const ANSWERED: [Row; 19] = [
    (&["wild", "plain", "a?"], "", ""),
    (&["wild", "plain", "*.RS"], "lib.rs\na/b.RS\n", "no\nyes\n"),
    (&["wild", "path", "*.RS"], "lib.RS\na/b.RS\n", "yes\nno\n"),
    (&["wild", "fold", "*.RS"], "lib.rs\na/b.rs\n", "yes\nyes\n"),
    (
        &["wild", "path-fold", "*.RS"],
        "lib.rs\na/b.rs\n",
        "yes\nno\n",
    ),
    // a pattern may be an option's name
    (&["wild", "plain", "--help"], "a\n--help\n", "no\nyes\n"),
    (
        &["list", "sensitive", "rows/third", "-"],
        "src/lib.rs\nsrc/\na//b\nx\nsrc\n",
        "1\n3\n!\n\n\n",
    ),
    (
        &["list", "sensitive", "rows/third", "rows"],
        "SRC/\nLIB.RS\n",
        "\n\n",
    ),
    (
        &["list", "fold", "rows/third", "rows"],
        "SRC/\nLIB.RS\n",
        "3\n1\n",
    ),
    // ROOT is a folder above FILE, of which FILE says nothing
    (
        &["list", "sensitive", "rows/third", ""],
        "x.rs\nrows/x.rs\na//b\n",
        "\n1\n!\n",
    ),
    (
        &["ignore", "sensitive", "-", "rows/first"],
        PATHS,
        "ignored 1:1\nnone\nignored 1:2\n!\nnone\n",
    ),
    // a FILE that is missing, or is a folder, has no number, and one that is named twice has two
    (
        &["ignore", "sensitive", "-", "rows/missing", "rows/first"],
        "x\n",
        "ignored 1:1\n",
    ),
    (
        &["ignore", "sensitive", "-", "rows/missing"],
        PATHS,
        "none\nnone\nnone\n!\nnone\n",
    ),
    (
        &[
            "ignore",
            "fold",
            "-",
            "rows/second",
            "rows",
            "rows/first/below",
            "rows/first",
        ],
        PATHS,
        "ignored 2:1\nignored 2:2\nignored 2:2\n!\nnone\n",
    ),
    (
        &["ignore", "sensitive", "rows", "rows/first", "rows/second"],
        PATHS,
        "ignored 1:1\nnone\nkept 2:2\n!\nnone\n",
    ),
    (
        &["ignore", "sensitive", "", "rows/first"],
        PATHS,
        "none\nnone\nnone\n!\nnone\n",
    ),
    (
        &["ignore", "sensitive", "-", "rows/first", "rows/first"],
        PATHS,
        "ignored 2:1\nnone\nignored 2:2\n!\nnone\n",
    ),
    (
        &[
            "ignore",
            "sensitive",
            "-",
            "rows/first",
            "rows/second",
            "rows/first",
        ],
        PATHS,
        "ignored 3:1\nnone\nignored 3:2\n!\nnone\n",
    ),
    // FILEs past the eighth are read
    (
        &[
            "ignore",
            "sensitive",
            "-",
            "m",
            "m",
            "m",
            "m",
            "m",
            "m",
            "m",
            "m",
            "m",
            "rows/second",
            "rows/first",
        ],
        PATHS,
        "ignored 2:1\nnone\nignored 2:2\n!\nnone\n",
    ),
];

/// FILEs that can't be read.
const UNREAD: [&[&str]; 3] = [
    &["list", "sensitive", "rows/missing", "-"],
    &["list", "sensitive", "rows", "-"],
    &["list", "sensitive", "rows/first/below", "-"],
];

fn words_of(alloc: Global, words: &[&str]) -> Result<Vec<String>, AllocError> {
    let mut owned = Vec::new(alloc);
    for word in words {
        owned.push(String::from_str(alloc, word)?)?;
    }
    Ok(owned)
}

/// Compares the status, the output and the errors that these words come to.
fn check(
    rt: &(impl Abort + AllocGlobal + Files),
    words: &[&str],
    lines: &str,
    wanted: (u8, &str, &str),
) -> Result<(), AllocError> {
    let alloc = rt.alloc();
    let owned = words_of(alloc, words)?;
    let mut input = Watched::new(lines.as_bytes());
    let mut output = Watched::new(Vec::new(alloc));
    let mut errors = Vec::new(alloc);
    let status = run_words(rt, alloc, &owned, &mut input, &mut output, &mut errors);
    let output = output.into_inner();
    let (wanted_status, answer, told) = wanted;
    assert!(rt; status == wanted_status, "{owned:?}");
    assert!(rt; output.as_slice() == answer.as_bytes(), "{owned:?}");
    assert!(rt; errors.as_slice() == told.as_bytes(), "{owned:?}");
    Ok(())
}

#[test]
fn wrong_words_are_told_the_usage(rt: HostRuntime) -> Result<(), AllocError> {
    for words in WRONG_WORDS {
        check(&rt, words, "a\n", (2, "", USAGE))?;
    }
    Ok(())
}

#[test]
fn words_that_cannot_be_had_are_told(rt: HostRuntime) {
    for (refused, status, told) in [
        (ErrorKind::OutOfMemory, 1, "globline: no memory\n"),
        (ErrorKind::InvalidData, 2, USAGE),
    ] {
        let mut errors = Vec::new(rt.alloc());
        assert!(rt; without_words(refused, &mut errors) == status);
        assert!(rt; errors.as_slice() == told.as_bytes());
    }
}

/// The files lie in the folder that the tests run in.
#[test]
fn words_are_answered(rt: HostRuntime) -> Result<(), Fail> {
    fs::create_dir(&rt, "rows")?;
    for (file, lines) in FILES {
        fs::write(&rt, file, lines)?;
    }
    for (words, lines, answer) in ANSWERED {
        check(&rt, words, lines, (0, answer, ""))?;
    }
    for words in UNREAD {
        check(&rt, words, "a\n", (1, "", "globline: read failed\n"))?;
    }
    fs::remove_dir_all(&rt, "rows")?;
    Ok(())
}
