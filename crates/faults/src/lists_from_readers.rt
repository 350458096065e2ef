//! Lists that are read from readers: which error is told, and what was read until then.
use crate::compare::same;
use crate::fakes::Source;
use crate::told::{count_of, same_words};
use gix_glob::search::pattern::List;
use gix_glob::search::{LoadFault, Watched};
use glob_lines::LabelLines;
use std::alloc::{AllocError, Global};
use std::io::ErrorKind;
use std::process::Abort;
use std::test::Fail;

const BYTES: &[u8] = b"*.rs";

/// What reading a list comes to, what is left in the buffer, and whether a read failed.
type Loaded = (Result<Option<List<LabelLines>>, LoadFault>, Vec<u8>, bool);

/// The list of what is read, which has no root.
pub(crate) fn list_of(alloc: Global, bytes: Source<'_>) -> Result<Loaded, AllocError> {
    let mut buf = Vec::from_slice(alloc, b"old")?;
    let source = String::from_str(alloc, "src/ig")?;
    let mut reader = Watched::new(bytes);
    let answer = List::from_reader(alloc, &mut reader, source, None, &mut buf, LabelLines);
    Ok((answer, buf, reader.failed()))
}

/// Reads from a reader of so many bytes a read, of which each read fails in turn.
fn check_each_read(
    rt: &(impl Abort + AllocGlobal),
    piece: usize,
    kind: ErrorKind,
    words: &str,
) -> Result<(), Fail> {
    for successes in 0..BYTES.len() + 2 {
        let given = successes.saturating_mul(piece);
        // the read behind the last byte finds the end
        let fails = given <= BYTES.len();
        let source = Source::new(BYTES, piece, successes).failing_with(kind);
        let (answer, buf, has_failed) = list_of(rt.alloc(), source)?;
        let words = if fails { words } else { "1 patterns" };
        same_words(rt, count_of(answer), words, successes)?;
        same(rt, has_failed == fails, "whether a read failed", successes);
        let read = &BYTES[..given.min(BYTES.len())];
        same(rt, buf.as_slice() == read, "what is read", successes);
    }
    Ok(())
}

/// What each error of a read comes to.
const ERRORS: &[(ErrorKind, &str)] = &[
    (ErrorKind::IsADirectory, "none"),
    (ErrorKind::NotADirectory, "none"),
    (
        ErrorKind::Interrupted,
        "reading patterns: operation interrupted",
    ),
    (ErrorKind::Other, "reading patterns: other error"),
];

/// Catches a call that answers for each failed read that there is no file. The error of a read is handed on.
#[test]
fn failed_read_is_none(rt: HostRuntime) -> Result<(), Fail> {
    for (kind, words) in ERRORS {
        check_each_read(&rt, 1, *kind, words)?;
        check_each_read(&rt, BYTES.len(), *kind, words)?;
    }
    let source = Source::new(BYTES, 1, 0).telling("told at reading");
    let (answer, ..) = list_of(rt.alloc(), source)?;
    let words = "reading patterns: told at reading";
    Ok(same_words(&rt, count_of(answer), words, 0)?)
}
