//! What a watched reader or writer hands on: the bytes, the answer, and whether a call failed.
use crate::compare::same;
use crate::fakes::{Sink, Source};
use gix_glob::search::Watched;
use std::alloc::Global;
use std::io::{ErrorKind, Read, Write};
use std::process::Abort;
use std::test::Fail;

const WHOLE: usize = usize::MAX;

/// What a failed call may say. One that was interrupted isn't tried again either.
const KINDS: [ErrorKind; 2] = [ErrorKind::Interrupted, ErrorKind::PermissionDenied];

/// What a call tells: a number or an error, and whether a call has failed.
type Told = (Result<usize, ErrorKind>, bool);

/// Reads once.
fn read(watched: &mut Watched<Source<'_>>, buf: &mut [u8]) -> Told {
    let count = watched.read(buf).map_err(|error| error.kind());
    (count, watched.failed())
}

/// Reads all that is wanted.
fn read_exact(watched: &mut Watched<Source<'_>>, buf: &mut [u8]) -> Told {
    let told = watched.read_exact(buf).map_err(|error| error.kind());
    (told.map(|_| buf.len()), watched.failed())
}

/// Writes once.
fn write(watched: &mut Watched<Sink>, bytes: &[u8]) -> Told {
    let count = watched.write(bytes).map_err(|error| error.kind());
    (count, watched.failed())
}

/// Writes all.
fn write_all(watched: &mut Watched<Sink>, bytes: &[u8]) -> Told {
    let told = watched.write_all(bytes).map_err(|error| error.kind());
    (told.map(|_| bytes.len()), watched.failed())
}

/// Flushes.
fn flush(watched: &mut Watched<Sink>) -> Told {
    let told = watched.flush().map_err(|error| error.kind());
    (told.map(|_| 0), watched.failed())
}

/// A watched writer that takes so many bytes a write, and of which so many writes succeed.
fn writer(alloc: Global, piece: usize, successes: usize, kind: ErrorKind) -> Watched<Sink> {
    Watched::new(Sink::new(Vec::new(alloc), piece, successes).failing_with(kind))
}

#[test]
fn long_reads_are_handed_on(rt: HostRuntime) -> Result<(), Fail> {
    let long = vec![in rt.alloc(); 7u8; 10_000]?;
    let mut buf = vec![in rt.alloc(); 0u8; 12_000]?;
    let mut watched = Watched::new(Source::new(&long, WHOLE, WHOLE));
    let first = read(&mut watched, &mut buf);
    same(&rt, first == (Ok(10_000), false), "the first read", 0);
    same(&rt, buf.starts_with(&long), "what is read", 0);
    let second = read(&mut watched, &mut buf);
    same(&rt, second == (Ok(0), false), "the second read", 0);
    Ok(())
}

/// The second of three reads fails.
fn check_reads(rt: &impl Abort, kind: ErrorKind) {
    let mut buf = [0u8; 3];
    let mut watched = Watched::new(Source::new(b"abc", 1, 1).failing_with(kind));
    let told = [
        read(&mut watched, &mut buf),
        read(&mut watched, &mut buf),
        read(&mut watched, &mut buf),
    ];
    let wanted = [(Ok(1), false), (Err(kind), true), (Ok(1), true)];
    same(rt, told == wanted, "three reads", 0);
    same(
        rt,
        watched.into_inner().rest() == b"c".as_slice(),
        "what is left",
        0,
    );
}

#[test]
fn failed_reads_are_handed_on(rt: HostRuntime) -> Result<(), Fail> {
    for kind in KINDS {
        check_reads(&rt, kind);
    }
    Ok(())
}

#[test]
fn exact_reads_are_handed_on(rt: HostRuntime) -> Result<(), Fail> {
    let mut buf = [0u8; 3];
    let mut watched = Watched::new(Source::new(b"abcd", 1, WHOLE));
    let told = read_exact(&mut watched, &mut buf);
    same(&rt, told == (Ok(3), false) && buf == *b"abc", "all", 0);
    // one byte is left, and two are wanted
    let told = read_exact(&mut watched, &mut buf[..2]);
    let wanted = (Err(ErrorKind::UnexpectedEof), true);
    same(&rt, told == wanted && buf == *b"dbc", "too few", 0);
    same(&rt, watched.into_inner().rest().is_empty(), "the end", 0);
    Ok(())
}

#[test]
fn failed_exact_reads_are_handed_on(rt: HostRuntime) -> Result<(), Fail> {
    let kind = ErrorKind::PermissionDenied;
    let mut buf = [0u8; 3];
    let mut watched = Watched::new(Source::new(b"abcd", 1, 2).failing_with(kind));
    let told = read_exact(&mut watched, &mut buf);
    same(&rt, told == (Err(kind), true), "a failed read", 0);
    let is_left = watched.into_inner().rest() == b"cd".as_slice();
    same(&rt, buf == *b"ab\0" && is_left, "what is read", 0);
    Ok(())
}

#[test]
fn long_writes_are_handed_on(rt: HostRuntime) -> Result<(), Fail> {
    let long = vec![in rt.alloc(); 7u8; 10_000]?;
    let mut watched = writer(rt.alloc(), WHOLE, WHOLE, ErrorKind::Other);
    let told = write(&mut watched, &long);
    same(&rt, told == (Ok(10_000), false), "a write", 0);
    let is_taken = watched.into_inner().taken() == long.as_slice();
    same(&rt, is_taken, "what is taken", 0);
    // no byte of no bytes is no failure, of some it is
    let mut watched = writer(rt.alloc(), 0, WHOLE, ErrorKind::Other);
    let told = [write(&mut watched, b""), write(&mut watched, b"abc")];
    same(&rt, told == [(Ok(0), false), (Ok(0), true)], "no byte", 0);
    Ok(())
}

#[test]
fn failed_writes_are_handed_on(rt: HostRuntime) -> Result<(), Fail> {
    for kind in KINDS {
        let mut watched = writer(rt.alloc(), 2, 1, kind);
        let told = [write(&mut watched, b"abc"), write(&mut watched, b"c")];
        let wanted = [(Ok(2), false), (Err(kind), true)];
        same(&rt, told == wanted, "two writes", 0);
        let is_taken = watched.into_inner().taken() == b"ab".as_slice();
        same(&rt, is_taken, "what is taken", 0);
    }
    Ok(())
}

#[test]
fn whole_writes_and_flushes_are_handed_on(rt: HostRuntime) -> Result<(), Fail> {
    let kind = ErrorKind::PermissionDenied;
    // how many bytes a write takes, how many writes succeed, what is told, and what was taken
    let rows: [(usize, usize, Result<usize, ErrorKind>, &[u8]); 3] = [
        (1, WHOLE, Ok(3), b"abc"),
        (1, 2, Err(kind), b"ab"),
        (0, WHOLE, Err(ErrorKind::WriteZero), b""),
    ];
    for (row, (piece, successes, wanted, taken)) in rows.into_iter().enumerate() {
        let mut watched = writer(rt.alloc(), piece, successes, kind);
        let told = write_all(&mut watched, b"abc");
        same(&rt, told == (wanted, wanted.is_err()), "whole", row);
        same(&rt, watched.into_inner().taken() == taken, "taken", row);
    }
    for (successes, wanted) in [(0, (Err(kind), true)), (1, (Ok(0), false))] {
        let mut watched = writer(rt.alloc(), 1, successes, kind);
        same(&rt, flush(&mut watched) == wanted, "flush", successes);
    }
    Ok(())
}
