//! Readers and writers in memory, which move few bytes a call and fail at one chosen call.
use std::io;
use std::io::{ErrorKind, Read, Write};

/// A reader of bytes in memory.
#[derive(Drop)]
pub(crate) struct Source<'a> {
    rest: &'a [u8],
    piece: usize,
    calls_left: usize,
    kind: ErrorKind,
    text: Option<&'static str>,
}

impl<'a> Source<'a> {
    /// Gives at most `piece` bytes a read. So many reads succeed, the next one fails, and those after it succeed again.
    pub(crate) fn new(bytes: &'a [u8], piece: usize, successes: usize) -> Source<'a> {
        Source {
            rest: bytes,
            piece,
            calls_left: successes,
            kind: ErrorKind::Other,
            text: None,
        }
    }

    /// Fails with an error of this kind.
    pub(crate) fn failing_with(self, kind: ErrorKind) -> Source<'a> {
        Source { kind, ..self }
    }

    /// Fails with an error that has a text of its own.
    pub(crate) fn telling(self, text: &'static str) -> Source<'a> {
        Source {
            text: Some(text),
            ..self
        }
    }

    /// What was not read.
    pub(crate) fn rest(&self) -> &[u8] {
        self.rest
    }
}

impl Read for Source<'_> {
    fn read(&mut self, buf: &mut [u8]) -> io::Result<usize> {
        if self.calls_left == 0 {
            self.calls_left = usize::MAX;
            return Err(match self.text {
                Some(text) => io::Error::new(self.kind, text),
                None => io::Error::from(self.kind),
            });
        }
        self.calls_left -= 1;
        let count = self.rest.len().min(self.piece).min(buf.len());
        buf[..count].copy_from_slice(&self.rest[..count]);
        self.rest = &self.rest[count..];
        Ok(count)
    }
}

/// A writer that keeps what it takes.
#[derive(Drop)]
pub(crate) struct Sink {
    taken: Vec<u8>,
    piece: usize,
    calls_left: usize,
    kind: ErrorKind,
}

impl Sink {
    /// Takes at most `piece` bytes a write, onto `taken`. So many writes and flushes succeed, the next one fails, and those after it
    /// succeed again.
    pub(crate) fn new(taken: Vec<u8>, piece: usize, successes: usize) -> Sink {
        Sink {
            taken,
            piece,
            calls_left: successes,
            kind: ErrorKind::Other,
        }
    }

    /// Fails with an error of this kind.
    pub(crate) fn failing_with(self, kind: ErrorKind) -> Sink {
        Sink { kind, ..self }
    }

    /// What was written.
    pub(crate) fn taken(&self) -> &[u8] {
        &self.taken
    }

    /// Counts a call, and fails where it is the chosen one.
    fn count_call(&mut self) -> io::Result<()> {
        if self.calls_left == 0 {
            self.calls_left = usize::MAX;
            return Err(io::Error::from(self.kind));
        }
        self.calls_left -= 1;
        Ok(())
    }
}

impl Write for Sink {
    fn write(&mut self, buf: &[u8]) -> io::Result<usize> {
        self.count_call()?;
        let count = buf.len().min(self.piece);
        self.taken.extend_from_slice(&buf[..count])?;
        Ok(count)
    }

    fn flush(&mut self) -> io::Result<()> {
        self.count_call()
    }
}
