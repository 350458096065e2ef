//! A reader or a writer that remembers whether a call on it ever failed.
ghost use Rattle.std.specs.Prelude.{◌≡◌, ◌||◌, false, OnOk, is_err};
ghost use Rattle.std.specs.Io.{ReadsAtMost, WritesAtMost};
ghost use Rattle.std.specs.Io.KnownBytes.{Appends, Consumes, Keeps, ReadConsumes, WriteAppends};
ghost use Rattle.byte_streams.specs.Watched.{has_failed, inner, is_failed_write};

use std::io;
use std::io::{Read, Write};

/// A reader or a writer, and a flag that turns true with the first call on it that fails.
///
/// A call fails where it answers an error, and a write also where it takes 0 bytes of a piece that is not empty. The flag
/// never turns back.
///
/// Each call is one call of the value inside, and answers as that did. Contracts say so of the bytes, where that value tells them; tests
/// show it of errors.
#[derive(Debug, Drop)]
pub struct Watched<D> {
    inner: D,
    failed: bool,
}

impl<D> Watched<D> {
    /// Watches a reader or a writer from here on; no call on it has failed yet.
    pub fn new(device: D) -> Watched<D>
        ensures device { inner result ≡ device }
        ensures fresh { has_failed result ≡ false }
    {
        Watched {
            inner: device,
            failed: false,
        }
    }

    /// Whether a call has failed so far.
    pub fn failed(&self) -> bool
        ensures { result ≡ has_failed self.now }
    {
        self.failed
    }

    /// Gives the reader or the writer back.
    pub fn into_inner(self) -> D
        ensures { result ≡ inner self }
    {
        self.inner
    }

    /// Hands on what the value inside answered, and remembers whether the call has failed.
    fn hand_on<T>(&mut self, answer: io::Result<T>, took_nothing: bool) -> io::Result<T>
        ensures answer { result ≡ answer }
        ensures kept { inner self.new ≡ inner self.old }
        ensures flag { has_failed self.new ≡ (has_failed self.old || (took_nothing || is_err answer)) }
    {
        if took_nothing || answer.is_err() {
            self.failed = true;
        }
        answer
    }
}

impl<R: Read> Read for Watched<R> {
    ghost remaining = { λ w. R.remaining (inner w) };

    fn read(&mut self, buf: &mut [u8]) -> io::Result<usize>
        ensures bound { ReadsAtMost result buf.new }
        ensures bytes { ReadConsumes (R.remaining (inner self.old)) (R.remaining (inner self.new)) result buf.new }
        ensures flag { has_failed self.new ≡ (has_failed self.old || is_err result) }
    {
        let answer = self.inner.read(buf);
        self.hand_on(answer, false)
    }

    fn read_exact(&mut self, buf: &mut [u8]) -> io::Result<()>
        ensures bytes { OnOk result (Consumes (R.remaining (inner self.old)) (R.remaining (inner self.new)) buf.new) }
        ensures flag { has_failed self.new ≡ (has_failed self.old || is_err result) }
    {
        let answer = self.inner.read_exact(buf);
        self.hand_on(answer, false)
    }
}

impl<W: Write> Write for Watched<W> {
    ghost contents = { λ w. W.contents (inner w) };

    fn write(&mut self, buf: &[u8]) -> io::Result<usize>
        ensures bound { WritesAtMost result buf.now }
        ensures bytes { WriteAppends (W.contents (inner self.old)) (W.contents (inner self.new)) result buf.now }
        ensures flag { has_failed self.new ≡ (has_failed self.old || is_failed_write result buf.now) }
    {
        let answer = self.inner.write(buf);
        let took_nothing = matches!(answer, Ok(0)) && !buf.is_empty();
        self.hand_on(answer, took_nothing)
    }

    fn flush(&mut self) -> io::Result<()>
        ensures bytes { Keeps (W.contents (inner self.old)) (W.contents (inner self.new)) }
        ensures flag { has_failed self.new ≡ (has_failed self.old || is_err result) }
    {
        let answer = self.inner.flush();
        self.hand_on(answer, false)
    }

    fn write_all(&mut self, buf: &[u8]) -> io::Result<()>
        ensures bytes { OnOk result (Appends (W.contents (inner self.old)) (W.contents (inner self.new)) buf.now) }
        ensures flag { has_failed self.new ≡ (has_failed self.old || is_err result) }
    {
        let answer = self.inner.write_all(buf);
        self.hand_on(answer, false)
    }
}
