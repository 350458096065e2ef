//! The lines of bytes: each ends at a line feed or at the end of the bytes.
ghost use Rattle.std.specs.Prelude.{◌≡◌, ◌<◌, ◌∷◌, length};
ghost use Rattle.std.specs.Iterator.{YieldsFirstRef, item_count};
ghost use Rattle.glob_lines.specs.Equations.Lines.{lines_of};

use memchr::memchr;

/// The lines of bytes, in order, without their line feeds. Nothing after the last line feed is no line.
#[derive(Drop)]
pub(crate) struct Lines<'a> {
    rest: &'a [u8],
}

impl<'a> Lines<'a> {
    /// The lines of the bytes, none of which is taken yet.
    pub(crate) fn new(bytes: &'a [u8]) -> Lines<'a>
        ensures { lines_of result.rest.now ≡ lines_of bytes.now }
    {
        Lines { rest: bytes }
    }
}

impl<'a> Iterator for Lines<'a> {
    type Item = &'a [u8];

    ghost next_gives = { YieldsFirstRef (λ lines. lines_of lines.rest.now) };

    ghost remaining = { item_count (λ lines. lines_of lines.rest.now) };

    fn next(&mut self) -> Option<&'a [u8]> {
        if self.rest.is_empty() {
            return None;
        }
        let (line, rest) = split_first_line(self.rest);
        self.rest = rest;
        Some(line)
    }
}

/// The first line of bytes that are not empty, and what follows its line feed.
fn split_first_line(bytes: &[u8]) -> (&[u8], &[u8])
    requires { 0 < length bytes.now }
    ensures { lines_of bytes.now ≡ result.0.now ∷ lines_of result.1.now }
{
    match memchr(b'\n', bytes) {
        Some(end) => (&bytes[..end], &bytes[end + 1..]),
        None => (bytes, &[]),
    }
}
