//! One line of an ignore file after the other, without a copy.
ghost use Rattle.std.specs.Prelude.{◌≡◌, ◌<◌, [], ◌++◌, length, IfSome, MatchOption};
ghost use Rattle.std.specs.Option.{option_copied};
ghost use Rattle.glob_lines.specs.GitLines.{return_of};
ghost use Rattle.glob_lines.specs.Ignore.{BeginsWithLine, EndsIgnoreLine, Trims, is_comment, without_mark};
ghost use Rattle.glob_lines.specs.Lines.{CutsLine};
ghost use Rattle.glob_lines.specs.Memory.{end_of};
ghost use Rattle.glob_lines.specs.Private.Trimming.{StandsBefore, is_open};

use memchr::memchr;

/// The first line of an ignore file's bytes, and what follows it.
#[derive(Clone, Copy, Debug, PartialEq, Eq)]
pub struct IgnoreLine<'a> {
    /// The bytes that a pattern is read from, without the spaces at their end. `None` where the line is a comment; as Git reads it, also
    /// where it has no byte.
    pub text: Option<&'a [u8]>,
    /// The bytes after the line and its ending. They lie at the end of the bytes that were given, also where none is left.
    pub rest: &'a [u8],
}

/// What follows a byte order mark at the front of an ignore file's bytes; all of them where there is none.
///
/// It is called once, before the first line is taken off by [`next_ignore_line`].
pub fn without_byte_order_mark(bytes: &[u8]) -> &[u8]
    ensures bytes { result.now ≡ without_mark bytes.entry.now }
    ensures place { end_of result ≡ end_of bytes.entry }
{
    match bytes {
        [0xEF, 0xBB, 0xBF, rest @ ..] => rest,
        _ => bytes,
    }
}

/// Takes the first line off an ignore file's bytes; `None` where there are no bytes.
///
/// A line ends at a line feed or at the end of the bytes. A carriage return directly before the line feed is not part of
/// the line, and neither is a space at its end unless a backslash stands before it. A line that begins with `#` is a
/// comment. The pattern of another line is what `Pattern::from_bytes` or `PatternView::from_bytes` reads from its text,
/// if it reads one. A caller that numbers the lines counts each of them. The rules are in `docs/PATTERNS.md`.
pub fn next_ignore_line(bytes: &[u8]) -> Option<IgnoreLine<'_>>
    ensures line { MatchOption result (bytes.entry.now ≡ []) (λ line. BeginsWithLine bytes.entry.now (option_copied line.text) line.rest.now) }
    ensures place { IfSome result (λ line. end_of line.rest ≡ end_of bytes.entry) }
{
    if bytes.is_empty() {
        return None;
    }
    let (line, rest) = split_ended_line(bytes);
    let text = if is_comment(line) {
        None
    } else {
        Some(without_trailing_spaces(line))
    };
    Some(IgnoreLine { text, rest })
}

/// Takes the first line off bytes whose lines end as those of an ignore file, comments and spaces left as they are; `None` where
/// there are no bytes.
///
/// A line ends at a line feed or at the end of the bytes. A carriage return directly before the line feed is not part of the line.
pub fn next_ended_line(bytes: &[u8]) -> Option<(&[u8], &[u8])>
    ensures line { MatchOption result (bytes.entry.now ≡ []) (λ cut. CutsLine EndsIgnoreLine bytes.entry.now cut.0.now cut.1.now) }
    ensures place { IfSome result (λ cut. end_of cut.1 ≡ end_of bytes.entry) }
{
    if bytes.is_empty() {
        return None;
    }
    Some(split_ended_line(bytes))
}

/// Whether a line is a comment.
pub(crate) fn is_comment(line: &[u8]) -> bool
    ensures { result ≡ is_comment line.now }
{
    line.starts_with(b"#")
}

/// The first line of bytes that are not empty, without its ending, and what follows it.
fn split_ended_line(bytes: &[u8]) -> (&[u8], &[u8])
    requires { 0 < length bytes.now }
    ensures cut { CutsLine EndsIgnoreLine bytes.now result.0.now result.1.now }
    ensures place { end_of result.1 ≡ end_of bytes.entry }
{
    match memchr(b'\n', bytes) {
        Some(end) => (without_return(&bytes[..end]), &bytes[end + 1..]),
        None => (bytes, &bytes[bytes.len()..]),
    }
}

/// A line without one carriage return at its end.
pub(crate) fn without_return(line: &[u8]) -> &[u8]
    ensures { line.now ≡ result.now ++ return_of line.now }
{
    match line.strip_suffix(b"\r") {
        Some(text) => text,
        None => line,
    }
}

/// A line without the spaces at its end, but for one that a backslash escapes.
pub(crate) fn without_trailing_spaces(line: &[u8]) -> &[u8]
    ensures { Trims line.now result.now }
{
    let front = without_trailing(line, b' ');
    if front.len() < line.len() && escapes_the_next(front) {
        &line[..front.len() + 1]
    } else {
        front
    }
}

/// Whether the bytes end in a backslash that is not escaped itself.
fn escapes_the_next(bytes: &[u8]) -> bool
    ensures { result ≡ is_open bytes.now }
{
    let backslashes = bytes.len() - without_trailing(bytes, b'\\').len();
    backslashes % 2 == 1
}

/// What stands before the bytes at the end that are `byte`.
fn without_trailing(bytes: &[u8], byte: u8) -> &[u8]
    ensures { StandsBefore byte bytes.now result.now }
{
    match bytes.iter().rposition(|b| *b != byte) {
        Some(last) => &bytes[..last + 1],
        None => &[],
    }
}
