//! One line of an ignore file after the other as Git reads it, without a copy.
ghost use Rattle.std.specs.Prelude.{◌≡◌, ◌<◌, [], length, IfSome, MatchOption};
ghost use Rattle.std.specs.Option.{option_copied};
ghost use Rattle.glob_lines.specs.GitLines.{BeginsWithGitLine, GivesGitText, GivesNothing, before_zero};
ghost use Rattle.glob_lines.specs.Lines.{CutsLine, EndsInFeed};
ghost use Rattle.glob_lines.specs.Memory.{end_of};

use crate::ignore_line::{IgnoreLine, is_comment, without_return, without_trailing_spaces};
use memchr::memchr;

/// Takes the first line off an ignore file's bytes, as Git reads it; `None` where there are no bytes.
///
/// A line ends at a line feed or at the end of the bytes. One without bytes, and one that begins with `#`, gives no text. Of another the
/// text is what is left, which may be no bytes: one carriage return at its end is taken off, then what follows the first byte 0, then the
/// spaces at the end, but for one that a backslash escapes. Its pattern is what `Pattern::from_git_line` or `PatternView::from_git_line`
/// reads from the text. A caller that numbers the lines counts each of them. The rules are in `docs/PATTERNS.md`.
pub fn next_git_line(bytes: &[u8]) -> Option<IgnoreLine<'_>>
    ensures line { MatchOption result (bytes.entry.now ≡ []) (λ line. BeginsWithGitLine bytes.entry.now (option_copied line.text) line.rest.now) }
    ensures place { IfSome result (λ line. end_of line.rest ≡ end_of bytes.entry) }
{
    if bytes.is_empty() {
        return None;
    }
    let (line, rest) = split_at_feed(bytes);
    let text = text_of(line);
    Some(IgnoreLine { text, rest })
}

/// The first line of bytes that are not empty, without its line feed, and what follows that.
fn split_at_feed(bytes: &[u8]) -> (&[u8], &[u8])
    requires { 0 < length bytes.now }
    ensures cut { CutsLine EndsInFeed bytes.now result.0.now result.1.now }
    ensures place { end_of result.1 ≡ end_of bytes.entry }
{
    match memchr(b'\n', bytes) {
        Some(end) => (&bytes[..end], &bytes[end + 1..]),
        None => (bytes, &bytes[bytes.len()..]),
    }
}

/// The text that a line gives; `None` where it has no byte or is a comment.
fn text_of(line: &[u8]) -> Option<&[u8]>
    ensures { MatchOption result (GivesNothing line.now) (λ text. GivesGitText line.now text.now tt) }
{
    if line.is_empty() || is_comment(line) {
        return None;
    }
    Some(without_trailing_spaces(before_zero(without_return(line))))
}

/// What stands before the first byte 0.
fn before_zero(bytes: &[u8]) -> &[u8]
    ensures { result.now ≡ before_zero bytes.now }
{
    match memchr(0, bytes) {
        Some(end) => &bytes[..end],
        None => bytes,
    }
}
