//! The lines of an ignore file as they are shown, and the comments that allow a finding.
ghost use Rattle.std.specs.Prelude.{◌≡◌};

use crate::guesses::is_blank_byte;
use crate::lints::Lint;
use glob_lines::without_byte_order_mark;
use memchr::memchr;

/// The lines of a file, gone through from the first one to the last.
#[derive(Drop)]
pub(crate) struct FileLines<'a> {
    bytes: &'a [u8],
    /// The number of the line that it stands at, from 1; 0 in front of the first one.
    number: usize,
    /// Where that line begins, and the one behind it, in bytes from 0.
    pub(crate) start: usize,
    pub(crate) end: usize,
    /// That line, and the one before it, without their ends.
    pub(crate) line: &'a [u8],
    pub(crate) before: &'a [u8],
}

impl<'a> FileLines<'a> {
    /// Those of a file. It stands in front of the first one.
    pub(crate) fn of(bytes: &'a [u8]) -> FileLines<'a> {
        let start = bytes
            .len()
            .saturating_sub(without_byte_order_mark(bytes).len());
        FileLines {
            bytes,
            number: 0,
            start,
            end: start,
            line: b"",
            before: b"",
        }
    }

    /// Goes on to the line of a number; behind the last line, where there is none.
    pub(crate) fn go_to(&mut self, number: usize) {
        'lines: while self.number < number {
            let rest = self.bytes.get(self.end..).unwrap_or(b"");
            let length = match memchr(b'\n', rest) {
                Some(feed) => feed + 1,
                None => rest.len(),
            };
            self.number += 1;
            self.start = self.end;
            self.end = self.end.saturating_add(length);
            self.before = self.line;
            self.line = without_end(&rest[..length]);
        }
    }
}

/// A line without its line feed and the carriage return before it.
fn without_end(line: &[u8]) -> &[u8] {
    let line = line.strip_suffix(b"\n").unwrap_or(line);
    line.strip_suffix(b"\r").unwrap_or(line)
}

/// A line of an ignore file without its end, as it is shown: the number is counted from 1. No bytes, where there is no such line.
///
/// A byte order mark in front of the first line isn't of it.
pub fn shown_line(bytes: &[u8], line: usize) -> &[u8] {
    let mut lines = FileLines::of(bytes);
    lines.go_to(line);
    lines.line
}

/// Whether a line is a comment that allows a finding in the next one: `# globtree: allow NAME`, with blanks between further names.
pub(crate) fn allows(line: &[u8], lint: Lint) -> bool {
    let Some(names) = allowed_names(line) else {
        return false;
    };
    names
        .split(|byte| is_blank_byte(*byte))
        .any(|name| name == lint.as_str().as_bytes())
}

/// What stands behind `# globtree: allow` in a comment.
fn allowed_names(line: &[u8]) -> Option<&[u8]> {
    let comment = without_blanks(line.strip_prefix(b"#")?);
    let words = without_blanks(comment.strip_prefix(b"globtree:")?);
    let names = words.strip_prefix(b"allow")?;
    match names {
        [b' ' | b'\t', ..] => Some(names),
        _ => None,
    }
}

/// A text without the blanks in front of it.
fn without_blanks(text: &[u8]) -> &[u8] {
    match text.iter().position(|byte| !is_blank_byte(*byte)) {
        Some(length) => &text[length..],
        None => b"",
    }
}
