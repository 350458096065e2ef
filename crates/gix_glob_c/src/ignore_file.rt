//! The lines of an ignore file, one after the other: `struct gix_glob_lines` of the header.
ghost use Rattle.std.specs.Prelude.{◌≡◌, ◌≢◌, ◌↔◌, ◌==◌, ◌+◌, ◌-◌, ◌^◌, [], min, true, false};
ghost use Rattle.std.specs.Option.{ForSome, option_copied};
ghost use Rattle.glob_lines.specs.Memory.{end_of};
ghost use Rattle.gix_glob_c.specs.IgnoreFile.{ReadsText, ReadsTextAsGit, TakesLine, TakesLineAsGit, number_after, unread_of};
ghost use Rattle.gix_glob_c.specs.Places.{IsPartOf};
ghost use Rattle.gix_glob_c.specs.Private.Parts.{BeginsSo};

use crate::parsed::{GlobPattern, gix_glob_parse, gix_glob_parse_as_git};
use crate::places::front_part;
use glob_lines::{IgnoreLine, next_git_line, next_ignore_line, without_byte_order_mark};

/// `struct gix_glob_lines`: what is left to read of an ignore file, and how many of its lines were read.
#[repr(C)]
#[derive(Copy, Clone)]
pub struct GlobLines<'a> {
    /// The bytes behind the lines that were read.
    pub rest: &'a [u8],
    /// The number of the line that was read last, from 1; 0 before the first.
    pub number: usize,
}

/// What stands for each answer, `enum gix_glob_line` of the header: no line is left, a line that gives nothing, one that gives a pattern.
pub(crate) const END: u32 = 0;

pub(crate) const NOTHING: u32 = 1;

pub(crate) const PATTERN: u32 = 2;

/// Takes the next line off an ignore file, by the rules of [`next_ignore_line`], and reads its pattern, whose text is a part of the
/// bytes. A byte order mark is passed over before the first line, and `lines.number` becomes the line's. What is left ends where it
/// ended before. 0 is answered where no line was left, and no byte is left then; 1 for a line without a pattern, and 2 for one with a
/// pattern, which alone goes to `out`.
#[unsafe(no_mangle)]
pub extern "C" fn gix_glob_parse_ignore_line<'a>(
    lines: &mut GlobLines<'a>,
    out: &mut GlobPattern<'a>,
) -> u32
    ensures ended { (result ≡ END) ↔ (unread_of lines.old ≡ []) }
    ensures left { result ≡ END → lines.new.rest.now ≡ [] }
    ensures place { end_of lines.new.rest ≡ end_of lines.old.rest }
    ensures number { lines.new.number ≡ number_after result lines.old.number }
    ensures taken { result ≢ END → TakesLine (unread_of lines.old) lines.new.rest.now out.old out.new (result == PATTERN) }
    ensures kept { result ≢ PATTERN → out.new ≡ out.old }
    ensures part { result ≡ PATTERN → IsPartOf out.new.text lines.old.rest }
{
    let bytes = unread(lines);
    let Some(line) = next_ignore_line(bytes) else {
        lines.rest = bytes;
        return END;
    };
    let text = go_behind(lines, line);
    told(read_text(bytes, text, out))
}

/// The same as Git reads it, by the rules of [`next_git_line`]: no line is blank but one without bytes.
#[unsafe(no_mangle)]
pub extern "C" fn gix_glob_parse_ignore_line_as_git<'a>(
    lines: &mut GlobLines<'a>,
    out: &mut GlobPattern<'a>,
) -> u32
    ensures ended { (result ≡ END) ↔ (unread_of lines.old ≡ []) }
    ensures left { result ≡ END → lines.new.rest.now ≡ [] }
    ensures place { end_of lines.new.rest ≡ end_of lines.old.rest }
    ensures number { lines.new.number ≡ number_after result lines.old.number }
    ensures taken { result ≢ END → TakesLineAsGit (unread_of lines.old) lines.new.rest.now out.old out.new (result == PATTERN) }
    ensures kept { result ≢ PATTERN → out.new ≡ out.old }
    ensures part { result ≡ PATTERN → IsPartOf out.new.text lines.old.rest }
{
    let bytes = unread(lines);
    let Some(line) = next_git_line(bytes) else {
        lines.rest = bytes;
        return END;
    };
    let text = go_behind(lines, line);
    told(read_git_text(bytes, text, out))
}

/// Reads the pattern of a text that the bytes begin with; there is none where there is no text.
fn read_text<'a>(bytes: &'a [u8], text: Option<&'a [u8]>, out: &mut GlobPattern<'a>) -> bool
    requires { ForSome (option_copied text) (BeginsSo bytes.now) }
    ensures reads { ReadsText (option_copied text.entry) out.old out.new result }
    ensures place { result ≡ true → IsPartOf out.new.text bytes.entry }
{
    match text {
        Some(text) => gix_glob_parse(front_part(bytes, text), out),
        None => false,
    }
}

/// The same, as Git reads it.
fn read_git_text<'a>(bytes: &'a [u8], text: Option<&'a [u8]>, out: &mut GlobPattern<'a>) -> bool
    requires { ForSome (option_copied text) (BeginsSo bytes.now) }
    ensures reads { ReadsTextAsGit (option_copied text.entry) out.old out.new result }
    ensures place { result ≡ true → IsPartOf out.new.text bytes.entry }
{
    match text {
        Some(text) => {
            gix_glob_parse_as_git(front_part(bytes, text), out);
            true
        }
        None => false,
    }
}

/// What is answered for a line, by whether it has a pattern.
fn told(has_pattern: bool) -> u32
    ensures pattern { (result == PATTERN) ≡ has_pattern }
    ensures line { result ≢ END }
{
    if has_pattern { PATTERN } else { NOTHING }
}

/// Goes on behind a line, and answers its text.
fn go_behind<'a>(lines: &mut GlobLines<'a>, line: IgnoreLine<'a>) -> Option<&'a [u8]>
    ensures text { result ≡ line.entry.text }
    ensures rest { lines.new.rest ≡ line.entry.rest }
    ensures number { lines.new.number ≡ min (lines.old.number + 1) (2 ^ 64 - 1) }
{
    lines.rest = line.rest;
    lines.number = lines.number.saturating_add(1);
    line.text
}

/// The bytes that are left to read, without a byte order mark at the front of the file.
pub(crate) fn unread<'a>(lines: &GlobLines<'a>) -> &'a [u8]
    ensures bytes { result.now ≡ unread_of lines.now }
    ensures place { end_of result ≡ end_of lines.now.rest }
    ensures part { IsPartOf result lines.now.rest }
{
    if lines.number == 0 {
        without_byte_order_mark(lines.rest)
    } else {
        lines.rest
    }
}
