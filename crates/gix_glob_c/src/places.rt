//! Where a text lies that was read: it is taken out of the bytes that it was read of, by its length and what stands beside it.
ghost use Rattle.std.specs.Prelude.{◌≡◌, length};
ghost use Rattle.gix_glob.specs.Patterns.{is_for_directories, slash_if};
ghost use Rattle.gix_glob_c.specs.Places.{IsPartOf};
ghost use Rattle.gix_glob_c.specs.Private.Parts.{BeginsSo, HasBefore};

use bitflags::Flags;
use gix_glob::pattern::Mode;

/// The part of the bytes that has the bytes of a text, and so many behind it.
pub(crate) fn part_before<'a>(bytes: &'a [u8], text: &[u8], count: usize) -> &'a [u8]
    requires { HasBefore bytes.now text.now count }
    ensures bytes { result.now ≡ text.now }
    ensures place { IsPartOf result bytes.entry }
{
    let end = bytes.len() - count;
    &bytes[end - text.len()..end]
}

/// The part at the front of the bytes that has the bytes of a text.
pub(crate) fn front_part<'a>(bytes: &'a [u8], text: &[u8]) -> &'a [u8]
    requires { BeginsSo bytes.now text.now }
    ensures bytes { result.now ≡ text.now }
    ensures place { IsPartOf result bytes.entry }
{
    &bytes[..text.len()]
}

/// How many bytes of a line stand behind the text of its pattern: a slash, where it is for directories only.
pub(crate) fn count_behind(mode: Mode) -> usize
    ensures { result ≡ length (slash_if (is_for_directories mode)) }
{
    if mode.contains(Mode::MUST_BE_DIR) {
        1
    } else {
        0
    }
}
