//! What of a path a pattern looks at.
ghost use Rattle.std.specs.Prelude.{◌≡◌, ◌≢◌, ◌+◌, ◌<◌, ◌≤◌, IsTrue, false, length, true};
ghost use Rattle.gix_glob.specs.Bytes.{HasByte, star};
ghost use Rattle.gix_glob.specs.Patterns.{is_for_directories, looks_at_name};
ghost use Rattle.glob_patterns.specs.Private.Insides.{IsBetweenStars};
ghost use Rattle.glob_lists.specs.Private.Asks.Literals.{EndsLiterally};
ghost use Rattle.glob_lists.specs.Private.Asks.Parts.{IsFoundInside, IsToldByEnd, is_name, part_of, place_of};

use crate::asks::literals::{has_no_capital, is_joining};
use bitflags::Flags;
use gix_glob::pattern::{Mode, PatternView};

/// How many parts there are.
pub(crate) const PARTS: usize = 4;

/// What of a path a pattern looks at.
#[derive(Debug, Copy, Clone)]
pub(crate) enum Part {
    /// All of it.
    Path,
    /// Its last part.
    Name,
    /// Its last part: the pattern is a literal between two stars, and matches where that part has the literal.
    NameInside,
    /// The end of its last part alone: the pattern is a star and a literal end, and matches where the path has that.
    NameEnd,
}

impl Part {
    /// What a pattern of this mode looks at.
    pub(crate) fn of_mode(mode: Mode) -> Part
        ensures name { IsTrue (is_name result) → IsTrue (looks_at_name mode) }
        ensures inside { result ≢ Part.NameInside }
        ensures end { result ≢ Part.NameEnd }
    {
        if mode.looks_at_name() {
            Part::Name
        } else {
            Part::Path
        }
    }

    /// What a pattern looks at whose text has no literal end.
    pub(crate) fn of_open(pattern: PatternView<'_>) -> Part
        ensures name { IsTrue (is_name result) → IsTrue (looks_at_name pattern.entry.mode) }
        ensures inside { result ≡ Part.NameInside → IsFoundInside pattern.entry.text.now pattern.entry.mode }
        ensures end { result ≢ Part.NameEnd }
    {
        if is_found_inside(pattern) {
            return Part::NameInside;
        }
        Part::of_mode(pattern.mode)
    }

    /// What a pattern looks at whose text has a literal end of this length.
    pub(crate) fn of(pattern: PatternView<'_>, length: usize) -> Part
        requires { EndsLiterally pattern.text.now length }
        ensures name { IsTrue (is_name result) → IsTrue (looks_at_name pattern.entry.mode) }
        ensures told { result ≡ Part.NameEnd → IsToldByEnd pattern.entry.text.now pattern.entry.mode length }
        ensures inside { result ≢ Part.NameInside }
    {
        if is_told_by_end(pattern, length) {
            return Part::NameEnd;
        }
        Part::of_mode(pattern.mode)
    }

    /// The number of the part, by which a row keeps it.
    pub(crate) fn number(self) -> u8
        ensures { part_of result ≡ self }
    {
        self as u8
    }

    /// The part of a number; each number is that of some part.
    #[inline(always)]
    pub(crate) fn of_number(number: u8) -> Part
        ensures { result ≡ part_of number }
    {
        match number % 4 {
            0 => Part::Path,
            1 => Part::Name,
            2 => Part::NameInside,
            _ => Part::NameEnd,
        }
    }

    /// The place of the part among all.
    #[inline(always)]
    pub(crate) fn place(self) -> usize
        ensures within { result < PARTS }
        ensures place { result ≡ place_of self }
    {
        self as usize
    }

    /// Whether it is the last part of a path, and what stands before its end is looked at too.
    #[inline(always)]
    pub(crate) fn is_name(self) -> bool
        ensures { result ≡ is_name self }
    {
        matches!(self, Part::Name | Part::NameInside)
    }
}

/// Whether a pattern of this mode looks at the last part of a path alone, also where the path isn't that of a directory.
fn looks_at_any_name(mode: Mode) -> bool
    ensures name { IsTrue result → looks_at_name mode ≡ true }
    ensures all { IsTrue result → is_for_directories mode ≡ false }
{
    mode.looks_at_name() && !mode.contains(Mode::MUST_BE_DIR)
}

/// Whether a pattern matches wherever the last part of a path has what stands between two stars.
fn is_found_inside(pattern: PatternView<'_>) -> bool
    ensures { IsTrue result → IsFoundInside pattern.entry.text.now pattern.entry.mode }
{
    looks_at_any_name(pattern.mode) && is_between_stars(pattern.text)
}

/// Whether a pattern matches wherever a path has its literal end, which has this length.
fn is_told_by_end(pattern: PatternView<'_>, length: usize) -> bool
    requires { EndsLiterally pattern.text.now length }
    ensures { IsTrue result → IsToldByEnd pattern.entry.text.now pattern.entry.mode length }
{
    is_star_before(pattern.text, length)
        && looks_at_any_name(pattern.mode)
        && has_no_capital(pattern.text, length)
}

/// Whether a text is a star and so many last bytes.
fn is_star_before(text: &[u8], count: usize) -> bool
    requires { count ≤ length text.now }
    ensures star { IsTrue result → HasByte text.now 0 star }
    ensures long { IsTrue result → length text.now ≡ count + 1 }
{
    text.len() - count == 1 && text[0] == b'*'
}

/// Whether a text is a star, bytes that stand for themselves, one at least, and a star.
fn is_between_stars(text: &[u8]) -> bool
    ensures { IsTrue result → IsBetweenStars text.now }
{
    let len = text.len();
    if len < 3 || text[len - 1] != b'*' || text[0] != b'*' {
        return false;
    }
    'bytes: for place in 1..len - 1 {
        if is_joining(text[place]) {
            return false;
        }
    }
    true
}
