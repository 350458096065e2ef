//! What one line of an attribute file gives, as parts of the line.
ghost use Rattle.std.specs.Prelude.{◌≡◌, ◌≤◌, ℕ, IfSome, List, MatchOption, false, is_some, length, true};
ghost use Rattle.std.specs.Borrow.{Bor};
ghost use Rattle.glob_attributes.specs.Private.Readings.{assignments_of};
ghost use Rattle.glob_lists.specs.declared.rules.Reading.{Reading};
ghost use Rattle.glob_attributes.specs.Borrowed.{GivesParts, LieIn, memory_for, place_of, spelled_head};
ghost use Rattle.glob_attributes.specs.Places.{IsLeft, IsPartOf};
ghost use Rattle.glob_attributes.specs.Readings.{line_gives};
ghost use Rattle.glob_attributes.specs.Private.Readings.{macro_reading, pattern_reading};

use crate::assignment::read_assignment;
use crate::borrowed::head::borrow_head;
use crate::borrowed::view::view_as;
use crate::line::{LINE_LIMIT, Silence, before_zero, is_macro, macro_name, says_nothing};
use crate::name::is_name;
use crate::words::{Words, after_blanks};
use gix_glob::pattern::PatternView;
use glob_lists::Reading;

/// What a line of an attribute file gives. What a macro or a pattern assigns is what the words say that stand behind the head of the
/// line; the name of each is valid.
#[derive(Debug, Copy, Clone)]
pub enum LineParts<'a> {
    /// The line is blank or a comment.
    Nothing,
    /// The line says nothing, for this reason.
    Silent(Silence),
    /// The line defines a macro.
    Macro {
        /// The macro's name.
        name: &'a [u8],
        /// The words.
        words: &'a [u8],
    },
    /// The line assigns to the paths that match a pattern.
    Pattern {
        /// What the pattern is read from.
        bytes: &'a [u8],
        /// The pattern.
        pattern: PatternView<'a>,
        /// The words.
        words: &'a [u8],
    },
}

/// Reads a line of an attribute file, given without its ending, as [`read_line`](crate::read_line) does, and its pattern by a reading. A
/// quoted head is decoded into the front of `memory`, which keeps what is behind it; `None` where that is too short for it. As many
/// bytes as the line has suffice.
pub fn line_parts<'a>(
    line: &'a [u8],
    is_top: bool,
    reading: Reading,
    memory: &mut &'a mut [u8],
) -> Option<LineParts<'a>>
    ensures read { IfSome result (GivesParts reading (line_gives is_top line.now)) }
    ensures room { memory_for line.now ≤ length memory.old.now → is_some result ≡ true }
    ensures left { MatchOption result (memory.new ≡ memory.old) (λ parts. IsLeft (memory_for line.now) memory.old memory.new) }
    ensures lies { IfSome result (LieIn (place_of (spelled_head line.now) memory.old line.entry) line.entry) }
{
    let text = before_zero(line);
    let inner = after_blanks(text);
    if says_nothing(inner) {
        return Some(LineParts::Nothing);
    }
    if text.len() >= LINE_LIMIT {
        return Some(LineParts::Silent(Silence::TooLong));
    }
    let (head, rest) = borrow_head(inner, memory)?;
    Some(if is_macro(head) {
        macro_parts(head, rest, is_top)
    } else {
        pattern_parts(head, rest, reading)
    })
}

/// What the head and the rest of a line give that defines a macro.
fn macro_parts<'a>(head: &'a [u8], words: &'a [u8], is_top: bool) -> LineParts<'a>
    requires { 6 ≤ length head.now }
    ensures gives { (reading : Reading) → GivesParts reading (macro_reading is_top head.now words.now) result }
    ensures lies { (bytes line : Bor (List ℕ)) → IsPartOf head.entry bytes → IsPartOf words.entry line → LieIn bytes line result }
{
    if !is_top {
        return LineParts::Silent(Silence::MacroBelowTop);
    }
    let name = macro_name(head);
    if !is_name(name) {
        return LineParts::Silent(Silence::MacroName);
    }
    if !has_names(words) {
        return LineParts::Silent(Silence::AttributeName);
    }
    LineParts::Macro { name, words }
}

/// What the head and the rest of a line give that has a pattern.
fn pattern_parts<'a>(head: &'a [u8], words: &'a [u8], reading: Reading) -> LineParts<'a>
    ensures gives { GivesParts reading (pattern_reading head.now words.now) result }
    ensures lies { (bytes line : Bor (List ℕ)) → IsPartOf head.entry bytes → IsPartOf words.entry line → LieIn bytes line result }
{
    if !has_names(words) {
        return LineParts::Silent(Silence::AttributeName);
    }
    if head.starts_with(b"!") {
        return LineParts::Silent(Silence::Negative);
    }
    let bytes = before_zero(head);
    LineParts::Pattern {
        bytes,
        pattern: view_as(bytes, reading),
        words,
    }
}

/// Whether each word of a text has a valid name.
fn has_names(text: &[u8]) -> bool
    ensures { result ≡ is_some (assignments_of text.now) }
{
    for word in Words::new(text) {
        if read_assignment(word).is_none() {
            return false;
        }
    }
    true
}
