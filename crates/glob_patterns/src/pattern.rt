//! Patterns: a line that was read, what it says of its text, and the values and paths that it matches.
ghost use Rattle.std.specs.Prelude.{◌≡◌, ◌↔◌, IsTrue};
ghost use Rattle.std.proofs.Props.{props};
ghost use Rattle.glob_patterns.specs.Patterns.{first_special, is_by_its_end, is_star_and_literal, IsPattern};

use crate::{byte_tests, parse};
use bitflags::Flags;
use glob_matcher::wildmatch;
use std::alloc::{AllocError, Global};

mod case;
mod comparisons;
mod display;
mod git_paths;
mod paths;
mod view;

pub use crate::mode::Mode;
pub use case::Case;
pub use paths::basename_start;
pub use view::PatternView;

/// A pattern as it was read: its text, what is known of it, and the place where its literal front ends.
///
/// Each value has the place of its own text's first special byte, and `ENDS_WITH` only with a text of that shape. The
/// rules are in `docs/PATTERNS.md`.
#[derive(PartialEq, Eq, Debug, Hash, Ord, PartialOrd, Drop)]
pub struct Pattern {
    text: Vec<u8>,
    mode: Mode,
    first_wildcard_pos: Option<usize>,
    ghost placed: { first_wildcard_pos ≡ first_special text.items } by { Prim.hlevel props },
    ghost ends: { IsTrue (is_by_its_end mode) → IsTrue (is_star_and_literal text.items) },
}

/// Making patterns, and taking them apart.
impl Pattern {
    ghost use Rattle.std.specs.Prelude.{◌≡◌, IfOk, IfErr, IsOk, IsOkAnd, IsNone, MatchOption, IsTrue, true, false, ◌↔◌, if◌then◌else◌};
    ghost use Rattle.glob_patterns.specs.GitLines.{GitReads};
    ghost use Rattle.glob_patterns.specs.Patterns.{HasReading, is_blank, without_negation};
    ghost use Rattle.glob_patterns.specs.PatternParts.{text_of, mode_of, place_of, IsReadFrom};

    /// Reads a pattern line, with its leading `!`: `None` where it is blank. The error is want of memory for the text.
    pub fn from_bytes(alloc: Global, text: &[u8]) -> Result<Option<Pattern>, AllocError>
        ensures reads { IfOk result (λ read. MatchOption read (¬ HasReading text.now true) (IsReadFrom text.now true)) }
        ensures blank { IsOkAnd result IsNone ↔ IsTrue (is_blank (without_negation text.now)) }
    {
        Pattern::read(alloc, text, true)
    }

    /// Reads a pattern line in which `!`, `\!` and `\#` have no meaning of their own: `None` where it is blank. One leading
    /// and one trailing slash are taken off all the same. The error is want of memory for the text.
    pub fn from_bytes_without_negation(
        alloc: Global,
        text: &[u8],
    ) -> Result<Option<Pattern>, AllocError>
        ensures reads { IfOk result (λ read. MatchOption read (¬ HasReading text.now false) (IsReadFrom text.now false)) }
        ensures blank { IsOkAnd result IsNone ↔ IsTrue (is_blank text.now) }
    {
        Pattern::read(alloc, text, false)
    }

    /// Reads a pattern line as Git does: each is a pattern, also one without bytes. Only a leading `!` and one slash at each end are
    /// taken off. The error is want of memory for the text.
    pub fn from_git_line(alloc: Global, line: &[u8]) -> Result<Pattern, AllocError>
        ensures { IfOk result (λ read. GitReads line.now (text_of read) (mode_of read) (place_of read)) }
    {
        let (text, mode, first_wildcard_pos) = parse::git_pattern(line);
        let text = Vec::from_slice(alloc, text)?;
        Ok(Pattern {
            text,
            mode,
            first_wildcard_pos,
        })
    }

    /// Reads a pattern line into memory of its own.
    fn read(alloc: Global, line: &[u8], may_alter: bool) -> Result<Option<Pattern>, AllocError>
        ensures reads { IfOk result (λ read. MatchOption read (¬ HasReading line.now may_alter) (IsReadFrom line.now may_alter)) }
        ensures blank { IsOkAnd result IsNone ↔ IsTrue (is_blank (if may_alter then without_negation line.now else line.now)) }
    {
        let Some((text, mode, first_wildcard_pos)) = parse::pattern(line, may_alter) else {
            return Ok(None);
        };
        let text = Vec::from_slice(alloc, text)?;
        Ok(Some(Pattern {
            text,
            mode,
            first_wildcard_pos,
        }))
    }

    /// Makes a pattern of its parts, or hands the text back where the place isn't that of the text's first special
    /// byte, or where `ENDS_WITH` stands without a text of that shape.
    pub fn from_parts(
        text: Vec<u8>,
        mode: Mode,
        first_wildcard_pos: Option<usize>,
    ) -> Result<Pattern, Vec<u8>>
        ensures parts { IfOk result (λ p. (text_of p ≡ text.items) × (mode_of p ≡ mode) × (place_of p ≡ first_wildcard_pos)) }
        ensures text_back { IfErr result (λ back. back ≡ text) }
        ensures exact { IsOk result ↔ IsPattern text.items mode first_wildcard_pos }
    {
        if are_parts(&text, mode, first_wildcard_pos) {
            Ok(Pattern {
                text,
                mode,
                first_wildcard_pos,
            })
        } else {
            Err(text)
        }
    }

    /// The text, what is known of it, and the place of its first special byte.
    pub fn into_parts(self) -> (Vec<u8>, Mode, Option<usize>)
        ensures text { result.0.items ≡ text_of self }
        ensures mode { result.1 ≡ mode_of self }
        ensures place { result.2 ≡ place_of self }
    {
        let Pattern {
            text,
            mode,
            first_wildcard_pos,
        } = self;
        (text, mode, first_wildcard_pos)
    }
}

/// Reading what is known of a pattern.
impl Pattern {
    ghost use Rattle.std.specs.Prelude.{◌≡◌};
    ghost use Rattle.std.specs.List.{list_any};
    ghost use Rattle.glob_matcher.specs.Bytes.{is_wildcard};
    ghost use Rattle.glob_patterns.specs.Patterns.{is_negative};
    ghost use Rattle.glob_patterns.specs.PatternParts.{text_of, mode_of, place_of};

    /// The parts of the pattern, its text borrowed.
    pub fn view(&self) -> PatternView<'_>
        ensures text { result.text.now ≡ text_of self.now }
        ensures mode { result.mode ≡ mode_of self.now }
        ensures place { result.first_wildcard_pos ≡ place_of self.now }
        ensures lawful { IsPattern result.text.now result.mode result.first_wildcard_pos }
    {
        PatternView {
            text: &self.text,
            mode: self.mode,
            first_wildcard_pos: self.first_wildcard_pos,
        }
    }

    /// The bytes that are matched, without the sign and the slashes around them.
    pub fn text(&self) -> &[u8]
        ensures { result.now ≡ text_of self.now }
    {
        &self.text
    }

    /// What is known of the text and of what stood around it.
    pub fn mode(&self) -> Mode
        ensures { result ≡ mode_of self.now }
    {
        self.mode
    }

    /// The place of the first `*`, `?`, `[` or `\` of the text, counted in bytes from 0; `None` where there is none.
    pub fn first_wildcard_pos(&self) -> Option<usize>
        ensures { result ≡ place_of self.now }
    {
        self.first_wildcard_pos
    }

    /// Whether the line began with `!`: whoever asks has to turn a match into its contrary.
    pub fn is_negative(&self) -> bool
        ensures { result ≡ is_negative (mode_of self.now) }
    {
        self.mode.contains(Mode::NEGATIVE)
    }

    /// Whether the text has `*`, `?` or `[`, escaped or not. A `\` alone isn't enough.
    pub fn has_wildcard(&self) -> bool
        ensures { result ≡ list_any is_wildcard (text_of self.now) }
    {
        byte_tests::has_wildcard(&self.text)
    }
}

/// Matching a value.
impl Pattern {
    ghost use Rattle.glob_matcher.specs.Matching.{Splits};
    ghost use Rattle.glob_patterns.specs.PatternParts.{text_of};

    /// Whether the text matches the value. What the line said of negation, of directories and of a leading slash
    /// doesn't count. It takes no memory. The rule is "matching a value" in `docs/PATTERNS.md`.
    pub fn matches(&self, value: &[u8], mode: wildmatch::Mode) -> bool
        ensures { IsTrue result ↔ Splits value.now (text_of self.now) mode }
    {
        self.view().matches(value, mode)
    }
}

/// Whether a text, a mode and a place make a pattern.
fn are_parts(text: &[u8], mode: Mode, first_wildcard_pos: Option<usize>) -> bool
    ensures { IsTrue result ↔ IsPattern text.now mode first_wildcard_pos }
{
    if first_wildcard_pos != byte_tests::first_special(text) {
        return false;
    }
    !mode.contains(Mode::ENDS_WITH) || byte_tests::is_star_and_literal(text)
}
