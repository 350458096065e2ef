//! Reading a pattern line: the sign and the slashes around its text, and what is known of the text.
ghost use Rattle.std.specs.Prelude.{◌≡◌, ◌↔◌, ◌+◌, ◌++◌, IsTrue, IsNone, IfOk, IsOkAnd, MatchOption, true, if◌then◌else◌, codes, nat_eq};
ghost use Rattle.std.specs.List.{starts_with, ends_with};
ghost use Rattle.std.specs.Str.{bytes_eq};
ghost use Rattle.glob_patterns.specs.GitLines.{GitReads, negation_of};
ghost use Rattle.glob_patterns.specs.Patterns.{Reads, HasReading, is_blank, without_negation, sign_of, slash_if, is_star_and_literal};
ghost use Rattle.glob_patterns.specs.PatternParts.{IsReadFrom};
ghost use Rattle.glob_matcher.specs.Bytes.{has_slash};

use crate::byte_tests::{first_special, has_slash, is_star_and_literal};
use crate::mode::Mode;
use crate::pattern::Pattern;
use bitflags::Flags;
use std::alloc::{AllocError, Global};

/// Reads a pattern line without a copy: its text, borrowed from the line, what is known of it, and the place of its
/// first `*`, `?`, `[` or `\`, counted in bytes from 0. `None` where the line is blank.
///
/// With `may_alter` a leading `!` is taken off and negates, and the backslash of a leading `\!` or `\#` is taken off.
/// One leading and one trailing slash are taken off in any case. The rule is "reading a pattern" in `docs/PATTERNS.md`.
pub fn pattern(pat: &[u8], may_alter: bool) -> Option<(&[u8], Mode, Option<usize>)>
    ensures reads { MatchOption result (¬ HasReading pat.now may_alter) (λ found. Reads pat.now may_alter found.0.now found.1 found.2) }
    ensures blank { IsNone result ↔ IsTrue (is_blank (if may_alter then without_negation pat.now else pat.now)) }
{
    let (rest, negative) = after_sign(pat, may_alter);
    if is_blank(rest) {
        return None;
    }
    let (inner, absolute) = after_lead(rest);
    let (text, must_be_dir) = before_tail(inner);
    let mode = mode_of(text, negative, absolute, must_be_dir);
    Some((text, mode, first_special(text)))
}

/// Reads a pattern line as Git does, without a copy, as [`pattern`] answers it. Each line is a pattern, also one without bytes.
///
/// A leading `!` is taken off and negates. Of what is left, one trailing slash is taken off, then one leading slash; a slash alone is the
/// trailing one. No backslash is taken off. The rule is "reading as Git reads" in `docs/PATTERNS.md`.
pub fn git_pattern(line: &[u8]) -> (&[u8], Mode, Option<usize>)
    ensures { GitReads line.now result.0.now result.1 result.2 }
{
    let (rest, negative) = after_negation(line);
    let (inner, must_be_dir) = before_tail(rest);
    let (text, absolute) = after_lead(inner);
    let mode = mode_of(text, negative, absolute, must_be_dir);
    (text, mode, first_special(text))
}

/// Reads a pattern line, with its leading `!`, as [`Pattern::from_bytes`] does: `None` where it is blank. The error is
/// want of memory for the text.
pub fn parse(alloc: Global, text: &[u8]) -> Result<Option<Pattern>, AllocError>
    ensures reads { IfOk result (λ read. MatchOption read (¬ HasReading text.now true) (IsReadFrom text.now true)) }
    ensures blank { IsOkAnd result IsNone ↔ IsTrue (is_blank (without_negation text.now)) }
{
    Pattern::from_bytes(alloc, text)
}

/// What follows the sign of a line, and whether the sign negates.
fn after_sign(line: &[u8], may_alter: bool) -> (&[u8], bool)
    ensures rest { line.now ≡ sign_of may_alter line.now ++ result.0.now }
    ensures negative { result.1 ≡ bytes_eq (sign_of may_alter line.now) (codes "!") }
{
    if !may_alter {
        return (line, false);
    }
    if let Some(rest) = line.strip_prefix(b"!") {
        return (rest, true);
    }
    if line.starts_with(b"\\!") || line.starts_with(b"\\#") {
        return (&line[1..], false);
    }
    (line, false)
}

/// What follows one leading `!` of a line, and whether there was one.
fn after_negation(line: &[u8]) -> (&[u8], bool)
    ensures rest { line.now ≡ negation_of line.now ++ result.0.now }
    ensures negative { result.1 ≡ bytes_eq (negation_of line.now) (codes "!") }
{
    match line.strip_prefix(b"!") {
        Some(rest) => (rest, true),
        None => (line, false),
    }
}

/// Whether there are no bytes, or ASCII whitespace alone.
fn is_blank(bytes: &[u8]) -> bool
    ensures { result ≡ is_blank bytes.now }
{
    bytes.iter().all(|b| b.is_ascii_whitespace())
}

/// What follows a leading slash, and whether there was one.
fn after_lead(rest: &[u8]) -> (&[u8], bool)
    ensures lead { rest.now ≡ slash_if (starts_with nat_eq rest.now (codes "/")) ++ result.0.now }
    ensures absolute { result.1 ≡ starts_with nat_eq rest.now (codes "/") }
{
    match rest.strip_prefix(b"/") {
        Some(inner) => (inner, true),
        None => (rest, false),
    }
}

/// What stands before a trailing slash, and whether there was one.
fn before_tail(inner: &[u8]) -> (&[u8], bool)
    ensures tail { inner.now ≡ result.0.now ++ slash_if (ends_with nat_eq inner.now (codes "/")) }
    ensures must_be_dir { result.1 ≡ ends_with nat_eq inner.now (codes "/") }
{
    match inner.strip_suffix(b"/") {
        Some(text) => (text, true),
        None => (inner, false),
    }
}

/// What is known of a text and of what stood around it.
fn mode_of(text: &[u8], negative: bool, absolute: bool, must_be_dir: bool) -> Mode
    ensures { result.0 ≡ (if has_slash text.now then 0 else 1) + (if is_star_and_literal text.now then 2 else 0)
        + (if must_be_dir then 4 else 0) + (if negative then 8 else 0) + (if absolute then 16 else 0) }
{
    let mut mode = Mode::empty();
    if !has_slash(text) {
        mode = mode.union(Mode::NO_SUB_DIR);
    }
    if is_star_and_literal(text) {
        mode = mode.union(Mode::ENDS_WITH);
    }
    if must_be_dir {
        mode = mode.union(Mode::MUST_BE_DIR);
    }
    if negative {
        mode = mode.union(Mode::NEGATIVE);
    }
    if absolute {
        mode = mode.union(Mode::ABSOLUTE);
    }
    mode
}
