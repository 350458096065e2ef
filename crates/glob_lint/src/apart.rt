//! Whether no path is matched by both of two lines: they begin or end in other bytes, or one is a literal that the other doesn't match.
ghost use Rattle.std.specs.Prelude.{◌≡◌, IsTrue};
ghost use Rattle.glob_lists.specs.declared.rules.Reading.TheVariants.{Git};
ghost use Rattle.glob_lint.specs.Lines.{AreApart};
ghost use Rattle.glob_lint.specs.Private.Ends.{DifferAtEnd, EndsIn, IsBareByte};
ghost use Rattle.glob_lint.specs.Private.Rows.{row_of};

use crate::beginnings::begin_apart;
use crate::line::Line;
use crate::reading::way_of;
use crate::tokens::LineTokens;
use gix_glob::pattern::Case;
use gix_glob::wildmatch::{TokenKind, Way};
use glob_lists::{Reading, RepositoryPath, Rules};

/// Whether no path is matched by both lines, by Git's rules: their beginnings or their literal ends differ, or one is a literal that the
/// other, of the same folder, doesn't match. A yes is right for all paths that a work tree can have; a no says nothing.
pub fn are_apart(left: &Line<'_>, right: &Line<'_>, rules: Rules) -> bool
    ensures { IsTrue result → AreApart rules left.now right.now }
{
    let Reading::Git = rules.reading else {
        return false;
    };
    let way = way_of(rules.case);
    if begin_apart(left, right, way) {
        return true;
    }
    if is_missed(left, right, rules) {
        return true;
    }
    if is_missed(right, left, rules) {
        return true;
    }
    match (left.tokens(), right.tokens()) {
        (Some(left), Some(right)) => ends_differ(
            literal_end(left, way),
            literal_end(right, way),
            way,
        ),
        _ => false,
    }
}

/// Whether a line is a literal that another line of the same folder doesn't match, where case counts.
fn is_missed(literal: &Line<'_>, line: &Line<'_>, rules: Rules) -> bool
    ensures { IsTrue result → rules.reading ≡ Git → AreApart rules literal.now line.now }
{
    let Case::Sensitive = rules.case else {
        return false;
    };
    if literal.base_bytes() != line.base_bytes() {
        return false;
    }
    if literal.pattern.first_wildcard_pos.is_some() {
        return false;
    }
    if literal.pattern.mode.looks_at_name() && !line.pattern.mode.looks_at_name() {
        return false;
    }
    match RepositoryPath::new(literal.pattern.text, true) {
        Some(path) => !path.is_matched_by(line.pattern, rules),
        None => false,
    }
}

/// The bytes at the end of a line's text, each of which stands for itself, from behind the last token that is no such byte.
fn literal_end(tokens: LineTokens<'_>, way: Way) -> &[u8]
    ensures { EndsIn way (row_of tokens.entry) result.now }
{
    let text = tokens.text;
    let mut left = tokens;
    let mut from = left.place;
    'tokens: while let Some(next) = left.next(way) {
        if !is_bare_byte(next.kind, left.place, next.after.place) {
            from = next.after.place;
        }
        left = next.after;
    }
    &text[from..]
}

/// Whether a token is a byte, and one place of the text long: one that has no backslash in front.
fn is_bare_byte(kind: TokenKind, start: usize, end: usize) -> bool
    ensures { IsTrue result → IsBareByte kind start end }
{
    matches!(kind, TokenKind::Byte(_)) && end > start && end - start == 1
}

/// Whether two texts, told from their ends, have other bytes somewhere.
fn ends_differ(left: &[u8], right: &[u8], way: Way) -> bool
    ensures { IsTrue result → DifferAtEnd way left.now right.now }
{
    'places: for n in 0..left.len().min(right.len()) {
        if !way.alike(left[left.len() - 1 - n], right[right.len() - 1 - n]) {
            return true;
        }
    }
    false
}
