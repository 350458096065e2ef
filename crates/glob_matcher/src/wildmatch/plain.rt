//! The plain program: it tries every cutting of the value, as the definition of a match reads. It is slow.
ghost use Rattle.std.specs.Prelude.{◌↔◌, ◌≤◌, IsTrue, length};
ghost use Rattle.glob_matcher.specs.Matching.{SplitsFrom};
ghost use Rattle.glob_matcher.specs.Private.Fitting.{Spans};
ghost use Rattle.glob_matcher.specs.Bytes.{NoSlash};

use super::slices::token_at;
use super::tokens::TokenKind;
use super::way::Way;

/// Whether no place from one up to another has a slash.
fn has_no_slash(value: &[u8], at: usize, end: usize) -> bool
    requires { end ≤ length value.now }
    ensures { IsTrue result ↔ NoSlash value.now at end }
{
    for reached in at..end {
        if value[reached] == b'/' {
            return false;
        }
    }
    true
}

/// Whether a star token takes the bytes from one place of the value up to another.
fn spans(kind: TokenKind, value: &[u8], at: usize, end: usize) -> bool
    requires order { at ≤ end }
    requires inside { end ≤ length value.now }
    ensures { IsTrue result ↔ Spans kind value.now at end }
{
    match kind {
        TokenKind::Free => true,
        TokenKind::Local => has_no_slash(value, at, end),
        TokenKind::Dirs => end == at || value[end - 1] == b'/',
        TokenKind::Byte(_) | TokenKind::Any | TokenKind::Set | TokenKind::Nothing => false,
    }
}

/// Whether the tokens from a place of the pattern on split the value's bytes from a place on.
pub fn splits_from(pattern: &[u8], place: usize, value: &[u8], at: usize, way: Way) -> bool
    requires place { place ≤ length pattern.now }
    requires at { at ≤ length value.now }
    ensures { IsTrue result ↔ SplitsFrom value.now at pattern.now place way }
{
    if place == pattern.len() {
        return at == value.len();
    }
    let token = token_at(pattern, place, way);
    if token.kind.is_star() {
        'ends: for end in at..value.len() + 1 {
            if spans(token.kind, value, at, end)
                && splits_from(pattern, token.end, value, end, way)
            {
                return true;
            }
        }
        return false;
    }
    if at == value.len() {
        return false;
    }
    if !token.kind.fits_at(pattern, place, value[at], way) {
        return false;
    }
    splits_from(pattern, token.end, value, at + 1, way)
}
