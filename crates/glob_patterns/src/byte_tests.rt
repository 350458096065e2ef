//! What the bytes of a text show: slashes, wildcards, and where the first special byte stands.
ghost use Rattle.std.specs.Prelude.{◌≡◌};
ghost use Rattle.std.specs.List.{list_any};
ghost use Rattle.glob_matcher.specs.Bytes.{has_slash, is_special, is_wildcard};
ghost use Rattle.glob_patterns.specs.Patterns.{first_special, is_star_and_literal};

use memchr::{memchr, memchr3};

/// The place of the first byte that may mean more than itself.
pub(crate) fn first_special(text: &[u8]) -> Option<usize>
    ensures { result ≡ first_special text.now }
{
    text.iter().position(|b| is_special(*b))
}

/// Whether a byte may mean more than itself.
#[inline(always)]
pub(crate) fn is_special(b: u8) -> bool
    ensures { result ≡ is_special b }
{
    // most bytes fail the first test
    b <= b'\\' && matches!(b, b'*' | b'?' | b'[' | b'\\')
}

/// Whether some byte may mean more than itself.
fn has_special(bytes: &[u8]) -> bool
    ensures { result ≡ list_any is_special bytes.now }
{
    bytes.iter().any(|b| is_special(*b))
}

/// Whether the text is a star with no such byte after it.
pub(crate) fn is_star_and_literal(text: &[u8]) -> bool
    ensures { result ≡ is_star_and_literal text.now }
{
    text.starts_with(b"*") && !has_special(&text[1..])
}

/// Whether the text has a slash.
#[tactic(auto, using(crate::proofs::lemmas::ByteSearches::is_some_first_byte))]
pub(crate) fn has_slash(text: &[u8]) -> bool
    ensures { result ≡ has_slash text.now }
{
    memchr(b'/', text).is_some()
}

/// Whether the text has a wildcard, escaped or not.
#[tactic(auto, using(crate::proofs::lemmas::ByteSearches::is_some_first_byte))]
pub(crate) fn has_wildcard(text: &[u8]) -> bool
    ensures { result ≡ list_any is_wildcard text.now }
{
    memchr3(b'*', b'?', b'[', text).is_some()
}
