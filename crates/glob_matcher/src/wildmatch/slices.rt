//! The readers of tokens over slices, for what counts nothing: each asks an engine with new counts that no one looks at.
ghost use Rattle.std.specs.Prelude.{◌≡◌, ◌≢◌, ◌↔◌, ℕ, ◌<◌, IsTrue, [], length, slice_index};
ghost use Rattle.glob_matcher.specs.Bytes.{HasByte, open_bracket};
ghost use Rattle.glob_matcher.specs.Tokens.{Token, TokenAt, IsToken, kind_of};
ghost use Rattle.glob_matcher.specs.Private.Reader.{IsSetRead};
ghost use Rattle.glob_matcher.specs.Matching.{Fits};
ghost use Rattle.glob_matcher.specs.Steps.{IsBlankOf};

use super::counted_texts::CountedTexts;
use super::engine::Engine;
use super::sets::SetRead;
use super::steps::Steps;
use super::texts::{Texts, text_is_short};
use super::tokens::{TokenKind, TokenRead};
use super::way::Way;
use std::marker::Brand;
use std::sync::ledger::{Blank, Ledger};

/// The token that begins at this place of the pattern, counted in bytes from 0, and the place after it, as this way to match reads it.
/// It takes no memory.
pub fn token_at(pattern: &[u8], place: usize, way: Way) -> TokenRead
    requires { place < length pattern.now }
    ensures { IsToken way pattern.now place result.kind result.end }
{
    if pattern[place] != b'[' {
        return token_with_counts::<Brand>(pattern, place, way, Blank::new(2));
    }
    match set_with_counts::<Brand>(pattern, place, 0, way, Blank::new(2)) {
        Some(set) => TokenRead {
            kind: TokenKind::Set,
            end: set.end,
        },
        None => TokenRead {
            kind: TokenKind::Nothing,
            end: pattern.len(),
        },
    }
}

/// The same, with new counts.
#[inline(always)]
fn token_with_counts<L: Ledger>(pattern: &[u8], place: usize, way: Way, blank: Blank) -> TokenRead
    requires blank { IsBlankOf L.name L.parts blank }
    requires inside { place < length pattern.now }
    requires other { slice_index pattern.now place ≢ open_bracket }
    ensures { IsToken way pattern.now place result.kind result.end }
{
    text_is_short(pattern);
    let mut counts = Steps::new(blank);
    token_over::<L, Brand>(pattern, place, way, &mut counts).0
}

/// The same, of the pattern in counted looks; and the counts.
#[inline(always)]
fn token_over<'c, 'a, L: Ledger, M: Texts>(
    pattern: &'a [u8],
    place: usize,
    way: Way,
    counts: &'c mut Steps<L>,
) -> (TokenRead, &'c mut Steps<L>)
    requires pattern { pattern.now ≡ M.pattern }
    requires value { M.value ≡ [] }
    requires way { way ≡ M.way }
    requires counts { counts.ghost_name ≡ M.counts }
    requires inside { place < length pattern.now }
    requires other { slice_index pattern.now place ≢ open_bracket }
    ensures { IsToken way pattern.now place result.0.kind result.0.end }
{
    let texts = CountedTexts::<'c, 'a, L, M>::new(pattern, &[], counts);
    let mut engine = Engine::new(texts, way);
    let token = engine.token_at(place);
    (token, engine.into_counts())
}

/// The set whose bracket stands at this place, read for this byte with new counts; `None` where no set begins.
#[inline(always)]
fn set_with_counts<L: Ledger>(
    pattern: &[u8],
    place: usize,
    byte: u8,
    way: Way,
    blank: Blank,
) -> Option<SetRead>
    requires blank { IsBlankOf L.name L.parts blank }
    requires bracket { HasByte pattern.now place open_bracket }
    ensures { IsSetRead way pattern.now place byte result }
{
    text_is_short(pattern);
    let mut counts = Steps::new(blank);
    set_over::<L, Brand>(pattern, place, byte, way, &mut counts).0
}

/// The same, of the pattern in counted looks; and the counts.
#[inline(always)]
fn set_over<'c, 'a, L: Ledger, M: Texts>(
    pattern: &'a [u8],
    place: usize,
    byte: u8,
    way: Way,
    counts: &'c mut Steps<L>,
) -> (Option<SetRead>, &'c mut Steps<L>)
    requires pattern { pattern.now ≡ M.pattern }
    requires value { M.value ≡ [] }
    requires way { way ≡ M.way }
    requires counts { counts.ghost_name ≡ M.counts }
    requires bracket { HasByte pattern.now place open_bracket }
    ensures { IsSetRead way pattern.now place byte result.0 }
{
    let texts = CountedTexts::<'c, 'a, L, M>::new(pattern, &[], counts);
    let mut engine = Engine::new(texts, way);
    let set = engine.set_by_items(place, byte);
    (set, engine.into_counts())
}

impl TokenKind {
    /// Whether the token of this kind at a place of the pattern is one of a single byte and fits that byte.
    pub fn fits_at(self, pattern: &[u8], place: usize, byte: u8, way: Way) -> bool
        requires { place < length pattern.now }
        ensures { (token : Token) (end : ℕ) → TokenAt way pattern.now place token end → self ≡ kind_of token → IsTrue result ↔ Fits way token byte }
    {
        let TokenKind::Set = self else {
            return self.fits(byte, way);
        };
        if pattern[place] != b'[' {
            return false;
        }
        match set_with_counts::<Brand>(pattern, place, byte, way, Blank::new(2)) {
            Some(set) => set.holds,
            None => false,
        }
    }
}
