//! The reader of tokens: what stands at a place of the pattern, and the place after it.
ghost use Rattle.std.specs.Prelude.{◌≡◌, ◌≢◌, ◌↔◌, ◌+◌, ◌<◌, ◌≤◌, IsTrue, length, slice_index};
ghost use Rattle.glob_matcher.specs.declared.wildmatch.tokens.TokenKind.TheVariants as kind;
ghost use Rattle.glob_matcher.specs.Tokens.{Token, IsRun, IsBounded, IsToken, kind_of};
ghost use Rattle.glob_matcher.specs.Private.Spelling.{IsAfterSlash, IsBeforeSlash};
ghost use Rattle.glob_matcher.specs.Bytes.{HasByte, open_bracket, slash, star};
ghost use Rattle.glob_matcher.specs.Private.Takes.{Takes};
ghost use Rattle.glob_matcher.specs.Private.Looks.{LookedOver};
ghost use Rattle.glob_matcher.specs.Private.Reader.{IsTokenRead, IsRunRead, is_star};
ghost use Rattle.glob_matcher.specs.Matching.{Fits};

use super::engine::Engine;
use super::texts::Texts;
use super::way::Way;
use std::sync::ledger::Ledger;

/// What kind of token stands at a place.
#[derive(Debug, Copy, Clone, Eq, PartialEq)]
pub enum TokenKind {
    /// This byte, bare or escaped.
    Byte(u8),
    /// The question mark.
    Any,
    /// A bracket set.
    Set,
    /// A run of stars that crosses slashes.
    Free,
    /// A run of stars within a path component.
    Local,
    /// A double star with the slash after it.
    Dirs,
    /// What matches nothing, with the rest of the pattern.
    Nothing,
}

/// What is read of a token.
#[derive(Clone, Copy)]
pub struct TokenRead {
    /// What kind of token it is.
    pub kind: TokenKind,
    /// The place after it.
    pub end: usize,
}

impl TokenKind {
    /// Whether the token is a star token.
    pub(crate) fn is_star(self) -> bool
        ensures { result ≡ is_star self }
    {
        matches!(self, TokenKind::Free | TokenKind::Local | TokenKind::Dirs)
    }

    /// Whether the token is a slash, bare or escaped.
    pub(crate) fn is_slash(self) -> bool
        ensures { IsTrue result ↔ (self ≡ TokenKind.Byte slash) }
    {
        matches!(self, TokenKind::Byte(b'/'))
    }

    /// Whether a token of this kind, which is no set, is one of a single byte and fits that byte.
    #[inline(always)]
    pub(crate) fn fits(self, byte: u8, way: Way) -> bool
        requires { self ≢ kind.Set }
        ensures { (token : Token) → self ≡ kind_of token → IsTrue result ↔ Fits way token byte }
    {
        match self {
            TokenKind::Byte(wanted) => way.alike(byte, wanted),
            TokenKind::Any => !(way.is_path() && byte == b'/'),
            TokenKind::Set
            | TokenKind::Free
            | TokenKind::Local
            | TokenKind::Dirs
            | TokenKind::Nothing => false,
        }
    }
}

impl<'c, 'a, L: Ledger, M: Texts> Engine<'c, 'a, L, M> {
    /// Whether a place is inside the pattern and has this byte.
    pub(super) fn has_byte(&mut self, place: usize, byte: u8) -> bool
        ensures answer { IsTrue result ↔ HasByte M.pattern place byte }
        ensures count { Takes self.old self.new 0 1 }
    {
        self.look_at(place) == Some(byte)
    }

    /// The place after the run of stars at this place.
    fn run_end(&mut self, place: usize) -> usize
        requires { HasByte M.pattern place star }
        ensures run { IsRun M.pattern place result }
        ensures inside { result ≤ length M.pattern }
        ensures count { LookedOver 1 self.old self.new place result }
    {
        let mut end = place + 1;
        'stars: while self.has_byte(end, b'*') {
            end += 1;
        }
        end
    }

    /// Whether a place is the pattern's start or comes directly after a slash.
    fn follows_slash(&mut self, place: usize) -> bool
        requires { place ≤ length M.pattern }
        ensures answer { IsTrue result ↔ IsAfterSlash M.pattern place }
        ensures count { Takes self.old self.new 0 1 }
    {
        if place == 0 {
            return true;
        }
        self.pattern_byte(place - 1) == b'/'
    }

    /// Whether a place is the pattern's end or has a slash, bare or escaped.
    fn precedes_slash(&mut self, place: usize) -> bool
        requires { place ≤ length M.pattern }
        ensures answer { IsTrue result ↔ IsBeforeSlash M.pattern place }
        ensures count { Takes self.old self.new 0 2 }
    {
        match self.look_at(place) {
            None | Some(b'/') => true,
            Some(b'\\') => self.has_byte(place + 1, b'/'),
            Some(_) => false,
        }
    }

    /// Whether a run of stars stands alone between slashes or ends of the pattern.
    fn is_bounded(&mut self, place: usize, end: usize) -> bool
        requires before { place < end }
        requires inside { end ≤ length M.pattern }
        ensures answer { IsTrue result ↔ IsBounded M.pattern place end }
        ensures count { Takes self.old self.new 0 3 }
        ensures single { end < place + 2 → Takes self.old self.new 0 0 }
    {
        if end - place < 2 {
            return false;
        }
        if !self.follows_slash(place) {
            return false;
        }
        self.precedes_slash(end)
    }

    /// The run of stars at this place, and the place after it, or after its slash.
    fn run_at(&mut self, place: usize) -> TokenRead
        requires { HasByte M.pattern place star }
        ensures token { IsToken M.way M.pattern place result.kind result.end }
        ensures count { IsRunRead self.old self.new place result.kind result.end }
    {
        let end = self.run_end(place);
        if !self.is_path() {
            return TokenRead {
                kind: TokenKind::Free,
                end,
            };
        }
        if !self.is_bounded(place, end) {
            return TokenRead {
                kind: TokenKind::Local,
                end,
            };
        }
        if self.has_byte(end, b'/') {
            return TokenRead {
                kind: TokenKind::Dirs,
                end: end + 1,
            };
        }
        TokenRead {
            kind: TokenKind::Free,
            end,
        }
    }

    /// The token at this place, which is no bracket, and the place after it.
    pub fn token_at(&mut self, place: usize) -> TokenRead
        requires place { place < length M.pattern }
        requires other { slice_index M.pattern place ≢ open_bracket }
        ensures token { IsToken M.way M.pattern place result.kind result.end }
        ensures count { IsTokenRead self.old self.new place result.kind result.end }
    {
        match self.pattern_byte(place) {
            b'\\' => match self.escaped_at(place) {
                Some(byte) if self.way().is_dead(byte) => TokenRead {
                    kind: TokenKind::Nothing,
                    end: self.pattern_len(),
                },
                Some(byte) => TokenRead {
                    kind: TokenKind::Byte(byte),
                    end: place + 2,
                },
                None => TokenRead {
                    kind: TokenKind::Nothing,
                    end: self.pattern_len(),
                },
            },
            b'?' => TokenRead {
                kind: TokenKind::Any,
                end: place + 1,
            },
            b'*' => self.run_at(place),
            byte => TokenRead {
                kind: TokenKind::Byte(byte),
                end: place + 1,
            },
        }
    }
}
