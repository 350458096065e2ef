//! The pruned recursive engine: one alignment of pattern and value at a time, and aborts that spare the rest.
ghost use Rattle.std.specs.Prelude.{◌≡◌, ◌≢◌, ◌↔◌, ℕ, ◌+◌, ◌<◌, ◌≤◌, IsTrue, IfSome, IfNone, Some, length};
ghost use Rattle.glob_matcher.specs.Bytes.{HasByte, star};
ghost use Rattle.glob_matcher.specs.Tokens.{DirsAt};
ghost use Rattle.glob_matcher.specs.Matching.{Splits};
ghost use Rattle.glob_matcher.specs.Ways.{way_of};
ghost use Rattle.glob_matcher.specs.Pruning.{Holds, IsStart, IsBoundary, IsAttempt};
ghost use Rattle.glob_matcher.specs.Private.StarSearch.{wanted_by, AsksFor, Skips, IsComponentEnd, IsTriedEverywhere, IsTriedInComponent, IsTriedInDirectories};

use super::mode::Mode;
use super::slices::token_at;
use super::tokens::TokenKind;
use super::way::Way;
use memchr::{memchr, memchr2};

/// The depth at which an attempt gives up: so many star tokens it would stand below.
const MAX_DEPTH: usize = 64;

/// What one attempt found out: whether the value matches here, and whether it may match elsewhere.
///
/// [`Answer::Match`] always means what it says. The others do where there is room: where the depth of the attempt and the
/// star tokens from its place of the pattern on make at most 63. What an abort says of later places it says only where no
/// star token starts at the attempt's place of the pattern. Both conditions are told in `docs/ARCHITECTURE.md`, "What an
/// answer means".
#[derive(Debug, Copy, Clone, Eq, PartialEq)]
pub enum Answer {
    /// The value matches from here on.
    Match,
    /// It doesn't match from here on; a star before may try further on.
    NoMatch,
    /// It doesn't match from here on, and, where no star token starts here, from no later place of the value either: each
    /// star before may stop.
    AbortAll,
    /// It doesn't match from here on, and, where no star token starts here, from no later place of this path component
    /// either: only a star that crosses slashes may go on.
    AbortToStarStar,
    /// The attempt stood below too many star tokens to be made. Where there is room, it doesn't occur.
    RecursionLimitReached,
}

/// Whether a token of this kind, spelled up to a place, is a double star whose slash stands at another.
fn ends_at_slash(kind: TokenKind, next: usize, slash: usize) -> bool
    requires { 0 < next }
    ensures { IsTrue result ↔ ((kind ≡ TokenKind.Dirs) × (next ≡ slash + 1)) }
{
    kind == TokenKind::Dirs && next - 1 == slash
}

/// Whether an attempt may begin at a place of the pattern, counted in bytes from 0: where a token starts, at the slash that
/// ends a double star's token, and at the pattern's end.
pub fn is_start(pattern: &[u8], from: usize, mode: Mode) -> bool
    ensures { IsTrue result ↔ IsStart pattern.now from (way_of mode) }
{
    is_start_by(pattern, from, mode.way())
}

/// Whether an attempt may begin at a place of the pattern, in this way to match.
fn is_start_by(pattern: &[u8], place: usize, way: Way) -> bool
    ensures { IsTrue result ↔ IsStart pattern.now place way }
{
    let mut start = 0;
    'tokens: while start < pattern.len() && start < place {
        let token = token_at(pattern, start, way);
        if ends_at_slash(token.kind, token.end, place) {
            return true;
        }
        start = token.end;
    }
    start == place
}

impl TokenKind {
    /// The byte that a token of this kind asks for, where it asks for one.
    fn wanted_byte(self) -> Option<u8>
        ensures { result ≡ wanted_by self }
    {
        match self {
            TokenKind::Byte(byte) => Some(byte),
            _ => None,
        }
    }
}

/// The first place of a byte, up to folding.
fn find_byte(bytes: &[u8], byte: u8, way: Way) -> Option<usize>
    ensures found { IfSome result (λ at. Skips way bytes.now (Some byte) 0 at) }
    ensures inside { IfSome result (λ at. at < length bytes.now) }
    ensures none { IfNone result (Skips way bytes.now (Some byte) 0 (length bytes.now)) }
{
    if way.folds() && byte.is_ascii_alphabetic() {
        memchr2(byte.to_ascii_lowercase(), byte.to_ascii_uppercase(), bytes)
    } else {
        memchr(byte, bytes)
    }
}

/// One level of the recursion: the texts and the mode of a match, and how many star tokens the attempts of this level stand
/// below.
#[derive(Copy, Clone)]
struct Level<'a> {
    pattern: &'a [u8],
    value: &'a [u8],
    way: Way,
    depth: usize,
}

impl<'a> Level<'a> {
    /// The byte that the token at a place of the pattern asks for, where it asks for one.
    fn first_wanted(&self, place: usize) -> Option<u8>
        requires start { IsStart self.now.pattern.now place self.now.way }
        requires more { place ≢ length self.now.pattern.now }
        ensures { AsksFor self.now.way self.now.pattern.now place result }
    {
        let token = token_at(self.pattern, place, self.way);
        token.kind.wanted_byte()
    }

    /// The first place of the value, from one place on and before another, where the wanted byte stands; where none is wanted,
    /// the first.
    fn next_at(&self, at: usize, until: usize, wanted: Option<u8>) -> Option<usize>
        requires low { at ≤ until }
        requires inside { until ≤ length self.now.value.now }
        ensures found { IfSome result (λ found. Skips self.now.way self.now.value.now wanted at found) }
        ensures inside { IfSome result (λ found. found < until) }
        ensures none { IfNone result (Skips self.now.way self.now.value.now wanted at until) }
    {
        let Some(byte) = wanted else {
            return if at < until { Some(at) } else { None };
        };
        let offset = find_byte(&self.value[at..until], byte, self.way)?;
        Some(at + offset)
    }

    /// Where the component at a place of the value ends: at the first slash, or at the value's end.
    fn component_end(&self, at: usize) -> usize
        requires { at ≤ length self.now.value.now }
        ensures { IsComponentEnd self.now.value.now at result }
    {
        match memchr(b'/', &self.value[at..]) {
            Some(offset) => at + offset,
            None => self.value.len(),
        }
    }

    /// The answer at the pattern's end: a match where the value ends too.
    fn end_answer(&self, at: usize) -> Answer
        ensures ends { at ≡ length self.now.value.now → result ≡ Answer.Match }
        ensures more { at ≢ length self.now.value.now → result ≡ Answer.NoMatch }
    {
        if at == self.value.len() {
            Answer::Match
        } else {
            Answer::NoMatch
        }
    }

    /// What the attempt from these places on answers.
    #[cycle(attempt)]
    fn attempt(&self, mut place: usize, mut at: usize) -> Answer
        requires start { IsStart self.now.pattern.now place self.now.way }
        requires inside { at ≤ length self.now.value.now }
        requires shallow { self.now.depth ≤ 64 }
        ensures { IsAttempt result self.now.pattern.now place self.now.value.now at self.now.way self.now.depth }
    {
        if self.depth == MAX_DEPTH {
            return Answer::RecursionLimitReached;
        }
        'tokens: while place < self.pattern.len() {
            let token = token_at(self.pattern, place, self.way);
            match token.kind {
                TokenKind::Free => return self.try_everywhere(token.end, at),
                TokenKind::Local => return self.try_component(token.end, at),
                TokenKind::Dirs => return self.try_directories(token.end, at),
                TokenKind::Nothing => return Answer::AbortAll,
                TokenKind::Byte(_) | TokenKind::Any | TokenKind::Set => {
                    if at == self.value.len() {
                        return Answer::AbortAll;
                    }
                    if !token
                        .kind
                        .fits_at(self.pattern, place, self.value[at], self.way)
                    {
                        return Answer::NoMatch;
                    }
                    place = token.end;
                    at += 1;
                }
            }
        }
        self.end_answer(at)
    }

    /// Tries the rest of the pattern at each place of the value from one on.
    #[cycle(attempt)]
    fn try_everywhere(&self, place: usize, mut at: usize) -> Answer
        requires start { IsStart self.now.pattern.now place self.now.way }
        requires no_star { ¬ HasByte self.now.pattern.now place star }
        requires inside { at ≤ length self.now.value.now }
        requires shallow { self.now.depth < 64 }
        ensures { IsTriedEverywhere result self.now.pattern.now place self.now.value.now at self.now.way self.now.depth }
    {
        if place == self.pattern.len() {
            return Answer::Match;
        }
        let wanted = self.first_wanted(place);
        let below = Level {
            depth: self.depth + 1,
            ..*self
        };
        'value: while let Some(found) = self.next_at(at, self.value.len(), wanted) {
            match below.attempt(place, found) {
                Answer::NoMatch | Answer::AbortToStarStar => at = found + 1,
                answer => return answer,
            }
        }
        Answer::AbortAll
    }

    /// Tries the rest of the pattern at each place of the value's component from one on.
    #[cycle(attempt)]
    fn try_component(&self, place: usize, mut at: usize) -> Answer
        requires start { IsStart self.now.pattern.now place self.now.way }
        requires no_star { ¬ HasByte self.now.pattern.now place star }
        requires inside { at ≤ length self.now.value.now }
        requires shallow { self.now.depth < 64 }
        ensures { IsTriedInComponent result self.now.pattern.now place self.now.value.now at self.now.way self.now.depth }
    {
        let end = self.component_end(at);
        if place == self.pattern.len() {
            if end < self.value.len() {
                return Answer::AbortToStarStar;
            }
            return Answer::Match;
        }
        let wanted = self.first_wanted(place);
        let until = self.value.len().min(end + 1);
        let below = Level {
            depth: self.depth + 1,
            ..*self
        };
        'component: while let Some(found) = self.next_at(at, until, wanted) {
            match below.attempt(place, found) {
                Answer::NoMatch => at = found + 1,
                answer => return answer,
            }
        }
        Answer::AbortToStarStar
    }

    /// Tries the rest of the pattern here, and after each slash of the value from here on.
    #[cycle(attempt)]
    fn try_directories(&self, place: usize, at: usize) -> Answer
        requires token { (i : ℕ) × IsBoundary self.now.pattern.now i self.now.way × DirsAt self.now.way self.now.pattern.now i place }
        requires inside { at ≤ length self.now.value.now }
        requires shallow { self.now.depth < 64 }
        ensures { (i : ℕ) → DirsAt self.now.way self.now.pattern.now i place
            → IsTriedInDirectories result self.now.pattern.now i place self.now.value.now at self.now.way self.now.depth }
    {
        let below = Level {
            depth: self.depth + 1,
            ..*self
        };
        match below.attempt(place, at) {
            Answer::Match => Answer::Match,
            _ => self.try_everywhere(place - 1, at),
        }
    }
}

/// One attempt to match the value from the place `at` on with the tokens from the place `from` of the pattern on.
///
/// Places are counted in bytes from 0. `from` is one where [`is_start`] answers true, `at` is inside the value or its end,
/// and `depth`, the number of star tokens that the attempt stands below, is at most 64. Where `depth` and the star tokens
/// from `from` on make at most 63, each answer means what [`Answer`] says, and an abort comes where one must; with more,
/// only a [`Answer::Match`] says anything. It takes no memory. The rules are in `docs/ARCHITECTURE.md`, "The pruned recursive
/// engine".
pub fn attempt(
    pattern: &[u8],
    from: usize,
    value: &[u8],
    at: usize,
    mode: Mode,
    depth: usize,
) -> Answer
    requires start { IsStart pattern.now from (way_of mode) }
    requires inside { at ≤ length value.now }
    requires shallow { depth ≤ 64 }
    ensures { IsAttempt result pattern.now from value.now at (way_of mode) depth }
{
    let way = mode.way();
    let level = Level {
        pattern,
        value,
        way,
        depth,
    };
    level.attempt(from, at)
}

/// Whether `pattern` matches the whole of `value`, by the pruned recursive engine: one [`attempt`] from both starts.
///
/// A yes says that the value is a concatenation of pieces, one from the language of each token of the pattern. A no says
/// that it is not, where the pattern has at most 63 star tokens; with more, a no says nothing. `wildmatch` has no such
/// limit. It takes no memory. The rules are in `docs/ARCHITECTURE.md`, "The pruned recursive engine".
pub fn recursive(pattern: &[u8], value: &[u8], mode: Mode) -> bool
    ensures { Holds result (Splits value.now pattern.now mode) pattern.now }
{
    matches!(attempt(pattern, 0, value, 0, mode, 0), Answer::Match)
}
