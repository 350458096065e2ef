//! The engines answer as the plain program does: on all short patterns and values, and on values of more than a stride of the
//! scans, with what follows a star at each place.
ghost use Rattle.std.specs.Prelude.{◌<◌, ◌≤◌, length};

use super::mode::Mode;
use super::plain::splits_from;
use super::pruned::{Answer, attempt, is_start};
use super::wildmatch;
use bitflags::Flags;
use std::process::Abort;

/// One more than the length of the longest value, which is two strides and more.
const LONGEST: usize = 19;

/// Writes a word over the alphabet: the code's digits, the lowest first.
fn spell(alphabet: &[u8], code: usize, word: &mut [u8])
    requires { 0 < length alphabet.now }
{
    let mut rest = code;
    for letter in word.iter_mut() {
        *letter = alphabet[rest % alphabet.len()];
        rest /= alphabet.len();
    }
}

/// How many words of a length there are.
fn words(alphabet: &[u8], len: usize) -> usize {
    let mut count = 1usize;
    for _ in 0..len {
        count = count.wrapping_mul(alphabet.len());
    }
    count
}

/// What an answer says of one further place of the value, where it says anything.
fn says_no(answer: &Answer, value: &[u8], at: usize, later: usize) -> bool
    requires { later ≤ length value.now }
{
    match answer {
        Answer::AbortAll => true,
        Answer::AbortToStarStar => at <= later && !value[at..later].contains(&b'/'),
        _ => false,
    }
}

/// Tells what isn't so of a pattern and a value. What proves a formatted text is proved once, here.
fn same(rt: &impl Abort, is_so: bool, asked: &str, pattern: &[u8], value: &[u8]) {
    assert!(rt; is_so, "{asked}: {pattern:?} on {value:?}");
}

/// The engine with two marks agrees with the plain program on this pattern and value.
fn matcher_agrees(rt: &impl Abort, pattern: &[u8], value: &[u8], mode: Mode) {
    let splits = splits_from(pattern, 0, value, 0, mode.way());
    let is_so = wildmatch(pattern, value, mode) == splits;
    same(rt, is_so, "by two marks", pattern, value);
}

/// The pruned engine agrees with the plain program on this pattern and value, at each start and place.
fn attempts_agree(rt: &impl Abort, pattern: &[u8], value: &[u8], mode: Mode) {
    for place in 0..pattern.len() + 1 {
        if !is_start(pattern, place, mode) {
            continue;
        }
        for at in 0..value.len() + 1 {
            let answer = attempt(pattern, place, value, at, mode, 0);
            let splits = splits_from(pattern, place, value, at, mode.way());
            let is_so = (answer == Answer::Match) == splits;
            same(rt, is_so, "by an attempt", pattern, value);
            aborts_rightly(rt, pattern, place, value, at, mode, &answer);
        }
    }
}

/// An abort where no star begins excludes what it says of further places.
fn aborts_rightly(
    rt: &impl Abort,
    pattern: &[u8],
    place: usize,
    value: &[u8],
    at: usize,
    mode: Mode,
    answer: &Answer,
)
    requires { place ≤ length pattern.now }
{
    if pattern.get(place) == Some(&b'*') {
        return;
    }
    for later in at..value.len() + 1 {
        let is_wrong = says_no(answer, value, at, later)
            && splits_from(pattern, place, value, later, mode.way());
        same(rt, !is_wrong, "after an abort", pattern, value);
    }
}

/// All patterns and values over these alphabets, in each mode, agree with the plain program.
fn all_agree(rt: &impl Abort, letters: &[u8], longest: usize, bytes: &[u8])
    requires letters { 0 < length letters.now }
    requires bytes { 0 < length bytes.now }
    requires longest { longest ≤ 6 }
{
    let mut pattern = [0u8; 6];
    let mut value = [0u8; 4];
    for pattern_len in 0..longest + 1 {
        for pattern_code in 0..words(letters, pattern_len) {
            spell(letters, pattern_code, &mut pattern[..pattern_len]);
            for value_len in 0..4 {
                for value_code in 0..words(bytes, value_len) {
                    spell(bytes, value_code, &mut value[..value_len]);
                    for bits in 0..4u8 {
                        let mode = Mode::from_bits_retain(bits);
                        matcher_agrees(rt, &pattern[..pattern_len], &value[..value_len], mode);
                        attempts_agree(rt, &pattern[..pattern_len], &value[..value_len], mode);
                    }
                }
            }
        }
    }
}

#[test]
fn short_texts_agree_with_the_plain_program(rt: HostRuntime) {
    all_agree(&rt, b"*/a?\\", 4, b"aA/");
    all_agree(&rt, b"*a[]", 4, b"aA/");
    all_agree(&rt, b"*/a", 6, b"a/");
}

/// It agrees on values of `a`, with a `b` and a slash at each pair of places.
fn agrees_on_long_values(rt: &impl Abort, pattern: &[u8], mode: Mode) {
    for len in 0..LONGEST {
        let mut value = [b'a'; LONGEST];
        matcher_agrees(rt, pattern, &value[..len], mode);
        for at in 0..len {
            for slash in 0..len {
                value = [b'a'; LONGEST];
                value[at] = b'b';
                value[slash] = b'/';
                matcher_agrees(rt, pattern, &value[..len], mode);
            }
        }
    }
}

#[test]
fn long_values_agree_with_the_plain_program(rt: HostRuntime) {
    for pattern in [
        b"*".as_slice(),
        b"*b",
        b"*ba",
        b"*B*",
        b"*/b",
        b"*b*/*",
        b"**/b*",
        b"**b\\a*",
        b"*[b]*a",
    ] {
        for bits in 0..4u8 {
            agrees_on_long_values(&rt, pattern, Mode::from_bits_retain(bits));
        }
    }
}
