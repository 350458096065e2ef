//! How far a pattern's front is literal and the value's is alike, by spans in which no byte takes a branch.
ghost use Rattle.std.specs.Prelude.{◌↔◌, ℕ, ◌+◌, ◌<◌, ◌≤◌, IsTrue, length, slice_index};
ghost use Rattle.glob_matcher.specs.Private.Finding.{IsLiteralFront, IsLiterally, PassesLiterally};

use super::needle::stands_within_component;
use super::way::Way;

/// How many bytes are compared before the next branch.
const SPAN: usize = 64;

/// Whether a byte comes after all that are special, as small letters do. Then it is a token by itself, and no slash.
#[inline(always)]
fn is_past_special(byte: u8) -> bool
    ensures { IsTrue result → IsLiterally byte }
{
    byte > b'\\'
}

/// Whether a byte of the pattern is a token by itself, and no slash, and the value's is alike.
#[inline(always)]
fn passes(own: u8, met: u8, way: Way) -> bool
    ensures { IsTrue result ↔ PassesLiterally way own met }
{
    stands_within_component(own) && way.alike(met, own)
}

/// Whether the bytes of a span of the pattern are tokens by themselves, and no slashes.
fn is_literal(pattern: &[u8], from: usize) -> bool
    requires { from + SPAN ≤ length pattern.now }
    ensures { IsTrue result → (m : ℕ) → m < SPAN → IsLiterally (slice_index pattern.now (from + m)) }
{
    let mut literal = true;
    'bytes: for at in 0..SPAN {
        literal &= stands_within_component(pattern[from + at]);
    }
    literal
}

/// Whether all bytes of a span are passed. No byte ends the loop, so that many are compared at once.
#[inline(always)]
fn passes_span(pattern: &[u8], value: &[u8], from: usize, way: Way) -> bool
    requires pattern { from + SPAN ≤ length pattern.now }
    requires value { from + SPAN ≤ length value.now }
    ensures { IsTrue result → (m : ℕ) → m < SPAN
        → PassesLiterally way (slice_index pattern.now (from + m)) (slice_index value.now (from + m)) }
{
    let (mut alike, mut past) = (true, true);
    'bytes: for at in 0..SPAN {
        alike &= way.fold(value[from + at]) == way.fold(pattern[from + at]);
        past &= is_past_special(pattern[from + at]);
    }
    alike && (past || is_literal(pattern, from))
}

/// How many bytes at the fronts are passed by whole spans.
#[inline(always)]
fn pass_spans(pattern: &[u8], value: &[u8], way: Way) -> usize
    ensures inside { result ≤ length pattern.now }
    ensures within { result ≤ length value.now }
    ensures each { (m : ℕ) → m < result → PassesLiterally way (slice_index pattern.now m) (slice_index value.now m) }
{
    let mut passed = 0;
    'spans: while pattern.len() - passed >= SPAN && value.len() - passed >= SPAN {
        if !passes_span(pattern, value, passed, way) {
            break;
        }
        passed += SPAN;
    }
    passed
}

/// How many bytes at the front of a pattern are tokens by themselves, and no slash, and alike in the value. It is not inlined, so
/// that the search keeps its registers.
#[cold]
#[inline(never)]
pub(super) fn literal_front(pattern: &[u8], value: &[u8], way: Way) -> usize
    ensures { IsLiteralFront way pattern.now value.now result }
{
    let mut passed = pass_spans(pattern, value, way);
    'bytes: while passed < pattern.len() && passed < value.len() {
        if !passes(pattern[passed], value[passed], way) {
            break;
        }
        passed += 1;
    }
    passed
}
