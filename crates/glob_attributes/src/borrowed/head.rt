//! The head of a line, which is decoded into memory of the caller where it is quoted.
ghost use Rattle.std.specs.Prelude.{◌≡◌, ◌≤◌, ℕ, List, IfSome, MatchOption, None, Some, is_some, length, true};
ghost use Rattle.glob_attributes.specs.Borrowed.{place_of};
ghost use Rattle.glob_attributes.specs.Equations.Heads.{head_of, quoted_from, quoted_of};
ghost use Rattle.glob_attributes.specs.Places.{IsLeft, IsPartOf};
ghost use Rattle.glob_attributes.specs.Private.Heads.{Measures, memory_for_head, spelled};

use crate::borrowed::memory::take_front;
use crate::head::unit_at;
use crate::words::split_at_blank;

/// The head that a text begins with, its escapes replaced, and what follows it. A quoted head is decoded into the front of `memory`,
/// which is taken off; `None` where that is too short for it.
pub(crate) fn borrow_head<'a>(
    text: &'a [u8],
    memory: &mut &'a mut [u8],
) -> Option<(&'a [u8], &'a [u8])>
    ensures read { IfSome result (λ read. (read.0.now, read.1.now) ≡ head_of text.now) }
    ensures room { memory_for_head text.now ≤ length memory.old.now → is_some result ≡ true }
    ensures left { MatchOption result (memory.new ≡ memory.old) (λ read. IsLeft (memory_for_head text.now) memory.old memory.new) }
    ensures head { IfSome result (λ read. IsPartOf read.0 (place_of (spelled text.now) memory.old text.entry)) }
    ensures rest { IfSome result (λ read. IsPartOf read.1 text.entry) }
{
    if let Some((count, rest)) = measure(text) {
        let head = take_front(memory, count)?;
        decode(&text[1..], head);
        return Some((head, rest));
    }
    Some(split_at_blank(text))
}

/// How many bytes the quoted head spells that a text begins with, and what follows its closing quote. `None` where there is no
/// closing quote, a wrong escape stands before it, or the text begins with no quote.
fn measure(text: &[u8]) -> Option<(usize, &[u8])>
    ensures read { MatchOption result (quoted_of text.now ≡ None) (λ found. Measures (quoted_of text.now) found.0 found.1.now) }
    ensures rest { IfSome result (λ found. IsPartOf found.1 text.entry) }
{
    if !text.starts_with(b"\"") {
        return None;
    }
    let mut count = 0;
    let mut place = 1;
    'units: while let Some((_, more)) = unit_at(&text[place..]) {
        count += 1;
        place += more + 1;
    }
    if place == text.len() || text[place] != b'"' {
        return None;
    }
    Some((count, &text[place + 1..]))
}

/// Writes the bytes that are spelled before the closing quote, where they are as many as there is memory for.
// (apart from what reads the line, the loop takes fewer instructions)
#[inline(never)]
fn decode(quoted: &[u8], head: &mut [u8])
    ensures { (found : List ℕ × List ℕ) → quoted_from 0 quoted.now ≡ Some found → length found.0 ≡ length head.old → head.new ≡ found.0 }
{
    let mut rest = quoted;
    for place in 0..head.len() {
        let Some((byte, more)) = unit_at(rest) else {
            return;
        };
        head[place] = byte;
        rest = &rest[more + 1..];
    }
}
