//! The bitmaps of a link, each of which marks some entries of a shared file.
ghost use Rattle.std.specs.Prelude.{◌≡◌, [], IfOk, replicate};
ghost use Rattle.git_index.specs.Private.Reading.{Gives, marks_at, pushed, words_at};
ghost use Rattle.git_index.specs.Split.{bits_of, due_after, low_bits};

use crate::fault::IndexFault;
use crate::fields::{skip, u32_at, u64_at};
use std::alloc::Global;

/// The bits of a word.
const WORD_BITS: u64 = 64;

/// Adds a bit so many times, and each is the mark of an entry. There are `count` entries; for the bits behind them there is no mark, and
/// none may be set.
fn push_bits(marks: &mut Vec<bool>, count: usize, bit: bool, len: u64) -> Result<(), IndexFault>
    ensures { Gives (λ _. marks.new.items) result (pushed count marks.old.items (replicate len bit)) }
{
    let room = count.saturating_sub(marks.len()) as u64;
    if bit && len > room {
        return Err(IndexFault::Position);
    }
    let all = marks.len() + len.min(room) as usize;
    marks.resize(all, bit)?;
    Ok(())
}

/// Adds the bits of a plain word, the lowest first.
fn push_plain(marks: &mut Vec<bool>, count: usize, word: u64) -> Result<(), IndexFault>
    ensures { Gives (λ _. marks.new.items) result (pushed count marks.old.items (low_bits 64 word)) }
{
    let mut left = word;
    for _ in 0..WORD_BITS {
        push_bits(marks, count, left % 2 == 1, 1)?;
        left /= 2;
    }
    Ok(())
}

/// Adds what a word stands for, where so many plain words are due, and tells how many are due then.
fn push_word(marks: &mut Vec<bool>, count: usize, due: u64, word: u64) -> Result<u64, IndexFault>
    ensures marks { Gives (λ _. marks.new.items) result (pushed count marks.old.items (bits_of due word)) }
    ensures due { IfOk result (λ after. after ≡ due_after due word) }
{
    if due == 0 {
        let words = word / 2 % (1 << 32);
        push_bits(marks, count, word % 2 == 1, WORD_BITS * words)?;
        return Ok(word >> 33);
    }
    push_plain(marks, count, word)?;
    Ok(due - 1)
}

/// The marks that so many words spell, and what follows the words.
fn words_of(
    alloc: Global,
    words: u32,
    count: usize,
    bytes: &[u8],
) -> Result<(Vec<bool>, &[u8]), IndexFault>
    ensures { Gives (λ x. (x.0.items, x.1.now)) result (words_at count words 0 [] bytes.now) }
{
    let mut marks = Vec::new(alloc);
    let mut due = 0;
    let mut rest = bytes;
    for _ in 0..words {
        let (word, behind) = u64_at(rest)?;
        due = push_word(&mut marks, count, due, word)?;
        rest = behind;
    }
    if due > 0 {
        return Err(IndexFault::Link);
    }
    Ok((marks, rest))
}

/// The marks of the bitmap at the front, one for each of so many entries up to the last that is marked, and what follows it.
#[tactic(auto, unfolding(crate::specs::Private::Reading::marks_at))]
pub fn marks_of(alloc: Global, count: usize, bytes: &[u8]) -> Result<(Vec<bool>, &[u8]), IndexFault>
    ensures { Gives (λ x. (x.0.items, x.1.now)) result (marks_at count bytes.now) }
{
    let rest = skip(bytes, 4)?;
    let (words, rest) = u32_at(rest)?;
    let (marks, rest) = words_of(alloc, words, count, rest)?;
    let rest = skip(rest, 4)?;
    Ok((marks, rest))
}
