//! The engine with two marks: no recursion, no memory, and a bound on its steps and its looks.
//!
//! One mark belongs to the last token met that crosses slashes, the other to the last run of stars within a component met
//! after it. Where a token does not fit, the local mark moves by one byte, or, where that would pass a slash, the crossing
//! mark moves to its next place. A crossing token that is newly met forgets both marks, and a slash the local one.
//!
//! A match runs downwards: `ends` tells what the ends show, `search` takes the turns of `turns` and the ways back of
//! `backtrack`, which scans by `scan`. They test the value by `fitting` and `marks`, and read the pattern by `tokens` and `sets`.
ghost use Rattle.std.specs.Prelude.{◌≡◌, ◌↔◌, ◌+◌, ◌≤◌, IsTrue, IfSome, length};
ghost use Rattle.glob_matcher.specs.Matching.{Splits, SplitsBy};
ghost use Rattle.glob_matcher.specs.Steps.{NeverFall, look_limit, step_limit};

use super::counted_text::CountedText;
use super::counted_texts::CountedTexts;
use super::counted_value::CountedValue;
use super::engine::Engine;
use super::mode::Mode;
use super::steps::Steps;
use super::texts::{Texts, text_is_short};
use super::way::Way;
use std::marker::Brand;
use std::sync::ledger::Ledger;

/// Whether `pattern` matches the whole of `value`, as `wildmatch` answers it, with its steps and looks counted.
///
/// The count of steps rises by at most `2 * (p + 1) * (v + 1)` in both modes, `p` and `v` being the lengths in bytes of pattern
/// and value, and the count of looks by at most `8 * (p + 1) * (v + 1)`. It takes no memory, and no recursion. The rules are
/// in `docs/PATTERNS.md`.
#[inline(always)]
pub fn marked<L: Ledger>(pattern: &[u8], value: &[u8], mode: Mode, steps: &mut Steps<L>) -> bool
    ensures exact { IsTrue result ↔ Splits value.now pattern.now mode }
    ensures limit { steps.new.steps ≤ steps.old.steps + step_limit (length pattern.now) (length value.now) }
    ensures looks { steps.new.looks ≤ steps.old.looks + look_limit (length pattern.now) (length value.now) }
    ensures grows { NeverFall steps.old steps.new }
{
    marked_by(pattern, value, mode.way(), steps)
}

/// The same in a way to match, also one that no mode asks for.
pub fn marked_by<L: Ledger>(pattern: &[u8], value: &[u8], way: Way, counts: &mut Steps<L>) -> bool
    ensures exact { IsTrue result ↔ SplitsBy value.now pattern.now way }
    ensures limit { counts.new.steps ≤ counts.old.steps + step_limit (length pattern.now) (length value.now) }
    ensures looks { counts.new.looks ≤ counts.old.looks + look_limit (length pattern.now) (length value.now) }
    ensures grows { NeverFall counts.old counts.new }
{
    text_is_short(pattern);
    text_is_short(value);
    ends_then_search::<L, Brand>(
        CountedText::new(pattern),
        CountedValue::new(value),
        way,
        counts,
    )
    .0
}

/// Whether the pattern matches the value, by what their ends tell, or else by the search; and the counts of what it took.
#[inline(always)]
fn ends_then_search<'c, 'a, L: Ledger, M: Texts>(
    pattern: CountedText<'a, L>,
    value: CountedValue<'a, L>,
    way: Way,
    counts: &'c mut Steps<L>,
) -> (bool, &'c mut Steps<L>)
    requires pattern { pattern ≡ M.pattern }
    requires value { value ≡ M.value }
    requires way { way ≡ M.way }
    requires counts { counts.ghost_name ≡ M.counts }
    ensures exact { IsTrue result.0 ↔ SplitsBy value.entry pattern.entry way }
    ensures same { result.1.ghost_name ≡ counts.entry.ghost_name }
    ensures steps { result.1.now.steps ≤ counts.old.steps + step_limit (length pattern.entry) (length value.entry) }
    ensures looks { result.1.now.looks ≤ counts.old.looks + look_limit (length pattern.entry) (length value.entry) }
    ensures grows { NeverFall counts.old result.1.now }
{
    let (told, counts) = compare_ends::<L, M>(pattern.again(), value.again(), way, counts);
    // Each arm names its answer: a bit that is handed on costs every call an instruction.
    match told {
        Some(true) => (true, counts),
        Some(false) => (false, counts),
        None => search_whole::<L, M>(pattern, value, way, counts),
    }
}

/// What the ends of both texts tell of the match, and the counts of what it took.
#[inline(always)]
fn compare_ends<'c, 'a, L: Ledger, M: Texts>(
    pattern: CountedText<'a, L>,
    value: CountedValue<'a, L>,
    way: Way,
    counts: &'c mut Steps<L>,
) -> (Option<bool>, &'c mut Steps<L>)
    requires pattern { pattern ≡ M.pattern }
    requires value { value ≡ M.value }
    requires way { way ≡ M.way }
    requires counts { counts.ghost_name ≡ M.counts }
    ensures meaning { IfSome result.0 (λ answer. IsTrue answer ↔ SplitsBy value.entry pattern.entry way) }
    ensures same { result.1.ghost_name ≡ counts.entry.ghost_name }
    ensures steps { result.1.now.steps ≤ counts.old.steps + 1 }
    ensures looks { result.1.now.looks ≤ counts.old.looks + 2 }
    ensures grows { NeverFall counts.old result.1.now }
{
    let texts = CountedTexts::<'c, 'a, L, M>::of(pattern, value, counts);
    let mut ends = Engine::new(texts, way);
    let answer = ends.ends_tell();
    (answer, ends.into_counts())
}

/// Whether the search says that the pattern matches the value, and the counts of what it took. It is not inlined, so that a
/// match that the ends tell doesn't pay for the registers of the search.
#[inline(never)]
fn search_whole<'c, 'a, L: Ledger, M: Texts>(
    pattern: CountedText<'a, L>,
    value: CountedValue<'a, L>,
    way: Way,
    counts: &'c mut Steps<L>,
) -> (bool, &'c mut Steps<L>)
    requires pattern { pattern ≡ M.pattern }
    requires value { value ≡ M.value }
    requires way { way ≡ M.way }
    requires counts { counts.ghost_name ≡ M.counts }
    ensures exact { IsTrue result.0 ↔ SplitsBy value.entry pattern.entry way }
    ensures same { result.1.ghost_name ≡ counts.entry.ghost_name }
    ensures steps { result.1.now.steps + 1 ≤ counts.old.steps + step_limit (length pattern.entry) (length value.entry) }
    ensures looks { result.1.now.looks + 2 ≤ counts.old.looks + look_limit (length pattern.entry) (length value.entry) }
    ensures grows { NeverFall counts.old result.1.now }
{
    let texts = CountedTexts::<'c, 'a, L, M>::of(pattern, value, counts);
    let mut engine = Engine::new(texts, way);
    let answer = engine.search();
    (answer, engine.into_counts())
}
