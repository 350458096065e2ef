//! The library for C: a static library over `gix_glob`, declared in `include/gix_glob.h`.
#![tactic(auto)]

ghost use Rattle.std.specs.Prelude.{◌≡◌, ◌↔◌, true, false, IsTrue, None};
ghost use Rattle.glob_lists.specs.declared.rules.Reading.TheVariants.{Crate};
ghost use Rattle.glob_lists.specs.Deciding.{AnswersUnder};
ghost use Rattle.gix_glob.specs.Entries.{Entry};
ghost use Rattle.gix_glob.specs.Matching.{Splits};
ghost use Rattle.gix_glob.specs.Patterns.{HasReading, Reads};
ghost use Rattle.gix_glob_c.specs.Parsed.{IsLawful, IsPathOfFile};
ghost use Rattle.gix_glob_c.specs.Parts.{case_of, place_in, rules_of};

pub mod attribute_file;
pub mod attributes;
pub mod ignore_file;
pub mod lists;
pub mod parsed;
pub mod paths;
mod places;
pub mod tree;

use crate::parsed::{GlobPattern, path_of_file};
use bitflags::Flags;
use gix_glob::laws::line_has_one_reading;
use gix_glob::pattern::{Case, PatternView};
use gix_glob::wildmatch::{Mode, wildmatch};
use glob_lists::{Reading, Rules};

/// `struct gix_glob_match_mode`: bits of a match mode. That of value 1 is path mode, that of value 2 folds; other bits don't count.
#[repr(C)]
#[derive(Copy, Clone)]
pub struct GlobMatchMode {
    /// The sum of the bits that stand.
    pub bits: u8,
}

/// `GIX_GLOB_VERSION` of the header that the library was built with: major * 10000 + minor * 100 + patch.
#[unsafe(no_mangle)]
pub extern "C" fn gix_glob_version() -> u32
    ensures { result ≡ 400 }
{
    400
}

/// Whether the pattern matches the whole of the value.
#[unsafe(no_mangle)]
pub extern "C" fn gix_glob_wildmatch(pattern: &[u8], value: &[u8], mode: GlobMatchMode) -> bool
    ensures { IsTrue result ↔ Splits value.now pattern.now (record { 0 = mode.bits }) }
{
    wildmatch(pattern, value, Mode::from_bits_retain(mode.bits))
}

/// Whether a pattern line matches a path, in path mode, as [`gix_glob_parse`](crate::parsed::gix_glob_parse) reads it and
/// [`gix_glob_pattern_matches_path`](crate::parsed::gix_glob_pattern_matches_path) answers. A blank line matches nothing.
#[unsafe(no_mangle)]
pub extern "C" fn gix_glob_matches_path(line: &[u8], path: &[u8], is_dir: bool, fold: bool) -> bool
    ensures blank { ¬ HasReading line.now true → result ≡ false }
    ensures other { ¬ IsPathOfFile path.now → result ≡ false }
    ensures exact { (entry : Entry (Unit {0})) → Reads line.now true entry.text entry.mode entry.place → IsPathOfFile path.now
        → (IsTrue result ↔ AnswersUnder None entry path.now is_dir (rules_of Crate fold)) }
{
    // a law does nothing: it is called for what it ensures
    line_has_one_reading();
    let Some(view) = PatternView::from_bytes(line) else {
        return false;
    };
    let Some(path) = path_of_file(path, is_dir) else {
        return false;
    };
    path.is_matched_by(view, rules_of(Reading::Crate, fold))
}

/// Whether the text of a pattern matches the whole of a value, by shortcuts where it can. Parts that don't belong together may give a
/// wrong answer, and nothing worse.
#[unsafe(no_mangle)]
pub extern "C" fn gix_glob_matches(
    pattern: &GlobPattern<'_>,
    value: &[u8],
    mode: GlobMatchMode,
) -> bool
    ensures { IsLawful pattern.now → IsTrue result ↔ Splits value.now pattern.now.text.now (record { 0 = mode.bits }) }
{
    pattern
        .view()
        .matches(value, Mode::from_bits_retain(mode.bits))
}

/// The place, where it is inside the text.
fn place_in(text: &[u8], place: usize) -> Option<usize>
    ensures { result ≡ place_in text.now place }
{
    if place < text.len() {
        Some(place)
    } else {
        None
    }
}

/// The rules by which patterns of a reading are matched, with the case that `fold` asks for.
fn rules_of(reading: Reading, fold: bool) -> Rules
    ensures { result ≡ rules_of reading fold }
{
    Rules {
        case: case_of(fold),
        reading,
    }
}

/// The case that `fold` asks for.
fn case_of(fold: bool) -> Case
    ensures { result ≡ case_of fold }
{
    if fold { Case::Fold } else { Case::Sensitive }
}
