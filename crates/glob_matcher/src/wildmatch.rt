//! Matching of bytes against a glob pattern: the mode, and the matcher.
ghost use Rattle.std.specs.Prelude.{◌↔◌, IsTrue};
ghost use Rattle.glob_matcher.specs.Matching.{Splits};
ghost use Rattle.glob_matcher.specs.Steps.{IsBlankOf};

mod any_of;
mod backtrack;
mod barrier;
mod counted_text;
mod counted_texts;
mod counted_value;
mod ends;
mod engine;
mod fitting;
mod front;
mod items;
mod marks;
mod mode;
mod needle;
#[cfg(test)]
mod plain;
mod pruned;
mod scan;
mod search;
mod set_apart;
mod sets;
pub(crate) mod slices;
mod spans;
mod state;
mod steps;
#[cfg(test)]
mod tests;
mod texts;
mod tokens;
mod turns;
mod two_marks;
mod way;

pub use counted_texts::CountedTexts;
pub use mode::Mode;
pub use pruned::{Answer, attempt, is_start, recursive};
pub use slices::token_at;
use std::marker::Brand;
use std::sync::ledger::{Blank, Ledger};
pub use steps::Steps;
pub use texts::{Texts, text_is_short};
pub use tokens::{TokenKind, TokenRead};
pub use two_marks::{marked, marked_by};
pub use way::{Folding, Way};

/// Whether `pattern` matches the whole of `value`, both as bytes of any kind, in `mode`.
///
/// It says yes exactly if the value is a concatenation of pieces, one from the language of each token of the pattern. It
/// takes no memory. The rules are in `docs/PATTERNS.md`.
pub fn wildmatch(pattern: &[u8], value: &[u8], mode: Mode) -> bool
    ensures { IsTrue result ↔ Splits value.now pattern.now mode }
{
    with_new_counts::<Brand>(pattern, value, mode, Blank::new(2))
}

/// The two marks, with new counts that no one asks for.
#[inline(always)]
fn with_new_counts<L: Ledger>(pattern: &[u8], value: &[u8], mode: Mode, blank: Blank) -> bool
    requires { IsBlankOf L.name L.parts blank }
    ensures { IsTrue result ↔ Splits value.now pattern.now mode }
{
    marked(pattern, value, mode, &mut Steps::<L>::new(blank))
}
