//! Lines read as rows of tokens, as Git reads them.
ghost use Rattle.std.specs.Prelude.{◌≡◌, ◌↔◌, EachIndex, slice_index, IfSome, IsTrue};
ghost use Rattle.gix_glob.specs.Bytes.{has_slash, star};
ghost use Rattle.gix_glob.specs.GitPaths.{git_way};
ghost use Rattle.glob_patterns.specs.declared.pattern.case.Case.{Case};
ghost use Rattle.glob_lint.specs.Private.LineRows.{IsBytesOf, IsNameText, IsRowOf};
ghost use Rattle.glob_lint.specs.Private.Rows.{row_of};

use crate::line::Line;
use crate::tokens::LineTokens;
use gix_glob::pattern::Case;
use gix_glob::wildmatch::{Folding, Way};

/// The way in which Git matches paths.
pub(crate) fn way_of(case: Case) -> Way
    ensures { result ≡ git_way case }
{
    match case {
        Case::Sensitive => Way::new(true, Folding::Off),
        Case::Fold => Way::new(true, Folding::Exact),
    }
}

impl<'a> Line<'a> {
    /// The bytes of the base; none where there is no base.
    pub(crate) fn base_bytes(&self) -> &'a [u8]
        ensures { IsBytesOf self.now.base result.now }
    {
        match self.base {
            Some(base) => base,
            None => b"",
        }
    }

    /// The tokens of the line; `None` of a name that has a slash or is two stars or more, which no row of tokens is alike to.
    pub(crate) fn tokens(&self) -> Option<LineTokens<'a>>
        ensures { IfSome result (λ tokens. (case : Case) → IsRowOf case self.now (row_of tokens)) }
    {
        let base = self.base_bytes();
        let text = self.pattern.text;
        if self.pattern.mode.looks_at_name() {
            if !is_name_text(text) {
                return None;
            }
            return Some(LineTokens {
                base,
                front: b"",
                any_folder: true,
                text,
                place: 0,
            });
        }
        let front_end = self.pattern.first_wildcard_pos.unwrap_or(0);
        Some(LineTokens {
            base,
            front: &text[..front_end],
            any_folder: false,
            text: &text[front_end..],
            place: 0,
        })
    }
}

/// Whether a text matches names alone.
fn is_name_text(text: &[u8]) -> bool
    ensures { IsTrue result → IsNameText text.now }
{
    !has_slash(text) && (text.len() < 2 || !is_all_stars(text))
}

/// Whether a text has a slash.
fn has_slash(text: &[u8]) -> bool
    ensures { result ≡ has_slash text.now }
{
    text.iter().any(|byte| *byte == b'/')
}

/// Whether a text has stars alone.
fn is_all_stars(text: &[u8]) -> bool
    ensures { IsTrue result ↔ EachIndex text.now (λ m. slice_index text.now m ≡ star) }
{
    text.iter().all(|byte| *byte == b'*')
}
